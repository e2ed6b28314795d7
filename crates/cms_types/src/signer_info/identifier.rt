//! Identifiers of signers' certificates.

use crate::signer_info::issuer_and_serial::IssuerAndSerialNumber;
use der_core::{DerError, Elem, Octets, Structure, Tree, leaf, leaf_at};
use std::alloc::{AllocError, Global};

const SUBJECT_KEY_IDENTIFIER: u8 = 0x80;

/// The identifier of a signer's certificate (RFC 5652 5.3).
#[derive(Debug, Drop)]
pub enum SignerIdentifier {
    /// Its issuer and its serial number.
    IssuerAndSerialNumber(IssuerAndSerialNumber),
    /// Its subject key identifier.
    SubjectKeyIdentifier(Octets),
}

impl Structure for SignerIdentifier {
    ghost use Rattle.std.specs.Prelude.{◌≡◌};
    ghost use Rattle.cms_types.specs.SignerIdentifier.{signer_identifier};
    ghost use Rattle.cms_types.specs.Facts.SignerIdentifiers.{signer_identifiers};

    ghost written = { signer_identifier };

    ghost spells = { λ element value. element ≡ signer_identifier value };

    fn has_shape(elem: Elem<'_>) -> bool {
        match leaf_at(elem, SUBJECT_KEY_IDENTIFIER) {
            Some(_) => true,
            None => IssuerAndSerialNumber::has_shape(elem),
        }
    }

    fn read_at(alloc: Global, elem: Elem<'_>) -> Result<SignerIdentifier, DerError> {
        match leaf_at(elem, SUBJECT_KEY_IDENTIFIER) {
            Some(octets) => {
                let octets = Octets::from_slice(alloc, octets)?;
                Ok(SignerIdentifier::SubjectKeyIdentifier(octets))
            }
            None => {
                let named = IssuerAndSerialNumber::read_at(alloc, elem)?;
                Ok(SignerIdentifier::IssuerAndSerialNumber(named))
            }
        }
    }

    fn write(&self, alloc: Global) -> Result<Tree, DerError> {
        match self {
            SignerIdentifier::IssuerAndSerialNumber(named) => named.write(alloc),
            SignerIdentifier::SubjectKeyIdentifier(octets) => {
                Ok(leaf(alloc, SUBJECT_KEY_IDENTIFIER, octets.as_slice())?)
            }
        }
    }

    fn try_clone(&self, alloc: Global) -> Result<SignerIdentifier, AllocError> {
        Ok(match self {
            SignerIdentifier::IssuerAndSerialNumber(named) => {
                SignerIdentifier::IssuerAndSerialNumber(named.try_clone(alloc)?)
            }
            SignerIdentifier::SubjectKeyIdentifier(octets) => {
                SignerIdentifier::SubjectKeyIdentifier(octets.try_clone(alloc)?)
            }
        })
    }

    ghost grammar = { signer_identifiers };
}

/// Values are equal exactly where their encodings are.
impl PartialEq for SignerIdentifier {
    ghost use Rattle.std.specs.Prelude.{◌≡◌, ◌↔◌, IsTrue};
    ghost use Rattle.der_core.specs.Equality.{same_octets};
    ghost use Rattle.der_core.specs.Facts.Equality.{same_octets_per};
    ghost use Rattle.cms_types.specs.SignerIdentifier.{signer_identifier};

    ghost eq = { same_octets signer_identifier };

    ghost laws = { same_octets_per signer_identifier };

    fn eq(&self, other: &SignerIdentifier) -> bool
        ensures octets { result ≡ same_octets signer_identifier self.now other.now }
        ensures same { IsTrue result ↔ (self.now ≡ other.now) }
    {
        match (self, other) {
            (
                SignerIdentifier::IssuerAndSerialNumber(a),
                SignerIdentifier::IssuerAndSerialNumber(b),
            ) => *a == *b,
            (
                SignerIdentifier::SubjectKeyIdentifier(a),
                SignerIdentifier::SubjectKeyIdentifier(b),
            ) => *a == *b,
            _ => false,
        }
    }
}

impl Eq for SignerIdentifier {
    ghost use Rattle.der_core.specs.Facts.Equality.{same_octets_equiv};
    ghost use Rattle.cms_types.specs.SignerIdentifier.{signer_identifier};

    ghost laws = { same_octets_equiv signer_identifier };
}
