//! Signers, borrowed.

ghost use Rattle.cms_types.specs.Borrowed.{signer_at};
ghost use Rattle.cms_types.specs.Levels.{AreSignerFields};
ghost use Rattle.cms_types.specs.SignerElements.{signer_of};
ghost use Rattle.cms_types.specs.Signers.{IsSignerInfo};

use crate::shapes::is_signer_info;
use crate::signer_info::fields::SignerFields;
use crate::version::CmsVersion;
use der_core::tag::{INTEGER, OCTET_STRING, SEQUENCE};
use der_core::{Elem, leaf_at, two_kids};

/// A borrowed signer (RFC 5652 5.3). It doesn't allocate.
#[derive(Clone, Copy)]
pub struct SignerView<'a> {
    fields: SignerFields<'a>,
    ghost fits: { ∥ AreSignerFields (signer_at fields)
        × IsSignerInfo (signer_of (signer_at fields)) ∥₁ },
}

impl<'a> SignerView<'a> {
    ghost use Rattle.std.specs.Prelude.{◌≡◌, ◌≢◌, [], ◌∷◌, MatchOption};
    ghost use Rattle.der_core.specs.DerElement.{Primitive};
    ghost use Rattle.der_core.specs.Encoding.{encoding};
    ghost use Rattle.der_core.specs.Elements.{octet_string};
    ghost use Rattle.der_core.specs.BorrowedOption.{at_option};
    ghost use Rattle.cms_types.specs.SignerIdentifier.{issuer_and_serial_number};
    ghost use Rattle.cms_types.specs.SignerInfo.{signer_info};
    ghost use Rattle.cms_types.specs.SignerView.{signer_elements_at, IsSignerView, LendsNamed};
    ghost use Rattle.cms_types.specs.declared.signer_info.SignerInfo.{SignerInfo};
    ghost use Rattle.cms_types.specs.declared.signer_info.issuer_and_serial.IssuerAndSerialNumber.{IssuerAndSerialNumber};

    /// The view of an element, None if it encodes no signer.
    pub fn read(elem: Elem<'a>) -> Option<SignerView<'a>>
        ensures { MatchOption result
            ((value : SignerInfo) → elem.entry.is.0 ≢ signer_info value)
            (IsSignerView elem.entry.is.0) }
    {
        let fields = SignerFields::of(elem)?;
        if !is_signer_info(elem) {
            return None;
        }
        Some(SignerView { fields })
    }

    /// The number of the version.
    pub fn version(&self) -> u8
        ensures { (signer_elements_at self.now).version ≡ Primitive 0x02 (result ∷ []) }
    {
        match CmsVersion::at(self.fields.version) {
            Some(version) => version.number(),
            None => unreachable!(),
        }
    }

    /// The octets of the issuer, and the contents octets of the serial number, that identify the
    /// signer's certificate; None exactly where a subject key identifier does.
    pub fn issuer_and_serial(&self) -> Option<(&'a [u8], &'a [u8])>
        ensures { MatchOption result
            ((value : IssuerAndSerialNumber)
            → (signer_elements_at self.now).sid ≢ issuer_and_serial_number value)
            (λ named. LendsNamed (signer_elements_at self.now).sid named.0.now named.1.now) }
    {
        let (issuer, serial_number) = two_kids(self.fields.sid, SEQUENCE)?;
        let serial_number = leaf_at(serial_number, INTEGER)?;
        Some((issuer.whole, serial_number))
    }

    /// The octets of the digest algorithm.
    pub fn digest_algorithm(&self) -> &'a [u8]
        ensures { result.now ≡ encoding (signer_elements_at self.now).digest_algorithm }
    {
        self.fields.digest_algorithm.whole
    }

    /// The signed attributes, unless they are absent.
    pub fn signed_attributes(&self) -> Option<Elem<'a>>
        ensures { at_option result ≡ (signer_elements_at self.now).signed_attrs }
    {
        self.fields.signed_attrs
    }

    /// The octets of the signature algorithm.
    pub fn signature_algorithm(&self) -> &'a [u8]
        ensures { result.now ≡ encoding (signer_elements_at self.now).signature_algorithm }
    {
        self.fields.signature_algorithm.whole
    }

    /// The octets of the signature.
    pub fn signature(&self) -> &'a [u8]
        ensures { (signer_elements_at self.now).signature ≡ octet_string result.now }
    {
        match leaf_at(self.fields.signature, OCTET_STRING) {
            Some(octets) => octets,
            None => unreachable!(),
        }
    }

    /// The unsigned attributes, unless they are absent.
    pub fn unsigned_attributes(&self) -> Option<Elem<'a>>
        ensures { at_option result ≡ (signer_elements_at self.now).unsigned_attrs }
    {
        self.fields.unsigned_attrs
    }
}
