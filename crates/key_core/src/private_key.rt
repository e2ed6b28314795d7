//! Private keys.

ghost use Rattle.std.specs.Prelude.{◌≡◌, ◌↔◌, ◌∷◌, ◌++◌, [], IfOk, IsTrue, MatchResult};
ghost use Rattle.der_core.specs.Encoding.{encoding, IsDer};
ghost use Rattle.der_core.specs.BorrowedOption.{kept_option};
ghost use Rattle.der_core.specs.Borrowed.{AreDer};
ghost use Rattle.der_core.specs.Refusals.{RefusesInner};
ghost use Rattle.key_types.specs.AlgorithmIdentifier.{parameters_of};
ghost use Rattle.key_core.specs.CurveParameters.{HasCurve};
ghost use Rattle.key_core.specs.Facts.CurveParameters.{HasCurve-prop};
ghost use Rattle.key_core.specs.KeyRefusals.{IsUnwrittenKey};
ghost use Rattle.key_core.specs.PrivateKeyInfo.{private_key_info, inner_private_key};
ghost use Rattle.key_core.specs.PrivateKeyValue.{private_kind};
ghost use Rattle.key_core.specs.declared.element.Element.TheVariants as elements;

mod components;
mod curve_key;
mod derived;
mod pkcs1;
pub(crate) mod pkcs8;
mod public_half;
mod sec1;

use crate::element::Element;
use crate::error::KeyError;
use crate::private_key_info::{PrivateKeyInfo, are_same_bits};
use asn1_types::BitString;
use der_core::{Structure, copy_option};
use key_types::KeyKind;
use std::alloc::{AllocError, Global};
use std::fmt;

/// A private key with its algorithm, in the container that is written for it (RFC 5208 5, RFC 5958
/// 2). The public key of a curve key is stored beside the container if it was given, read or
/// derived, since the container may leave it out; that of an RSA key is part of the key. The
/// parameters of an EC key name its curve.
pub struct PrivateKey {
    pub(crate) info: PrivateKeyInfo,
    pub(crate) public_key: Option<BitString>,
    pub ghost curve: { HasCurve info.private_key
        (kept_option (parameters_of info.private_key_algorithm)) } by { HasCurve-prop info.private_key
            (kept_option (parameters_of info.private_key_algorithm)) },
}

/// By hand, so that dropping a key is a call: else each function that drops one is proved through
/// all its parts.
impl Drop for PrivateKey {
    fn drop(self) {
        let PrivateKey {
            info: _info,
            public_key: _public_key,
        } = self;
    }
}

impl PrivateKey {
    /// The kind of the key.
    pub fn kind(&self) -> KeyKind
        ensures { result ≡ private_kind self.now.info.private_key }
    {
        self.info.private_key.kind()
    }

    /// The encoding of the key's container, a PrivateKeyInfo (RFC 5208 5, RFC 5958 2). A key
    /// without an encoding is refused as `Asn1Serialization`.
    pub fn to_pkcs8(&self, alloc: Global) -> Result<Vec<u8>, KeyError>
        ensures { MatchResult result
            (λ octets. (octets.items ≡ encoding (private_key_info self.now.info))
            × IsDer (private_key_info self.now.info) × AreDer (inner_private_key self.now.info))
            (IsUnwrittenKey elements.PrivateKeyInfo (RefusesInner
            (inner_private_key self.now.info ++ private_key_info self.now.info ∷ []))) }
    {
        match self.info.to_der(alloc) {
            Ok(octets) => Ok(octets),
            Err(source) => Err(KeyError::unwritten(Element::PrivateKeyInfo, source)),
        }
    }

    /// A copy of the key.
    pub fn try_clone(&self, alloc: Global) -> Result<PrivateKey, AllocError>
        ensures { IfOk result (λ copy. copy ≡ self.now) }
    {
        Ok(PrivateKey {
            info: self.info.try_clone(alloc)?,
            public_key: copy_option(alloc, &self.public_key)?,
        })
    }
}

/// Shows only the kind of the key, no secret.
impl fmt::Debug for PrivateKey {
    fn fmt<W: fmt::Write>(&self, f: &mut fmt::Formatter<W>) -> fmt::Result {
        write!(f, "PrivateKey({:?})", self.kind())
    }
}

/// Keys are equal exactly where their containers and the public keys beside them are. Not
/// constant-time.
impl PartialEq for PrivateKey {
    ghost use Rattle.der_core.specs.Equality.{same_octets};
    ghost use Rattle.der_core.specs.Facts.Equality.{same_octets_per};
    ghost use Rattle.key_core.specs.PrivateKey.{kept_key};

    ghost eq = { same_octets kept_key };

    ghost laws = { same_octets_per kept_key };

    fn eq(&self, other: &PrivateKey) -> bool
        ensures octets { result ≡ same_octets kept_key self.now other.now }
        ensures same { IsTrue result ↔ (self.now ≡ other.now) }
    {
        self.info == other.info && are_same_bits(&self.public_key, &other.public_key)
    }
}

impl Eq for PrivateKey {
    ghost use Rattle.der_core.specs.Facts.Equality.{same_octets_equiv};
    ghost use Rattle.key_core.specs.PrivateKey.{kept_key};

    ghost laws = { same_octets_equiv kept_key };
}
