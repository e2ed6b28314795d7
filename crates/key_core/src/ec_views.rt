//! Views of EC keys. They borrow from a key and don't allocate.

ghost use Rattle.std.specs.Prelude.{◌≡◌, Some};
ghost use Rattle.asn1_types.specs.Elements.{object_identifier_of};
ghost use Rattle.der_core.specs.BorrowedOption.{kept_option};
ghost use Rattle.asn1_types.specs.ObjectIdentifier.{IsIdentifier};
ghost use Rattle.asn1_types.specs.Values.{lent_contents};
ghost use Rattle.key_types.specs.AlgorithmIdentifier.{parameters_of};
ghost use Rattle.key_types.specs.KeyKind.{MayHave};
ghost use Rattle.key_types.specs.declared.key_kind.KeyKind.TheVariants as kinds;
ghost use Rattle.key_core.specs.EcViews.{GivesEcKeypair, GivesEcPublic, GivesEcPublicOfKeypair};
ghost use Rattle.key_core.specs.NamedEcCurve.{IsNamedCurve};

use crate::error::{KeyContext, KeyError};
use crate::named_ec_curve::NamedEcCurve;
use crate::private_key::PrivateKey;
use crate::private_key::pkcs8::curve_octets;
use crate::private_key_value::PrivateKeyValue;
use crate::public_key::PublicKey;
use asn1_types::{BitString, LentIdentifier};
use key_types::{AlgorithmIdentifier, SubjectKey};

/// A borrowed EC private key.
#[derive(Clone, Copy)]
pub struct EcdsaKeypair<'a> {
    curve: LentIdentifier<'a>,
    secret: &'a [u8],
    point: Option<&'a BitString>,
}

impl<'a> EcdsaKeypair<'a> {
    /// The curve of the key.
    pub fn curve(&self) -> NamedEcCurve<'a>
        ensures { IsNamedCurve (lent_contents self.now.curve) result }
    {
        NamedEcCurve::of(self.curve)
    }

    /// The octets of the secret.
    pub fn secret(&self) -> &'a [u8]
        ensures { result.now ≡ self.now.secret.now }
    {
        self.secret
    }
}

/// A borrowed EC public key.
#[derive(Clone, Copy)]
pub struct EcdsaPublicKey<'a> {
    curve: LentIdentifier<'a>,
    point: &'a [u8],
}

impl<'a> EcdsaPublicKey<'a> {
    /// The curve of the key.
    pub fn curve(&self) -> NamedEcCurve<'a>
        ensures { IsNamedCurve (lent_contents self.now.curve) result }
    {
        NamedEcCurve::of(self.curve)
    }

    /// The octets of the point (SEC 1 2.3.3).
    pub fn encoded_point(&self) -> &'a [u8]
        ensures { result.now ≡ self.now.point.now }
    {
        self.point
    }
}

/// The OID that the parameters of an EC key are.
fn curve_of<'a>(algorithm: &'a AlgorithmIdentifier) -> LentIdentifier<'a>
    requires { MayHave kinds.Ec (kept_option (parameters_of algorithm.now)) }
    ensures { kept_option (parameters_of algorithm.now)
        ≡ Some (object_identifier_of (lent_contents result)) }
{
    match curve_octets(algorithm) {
        Some(octets) => identifier_of(octets),
        None => unreachable!(),
    }
}

/// The OID with these contents octets.
fn identifier_of<'a>(octets: &'a [u8]) -> LentIdentifier<'a>
    requires { IsIdentifier octets.now }
    ensures { lent_contents result ≡ octets.now }
{
    match LentIdentifier::of(octets) {
        Some(identifier) => identifier,
        None => unreachable!(),
    }
}

/// The parts of a private key. A key of another kind is refused.
impl<'a> TryFrom<&'a PrivateKey> for EcdsaKeypair<'a> {
    type Error = KeyError;

    ghost try_from_gives = { λ key result. GivesEcKeypair key.now result };

    fn try_from(key: &'a PrivateKey) -> Result<EcdsaKeypair<'a>, KeyError> {
        match &key.info.private_key {
            PrivateKeyValue::Ec(read) => Ok(EcdsaKeypair {
                curve: curve_of(&key.info.private_key_algorithm),
                secret: read.private_key.as_slice(),
                point: key.public_key.as_ref(),
            }),
            PrivateKeyValue::Rsa(_) | PrivateKeyValue::Ed(_) => Err(KeyError::EC {
                context: KeyContext::NotEc,
            }),
        }
    }
}

/// The parts of a public key. A key of another kind is refused.
impl<'a> TryFrom<&'a PublicKey> for EcdsaPublicKey<'a> {
    type Error = KeyError;

    ghost try_from_gives = { λ key result. GivesEcPublic key.now.info result };

    fn try_from(key: &'a PublicKey) -> Result<EcdsaPublicKey<'a>, KeyError> {
        let info = key.as_spki();
        match &info.subject_public_key {
            SubjectKey::Ec(bits) => Ok(EcdsaPublicKey {
                curve: curve_of(&info.algorithm),
                point: bits.payload_view(),
            }),
            SubjectKey::Rsa(_) | SubjectKey::Ed(_) | SubjectKey::Mldsa(_) => Err(KeyError::EC {
                context: KeyContext::NotEc,
            }),
        }
    }
}

/// The public key of a key pair. A pair without one is refused.
impl<'a> TryFrom<&EcdsaKeypair<'a>> for EcdsaPublicKey<'a> {
    type Error = KeyError;

    ghost try_from_gives = { λ keypair result. GivesEcPublicOfKeypair keypair.now result };

    fn try_from(keypair: &EcdsaKeypair<'a>) -> Result<EcdsaPublicKey<'a>, KeyError> {
        match keypair.point {
            Some(bits) => Ok(EcdsaPublicKey {
                curve: keypair.curve,
                point: bits.payload_view(),
            }),
            None => Err(KeyError::EC {
                context: KeyContext::PublicKeyMissing,
            }),
        }
    }
}
