//! Signature algorithms as schemes name them.

ghost use Rattle.std.specs.Prelude.{◌≡◌};
ghost use Rattle.key_core.specs.SchemeNames.{rsa_alg, curve_for, ecdsa_alg};

use crate::ec_curve::EcCurve;
use sig_core::{HashAlgorithm, SigAlg};

/// RSA with a digest algorithm (RFC 8017 8.2).
pub fn rsa_alg(hash: HashAlgorithm) -> SigAlg
    ensures { result ≡ rsa_alg hash }
{
    match hash {
        HashAlgorithm::MD5 => SigAlg::RsaMd5,
        HashAlgorithm::SHA1 => SigAlg::RsaSha1,
        HashAlgorithm::SHA2_224 => SigAlg::RsaSha224,
        HashAlgorithm::SHA2_256 => SigAlg::RsaSha256,
        HashAlgorithm::SHA2_384 => SigAlg::RsaSha384,
        HashAlgorithm::SHA2_512 => SigAlg::RsaSha512,
    }
}

/// The curve whose keys sign a digest (RFC 5480 4).
pub fn curve_for(hash: HashAlgorithm) -> Option<EcCurve>
    ensures { result ≡ curve_for hash }
{
    match hash {
        HashAlgorithm::MD5 | HashAlgorithm::SHA1 | HashAlgorithm::SHA2_224 => None,
        HashAlgorithm::SHA2_256 => Some(EcCurve::NistP256),
        HashAlgorithm::SHA2_384 => Some(EcCurve::NistP384),
        HashAlgorithm::SHA2_512 => Some(EcCurve::NistP521),
    }
}

/// ECDSA with keys on a curve, with the digest that they sign.
pub fn ecdsa_alg(curve: EcCurve) -> SigAlg
    ensures { result ≡ ecdsa_alg curve }
{
    match curve {
        EcCurve::NistP256 => SigAlg::P256Sha256,
        EcCurve::NistP384 => SigAlg::P384Sha384,
        EcCurve::NistP521 => SigAlg::P521Sha512,
    }
}
