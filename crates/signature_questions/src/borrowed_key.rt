//! Borrowed keys, as schemes take them.

ghost use Rattle.std.specs.Prelude.{◌≡◌, ℕ, List, Some, MatchOption};
ghost use Rattle.asn1_types.specs.Elements.{object_identifier_of};
ghost use Rattle.der_core.specs.BorrowedOption.{at_option};
ghost use Rattle.key_types.specs.PublicKeyInfo.{IsPublicKeyInfo, public_key_info};
ghost use Rattle.key_types.specs.declared.key_info.SubjectPublicKeyInfo.{SubjectPublicKeyInfo};
ghost use Rattle.signature_questions.specs.BorrowedKey.{FitsBorrowed, LendsKey};
ghost use Rattle.key_core.specs.EcCurve.{curve_identifier};
ghost use Rattle.key_core.specs.SchemeNames.{curve_for};
ghost use Rattle.key_core.specs.Verifying.{FitsKey};
ghost use Rattle.key_core.specs.declared.ec_curve.EcCurve.{EcCurve};
ghost use Rattle.key_core.specs.declared.signature_algorithm.SignatureAlgorithm.TheVariants as algorithms;
ghost use Rattle.sig_core.specs.declared.algorithm.SigAlg.{SigAlg};

use asn1_types::oids::ED25519;
use der_core::tag::{BIT_STRING, OBJECT_IDENTIFIER, SEQUENCE};
use der_core::{Elem, Kids, Structure, is_same, leaf_at, two_kids};
use key_core::{EcCurve, SignatureAlgorithm, curve_for, ecdsa_alg, rsa_alg};
use key_types::{KeyKind, SubjectPublicKeyInfo};
use sig_core::{HashAlgorithm, SigAlg};

/// The size of an Ed25519 public key in octets (RFC 8032 5.1.5).
const ED25519_LEN: usize = 32;

/// The parts of a SubjectPublicKeyInfo, borrowed: the contents octets of the OID and the parameters
/// of its algorithm, and the octets that hold the bits of the key.
#[derive(Clone, Copy)]
pub(crate) struct BorrowedKey<'a> {
    pub(crate) oid: &'a [u8],
    pub(crate) parameters: Option<Elem<'a>>,
    pub(crate) bits: &'a [u8],
}

/// How a scheme knows the algorithm, with the key bytes that it takes, if the borrowed
/// SubjectPublicKeyInfo fits the algorithm. It doesn't allocate.
pub(crate) fn asked_of<'a>(
    algorithm: SignatureAlgorithm,
    info: Elem<'a>,
) -> Option<(SigAlg, &'a [u8])>
    ensures { MatchOption result
        ((key : SubjectPublicKeyInfo) (alg : SigAlg) (bytes : List ℕ)
        → info.entry.is.0 ≡ public_key_info key → FitsKey algorithm key alg bytes → ⊥)
        (λ asked. (key : SubjectPublicKeyInfo) × (info.entry.is.0 ≡ public_key_info key)
        × FitsKey algorithm key asked.0 asked.1.now) }
{
    if !SubjectPublicKeyInfo::has_shape(info) {
        return None;
    }
    let key = BorrowedKey::of(info)?;
    let alg = key.known_as(algorithm)?;
    Some((alg, key.bits))
}

impl<'a> BorrowedKey<'a> {
    /// The parts of the element.
    fn of(info: Elem<'a>) -> Option<BorrowedKey<'a>>
        ensures { (key : SubjectPublicKeyInfo) → IsPublicKeyInfo info.entry.is.0 key
            → MatchOption result ⊥ (λ parts. LendsKey parts key) }
    {
        let (algorithm, key) = two_kids(info, SEQUENCE)?;
        let mut fields = Kids::of(algorithm, SEQUENCE)?;
        let oid = leaf_at(fields.next()?, OBJECT_IDENTIFIER)?;
        let parameters = fields.next();
        let (_unused, bits) = leaf_at(key, BIT_STRING)?.split_first()?;
        Some(BorrowedKey {
            oid,
            parameters,
            bits,
        })
    }

    /// How a scheme knows the algorithm, if the key fits it.
    fn known_as(&self, algorithm: SignatureAlgorithm) -> Option<SigAlg>
        ensures { FitsBorrowed algorithm self.now result }
    {
        match algorithm {
            SignatureAlgorithm::RsaPkcs1v15(hash) => self.rsa(hash),
            SignatureAlgorithm::Ecdsa(hash) => self.ecdsa(hash),
            SignatureAlgorithm::Ed25519 => self.ed25519(),
        }
    }

    /// RSA with the digest, if the key is an RSA key.
    fn rsa(&self, hash: HashAlgorithm) -> Option<SigAlg>
        ensures { FitsBorrowed (algorithms.RsaPkcs1v15 hash) self.now result }
    {
        if !KeyKind::Rsa.is_named(self.oid) {
            return None;
        }
        Some(rsa_alg(hash))
    }

    /// ECDSA with the digest, if the key is on the curve whose keys sign it.
    fn ecdsa(&self, hash: HashAlgorithm) -> Option<SigAlg>
        ensures { FitsBorrowed (algorithms.Ecdsa hash) self.now result }
    {
        if !KeyKind::Ec.is_named(self.oid) {
            return None;
        }
        let curve = signing_curve(self.parameters, hash)?;
        Some(ecdsa_alg(curve))
    }

    /// Ed25519, if the key is an Ed25519 key.
    fn ed25519(&self) -> Option<SigAlg>
        ensures { FitsBorrowed algorithms.Ed25519 self.now result }
    {
        if !is_same(self.oid, ED25519) {
            return None;
        }
        if self.bits.len() != ED25519_LEN {
            return None;
        }
        Some(SigAlg::Ed25519)
    }
}

/// The curve whose OID the parameters are, if its keys sign the digest.
fn signing_curve(parameters: Option<Elem<'_>>, hash: HashAlgorithm) -> Option<EcCurve>
    ensures { MatchOption result
        ((curve : EcCurve)
        → at_option parameters.entry ≡ Some (object_identifier_of (curve_identifier curve))
        → curve_for hash ≡ Some curve → ⊥)
        (λ curve. (at_option parameters.entry
        ≡ Some (object_identifier_of (curve_identifier curve))) × (curve_for hash ≡ Some curve)) }
{
    let curve = curve_at(parameters)?;
    if curve_for(hash) != Some(curve) {
        return None;
    }
    Some(curve)
}

/// The curve whose OID the parameters are.
fn curve_at(parameters: Option<Elem<'_>>) -> Option<EcCurve>
    ensures { MatchOption result
        ((curve : EcCurve)
        → at_option parameters.entry ≡ Some (object_identifier_of (curve_identifier curve)) → ⊥)
        (λ curve. at_option parameters.entry
        ≡ Some (object_identifier_of (curve_identifier curve))) }
{
    let oid = leaf_at(parameters?, OBJECT_IDENTIFIER)?;
    Some(EcCurve::named(oid)?)
}
