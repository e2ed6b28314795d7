//! Laws: keys survive writing and reading, and the lists of curves and algorithms are complete.

ghost use Rattle.std.specs.Prelude.{◌≡◌, ℕ, List, Some, length, Contains};
ghost use Rattle.key_core.specs.EcCurve.{curve_identifier};
ghost use Rattle.key_core.specs.EdAlgorithm.{ed_identifier};
ghost use Rattle.asn1_types.specs.declared.oid.ObjectIdentifier.{ObjectIdentifier};
ghost use Rattle.der_core.specs.Encoding.{encoding, IsDer};
ghost use Rattle.der_core.specs.Borrowed.{AreDer};
ghost use Rattle.der_core.specs.Refusals.{RefusesOctets};
ghost use Rattle.der_core.specs.Structure.{IsWithin};
ghost use Rattle.key_core.specs.CurveKeys.{IsSec1Key, IsSec1KeyOn, IsSec1KeyOnKnown};
ghost use Rattle.key_core.specs.DerivedKeys.{Derivation};
ghost use Rattle.key_core.specs.KeyIdentifier.{IsWholeOf};
ghost use Rattle.key_core.specs.KeyRefusals.{IsUnreadKey};
ghost use Rattle.key_core.specs.Pkcs1.{IsPkcs1Key, IsPkcs1Of};
ghost use Rattle.key_core.specs.Pkcs8.{KeepsItself, IsPkcs8Key, RefusesPkcs8};
ghost use Rattle.key_core.specs.PrivateKeyInfo.{private_key_info, inner_private_key};
ghost use Rattle.key_core.specs.PrivatePkcs1.{IsPrivatePkcs1, IsPkcs1OfPrivate};
ghost use Rattle.key_core.specs.PublicHalf.{IsPublicHalf};
ghost use Rattle.key_core.specs.declared.element.Element.TheVariants as elements;
ghost use Rattle.key_core.specs.declared.error.KeyError.{KeyError};
ghost use Rattle.key_core.specs.declared.error.KeyError.TheVariants as errors;
ghost use Rattle.key_core.specs.declared.private_key.PrivateKey.{PrivateKey};
ghost use Rattle.key_types.specs.PublicKeyInfo.{IsPublicKeyInfo};
ghost use Rattle.key_types.specs.declared.key_info.SubjectPublicKeyInfo.{SubjectPublicKeyInfo};
ghost use Rattle.key_types.specs.RsaPrivateKey.{rsa_private_key};
ghost use Rattle.key_types.specs.declared.rsa_private_key.RsaPrivateKey.{RsaPrivateKey};
ghost use Rattle.sig_core.specs.DemoScheme.{demo_key};
ghost use Rattle.sig_core.specs.RsaSecret.{IsRsaSecret};
ghost use Rattle.sig_core.specs.declared.algorithm.SchemeKind.TheVariants.{Rsa};
ghost use Rattle.key_core.specs.declared.ec_curve.EcCurve.{EcCurve};
ghost use Rattle.key_core.specs.declared.ec_curve.TheConstants.EcCurve as curves;
ghost use Rattle.key_core.specs.declared.ed_algorithm.EdAlgorithm.{EdAlgorithm};
ghost use Rattle.key_core.specs.declared.ed_algorithm.TheConstants.EdAlgorithm as algorithms;

/// `to_pkcs1` writes, of a public or private key that `from_pkcs1` read, the octets that were read.
pub fn pkcs1_comes_back()
    ensures public { (read written : List ℕ) (info : SubjectPublicKeyInfo)
        → IsPkcs1Key read info → IsPkcs1Of info.subject_public_key written → written ≡ read }
    ensures private { (read written : List ℕ) (key : PrivateKey)
        → IsPrivatePkcs1 read key → IsPkcs1OfPrivate key.info.private_key written → written ≡ read }
{}

/// `from_der` reads what `PublicKey::to_der` writes as the same key, and refuses it only when out
/// of memory.
pub fn public_keys_come_back()
    ensures again { (octets : List ℕ) (info again : SubjectPublicKeyInfo) → IsWholeOf info octets
        → IsWithin IsPublicKeyInfo octets again → again ≡ info }
    ensures memory { (octets : List ℕ) (info : SubjectPublicKeyInfo) (e : KeyError)
        → IsWholeOf info octets
        → IsUnreadKey elements.SubjectPublicKeyInfo (RefusesOctets IsPublicKeyInfo octets) e
        → e ≡ errors.Memory }
{}

/// `from_pkcs8` reads what `PrivateKey::to_pkcs8` writes of a key that was read as the same key,
/// and refuses it only when out of memory, under a scheme that derives the same keys from secrets.
pub fn pkcs8_comes_back()
    ensures again { (derives : Derivation) (octets : List ℕ) (key again : PrivateKey)
        → KeepsItself derives key → octets ≡ encoding (private_key_info key.info)
        → IsPkcs8Key derives octets again → again ≡ key }
    ensures memory { (derives : Derivation) (octets : List ℕ) (key : PrivateKey) (e : KeyError)
        → KeepsItself derives key → octets ≡ encoding (private_key_info key.info)
        → IsDer (private_key_info key.info) → AreDer (inner_private_key key.info)
        → RefusesPkcs8 derives octets e → e ≡ errors.Memory }
    ensures of_pkcs8 { (derives : Derivation) (octets : List ℕ) (key : PrivateKey)
        → IsPkcs8Key derives octets key → KeepsItself derives key }
    ensures of_pkcs1 { (derives : Derivation) (octets : List ℕ) (key : PrivateKey)
        → IsPrivatePkcs1 octets key → KeepsItself derives key }
    ensures of_sec1 { (derives : Derivation) (octets : List ℕ) (key : PrivateKey)
        → IsSec1Key derives octets key → KeepsItself derives key }
    ensures of_sec1_on { (derives : Derivation) (curve : ObjectIdentifier) (octets : List ℕ)
        (key : PrivateKey)
        → IsSec1KeyOn derives curve octets key → KeepsItself derives key }
    ensures of_sec1_on_known { (derives : Derivation) (curve : EcCurve) (octets : List ℕ)
        (key : PrivateKey)
        → IsSec1KeyOnKnown derives curve octets key → KeepsItself derives key }
{}

/// No two curves share an OID, and no two Curve25519 algorithms. So the OID that is written for one
/// is read as that one again.
pub fn one_identifier_each()
    ensures each_curve { (a b : EcCurve) → curve_identifier a ≡ curve_identifier b → a ≡ b }
    ensures each_algorithm { (a b : EdAlgorithm) → ed_identifier a ≡ ed_identifier b → a ≡ b }
{}

/// `EcCurve::ALL` and `EdAlgorithm::ALL` list each curve and each algorithm once.
pub fn lists_have_each_curve()
    ensures each_curve { (curve : EcCurve) → Contains curves.ALL curve }
    ensures curves_once { length curves.ALL ≡ 3 }
    ensures each_algorithm { (algorithm : EdAlgorithm) → Contains algorithms.ALL algorithm }
    ensures algorithms_once { length algorithms.ALL ≡ 2 }
{}

/// `PrivateKey::to_pkcs1` writes of an RSA key what the demonstration scheme accepts as an RSA
/// secret, and each such secret is that of a key. The public key that the scheme derives from it is
/// that of `to_public_key`.
pub fn keys_of_rsa_are_secrets()
    ensures secret { (key : RsaPrivateKey) (octets : List ℕ)
        → octets ≡ encoding (rsa_private_key key) → IsDer (rsa_private_key key)
        → IsRsaSecret octets }
    ensures key { (octets : List ℕ) → IsRsaSecret octets
        → (key : RsaPrivateKey) × (octets ≡ encoding (rsa_private_key key))
        × IsDer (rsa_private_key key) }
    ensures derived { (key : PrivateKey) (info : SubjectPublicKeyInfo) (secret bytes : List ℕ)
        → IsPkcs1OfPrivate key.info.private_key secret
        → IsPublicHalf key.info.private_key key.info.private_key_algorithm key.public_key info
        → IsPkcs1Of info.subject_public_key bytes → demo_key Rsa secret ≡ Some bytes }
{}
