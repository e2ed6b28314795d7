//! Laws: signature algorithms survive writing and reading, refusals are unambiguous, and so are key
//! identifiers.

ghost use Rattle.std.specs.Prelude.{◌≡◌, ◌≢◌, ℕ, List, length, Contains, true, None};
ghost use Rattle.asn1_types.specs.Values.{identifier_contents};
ghost use Rattle.der_core.specs.Rules.{IsFirstBroken};
ghost use Rattle.key_types.specs.AlgorithmIdentifier.{oid_of};
ghost use Rattle.key_types.specs.declared.algorithm.AlgorithmIdentifier.{AlgorithmIdentifier};
ghost use Rattle.key_types.specs.declared.key_info.SubjectPublicKeyInfo.{SubjectPublicKeyInfo};
ghost use Rattle.key_core.specs.KeyIdentifier.{IsKeyIdentifier};
ghost use Rattle.key_core.specs.SignatureAlgorithm.{signature_identifier, NamesSignature, IsWrittenAlgorithm};
ghost use Rattle.key_core.specs.Signing.{Signs, IsAsked, sign_rules};
ghost use Rattle.key_core.specs.Verifying.{Judge, Accepts, verify_rules};
ghost use Rattle.key_core.specs.declared.key_id.KeyIdGenMethod.{KeyIdGenMethod};
ghost use Rattle.key_core.specs.declared.private_key.PrivateKey.{PrivateKey};
ghost use Rattle.key_core.specs.declared.public_key.PublicKey.{PublicKey};
ghost use Rattle.key_core.specs.declared.signature_algorithm.SignatureAlgorithm.{SignatureAlgorithm};
ghost use Rattle.key_core.specs.declared.signature_algorithm.TheConstants.SignatureAlgorithm as constants;
ghost use Rattle.key_core.specs.declared.signature_error.SignatureError.{SignatureError};

/// An algorithm that was written is read as itself, and one that was read is written with the OID
/// that was read; it has one, so it isn't refused. `SignatureAlgorithm::IDENTIFIED` lists each
/// algorithm with an OID, and no other.
pub fn signature_algorithms_are_read_as_written()
    ensures written { (algorithm read : SignatureAlgorithm) (id : AlgorithmIdentifier)
        → IsWrittenAlgorithm algorithm id → NamesSignature id read → read ≡ algorithm }
    ensures read { (algorithm : SignatureAlgorithm) (id written : AlgorithmIdentifier)
        → NamesSignature id algorithm → IsWrittenAlgorithm algorithm written
        → identifier_contents (oid_of written) ≡ identifier_contents (oid_of id) }
    ensures refused { (algorithm : SignatureAlgorithm) (id : AlgorithmIdentifier)
        → NamesSignature id algorithm → signature_identifier algorithm ≢ None }
    ensures each { (algorithm : SignatureAlgorithm) → signature_identifier algorithm ≢ None
        → Contains constants.IDENTIFIED algorithm }
    ensures once { length constants.IDENTIFIED ≡ 10 }
{}

/// At most one error reports the first broken rule of a verification, and none does if the
/// signature is accepted. So `SignatureAlgorithm::verify` has one outcome, out of memory aside.
pub fn signatures_have_one_answer()
    ensures one_refusal { (judge : Judge) (algorithm : SignatureAlgorithm)
        (info : SubjectPublicKeyInfo) (msg sig : List ℕ) (a b : SignatureError)
        → IsFirstBroken (verify_rules judge algorithm info msg sig) a
        → IsFirstBroken (verify_rules judge algorithm info msg sig) b → a ≡ b }
    ensures not_both { (judge : Judge) (algorithm : SignatureAlgorithm)
        (info : SubjectPublicKeyInfo) (msg sig : List ℕ) (e : SignatureError)
        → Accepts judge algorithm info msg sig
        → IsFirstBroken (verify_rules judge algorithm info msg sig) e → ⊥ }
{}

/// At most one error reports the first broken rule of signing, and none does if the key fits the
/// algorithm and the scheme signs. So `SignatureAlgorithm::sign` has one outcome, out of memory
/// aside.
pub fn signing_has_one_answer()
    ensures one_refusal { (signs : Signs) (algorithm : SignatureAlgorithm) (key : PrivateKey)
        (msg : List ℕ) (a b : SignatureError)
        → IsFirstBroken (sign_rules signs algorithm key msg) a
        → IsFirstBroken (sign_rules signs algorithm key msg) b → a ≡ b }
    ensures not_both { (signs : Signs) (algorithm : SignatureAlgorithm) (key : PrivateKey)
        (msg : List ℕ) (e : SignatureError)
        → IsAsked signs algorithm key msg true
        → IsFirstBroken (sign_rules signs algorithm key msg) e → ⊥ }
{}

/// A key has at most one key identifier by a method, so equal keys have equal key identifiers.
pub fn key_identifiers_are_of_keys()
    ensures { (method : KeyIdGenMethod) (key other : PublicKey) (a b : List ℕ) → key ≡ other
        → IsKeyIdentifier method key.info a → IsKeyIdentifier method other.info b → a ≡ b }
{}
