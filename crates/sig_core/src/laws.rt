//! Laws on verdict tables, on keys of the demonstration scheme and on the lists of algorithms.

ghost use Rattle.std.specs.Prelude.{◌≡◌, ℕ, List, length, Contains, Some, None};
ghost use Rattle.der_core.specs.Encoding.{encoding};
ghost use Rattle.sig_core.specs.DemoScheme.{demo_key};
ghost use Rattle.sig_core.specs.RsaSecret.{IsRsaSecret, rsa_public_element};
ghost use Rattle.sig_core.specs.declared.algorithm.SchemeKind.TheVariants.{Rsa};
ghost use Rattle.sig_core.specs.VerdictTable.{IsTable, IsFirstBadLine, version_2_text};
ghost use Rattle.sig_core.specs.declared.algorithm.SigAlg.{SigAlg};
ghost use Rattle.sig_core.specs.declared.algorithm.TheConstants.SigAlg as signatures;
ghost use Rattle.sig_core.specs.declared.hash.HashAlgorithm.{HashAlgorithm};
ghost use Rattle.sig_core.specs.declared.hash.TheConstants.HashAlgorithm as digests;
ghost use Rattle.sig_core.specs.declared.sha_variant.ShaVariant.{ShaVariant};
ghost use Rattle.sig_core.specs.declared.sha_variant.TheConstants.ShaVariant as variants;
ghost use Rattle.sig_core.specs.declared.verdict_row.VerdictRow.{VerdictRow};
ghost use Rattle.sig_core.specs.ShaVariant.{digest_identifier};

/// A text is the table of at most one list of rows. It has at most one first bad line, and none if
/// it is a table. The rows of a table of either version can be written in version 2, so a table of
/// version 1 can be converted.
pub fn one_table()
    ensures one_list { (text : List ℕ) (a b : List VerdictRow)
        → IsTable text a → IsTable text b → a ≡ b }
    ensures one_bad_line { (text : List ℕ) (m n : ℕ)
        → IsFirstBadLine text m → IsFirstBadLine text n → m ≡ n }
    ensures not_both { (text : List ℕ) (rows : List VerdictRow) (number : ℕ)
        → IsTable text rows → IsFirstBadLine text number → ⊥ }
    ensures carried { (text : List ℕ) (rows : List VerdictRow)
        → IsTable text rows → IsTable (version_2_text rows) rows }
{}

/// The key that the demonstration scheme derives from an RSA secret is the public key in it; there
/// is none exactly if the secret isn't an RSA private key.
pub fn demo_keys_of_rsa()
    ensures derived { (secret : List ℕ) (rsa : IsRsaSecret secret)
        → demo_key Rsa secret
        ≡ Some (encoding (rsa_public_element rsa.numbers.modulus rsa.numbers.public_exponent)) }
    ensures none { (secret : List ℕ) → (IsRsaSecret secret → ⊥) → demo_key Rsa secret ≡ None }
{}

/// No two digest algorithms have the same OID. So the OID written for a variant is read as that
/// variant again.
pub fn one_identifier_each()
    ensures { (a b : ShaVariant) → digest_identifier a ≡ digest_identifier b → a ≡ b }
{}

/// `SigAlg::ALL`, `HashAlgorithm::ALL` and `ShaVariant::ALL` have each algorithm, once.
pub fn lists_have_each_algorithm()
    ensures each_signature { (alg : SigAlg) → Contains signatures.ALL alg }
    ensures signatures_once { length signatures.ALL ≡ 10 }
    ensures each_digest { (hash : HashAlgorithm) → Contains digests.ALL hash }
    ensures digests_once { length digests.ALL ≡ 6 }
    ensures each_variant { (variant : ShaVariant) → Contains variants.ALL variant }
    ensures variants_once { length variants.ALL ≡ 6 }
{}
