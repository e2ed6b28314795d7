//! Laws on signed data, and on the certificates that it contains.

ghost use Rattle.std.specs.Prelude.{◌≡◌, ◌↔◌, ℕ, List};
ghost use Rattle.cms_types.specs.SignedDataElements.{SignedDataElements};
ghost use Rattle.der_core.specs.DerElement.{DerElement};
ghost use Rattle.x509_types.specs.CertificateElements.{CertificateElements};
ghost use Rattle.authenticode_core.specs.Basic.{HasSignedData, VouchesFor};
ghost use Rattle.authenticode_core.specs.CertificateBag.{IsBag};
ghost use Rattle.key_core.specs.Verifying.{Judge};
ghost use Rattle.authenticode_core.specs.IssuerWalk.{IsIssuerWalk, IsIssuerPath};
ghost use Rattle.authenticode_core.specs.PlainFields.{HasPlainFields, IsPlainlyAccepted, plain_elements};
ghost use Rattle.authenticode_core.specs.PlainForm.{IsPlainForm, PlainParts};
ghost use Rattle.authenticode_core.specs.Trusted.{IsTrusted};
ghost use Rattle.authenticode_core.specs.declared.accepted.Accepted.{Accepted};
ghost use Rattle.authenticode_core.specs.declared.policy.Policy.{Policy};

/// Octets have at most one signed data in their first entry, so the one that is read is determined.
pub fn one_signed_data()
    ensures { (octets : List ℕ) (f g : SignedDataElements)
        → HasSignedData octets f → HasSignedData octets g → f ≡ g }
{}

/// What is reported of signed data that is trusted under a policy is unique.
pub fn one_acceptance()
    ensures { (judge : Judge) (policy : Policy) (f : SignedDataElements) (a b : Accepted)
        → IsTrusted judge policy f a → IsTrusted judge policy f b → a ≡ b }
{}

/// Members have at most one bag.
pub fn one_bag()
    ensures { (members : List DerElement) (a b : List CertificateElements) → IsBag members a
        → IsBag members b → a ≡ b }
{}

/// A certificate has at most one issuer walk in a bag, and at most one issuer path.
pub fn one_issuer_walk()
    ensures walk { (bag : List CertificateElements) (signer : CertificateElements) (a b : List ℕ)
        → IsIssuerWalk bag signer a → IsIssuerWalk bag signer b → a ≡ b }
    ensures path { (bag : List CertificateElements) (signer : CertificateElements) (a b : List ℕ)
        → IsIssuerPath bag signer a → IsIssuerPath bag signer b → a ≡ b }
{}

/// Octets of the plain form have the signed data with its fields; that signed data has the form,
/// and its attributes have the digest of its content. It is vouched for exactly if the digest of
/// the file is the expected one and the scheme accepts the signature, with the only certificate as
/// the signer's.
pub fn plain_form_is_judged()
    ensures shape { (octets : List ℕ) (p : PlainParts) → IsPlainForm octets p
        → HasSignedData octets (plain_elements p) }
    ensures form { (octets : List ℕ) (p : PlainParts) → IsPlainForm octets p → HasPlainFields p }
    ensures vouched { (judge : Judge) (octets : List ℕ) (p : PlainParts) (file_hash : List ℕ)
        (place : ℕ)
        → IsPlainForm octets p
        → VouchesFor judge (plain_elements p) file_hash place
        ↔ ((place ≡ 0) × IsPlainlyAccepted judge p file_hash) }
{}
