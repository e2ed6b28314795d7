//! Laws: what a check reports depends on a scheme by its verdicts on the questions alone.

ghost use Rattle.std.specs.Prelude.{◌≡◌, ◌↔◌, ◌∷◌, ◌++◌, ⊤, ℕ, List, Option, Some, Result, Contains, IfSome, MatchResult, map};
ghost use Rattle.cms_types.specs.SignedDataElements.{SignedDataElements};
ghost use Rattle.der_core.specs.Rules.{AreOneUnlessMemory, IsFirstBroken};
ghost use Rattle.key_core.specs.Verifying.{Judge};
ghost use Rattle.sig_core.specs.VerdictTable.{verdict_of};
ghost use Rattle.sig_core.specs.declared.verdict_row.VerdictRow.{VerdictRow};
ghost use Rattle.x509_core.specs.Chain.{IsAccepted, chain_rules};
ghost use Rattle.x509_core.specs.OwnedCertificate.{KeptCertificate, kept_octets};
ghost use Rattle.x509_core.specs.Link.{IsSignedBy};
ghost use Rattle.x509_core.specs.Rules.{RefusesCertBy};
ghost use Rattle.x509_core.specs.declared.error.CertError.{CertError};
ghost use Rattle.x509_core.specs.declared.validator.ChainChecks.{ChainChecks};
ghost use Rattle.x509_types.specs.CertificateElements.{CertificateElements};
ghost use Rattle.authenticode_core.specs.Basic.{HasSignedData};
ghost use Rattle.authenticode_core.specs.SigningRules.{RefusesAuthenticodeBy};
ghost use Rattle.authenticode_core.specs.Trusted.{IsAnswer, IsTrusted, policy_rules};
ghost use Rattle.authenticode_core.specs.declared.accepted.Accepted.{Accepted};
ghost use Rattle.authenticode_core.specs.declared.error.AuthenticodeError.{AuthenticodeError};
ghost use Rattle.authenticode_core.specs.declared.error.CheckError.{CheckError};
ghost use Rattle.authenticode_core.specs.declared.policy.Policy.{Policy};
ghost use Rattle.signature_questions.specs.Agreement.{Admits, Agree};
ghost use Rattle.signature_questions.specs.Asked.{IsOfChain, IsOfLink, IsQuestion};
ghost use Rattle.signature_questions.specs.Listed.{AreOfChain, AreQuestions};
ghost use Rattle.signature_questions.specs.Question.{Question};
ghost use Rattle.signature_questions.specs.Tables.{AreAcceptedRowsOf, AreApart, AreRowsOf, HasAcceptedRowsOf, HasRowsOf};

/// Whether signed data is trusted, under any policy, and what is reported, depends on a scheme by
/// its verdicts on the questions alone. Where a scheme accepts each question that another accepts,
/// what is trusted under the other is trusted under it (`trusted`). Where both have the same
/// verdict on each question, what is returned under the one is returned under the other, a refusal
/// with its cause (`answer`); so `check_wincert` returns the same, unless it is out of memory
/// (`one`, whose last premise is the clause `only` of `check_wincert`). What `check_signed_data`
/// returns under the one it may return under the other (`signed_data`, of its clause `answer`).
pub fn questions_decide()
    ensures trusted { (a b : Judge) (policy : Policy) (f : SignedDataElements)
        (accepted : Accepted) → Admits (IsQuestion f) a b → IsTrusted a policy f accepted
        → IsTrusted b policy f accepted }
    ensures answer { (a b : Judge) (policy : Policy) (octets : List ℕ)
        (result : Result Accepted CheckError)
        → ((f : SignedDataElements) → HasSignedData octets f → Agree (IsQuestion f) a b)
        → IsAnswer a policy octets result → IsAnswer b policy octets result }
    ensures one { (a b : Judge) (policy : Policy) (octets : List ℕ)
        (result other : Result Accepted CheckError)
        → ((f : SignedDataElements) → HasSignedData octets f → Agree (IsQuestion f) a b)
        → IsAnswer a policy octets result
        → ((third : Result Accepted CheckError) → IsAnswer b policy octets third
        → AreOneUnlessMemory CheckError.Memory other third)
        → AreOneUnlessMemory CheckError.Memory other result }
    ensures signed_data { (a b : Judge) (policy : Policy) (f : SignedDataElements)
        (result : Result Accepted AuthenticodeError) → Agree (IsQuestion f) a b
        → MatchResult result (IsTrusted a policy f)
        (RefusesAuthenticodeBy (policy_rules a policy f))
        → MatchResult result (IsTrusted b policy f)
        (RefusesAuthenticodeBy (policy_rules b policy f)) }
{}

/// The same for a certificate with its parents as a chain: whether it is accepted (`accepted`), and
/// which rule is the first that is broken (`refused`). So what `CertValidator::verify` returns under
/// the one it may return under the other (`verified`, of its clause `answer`). A
/// certificate that another signed under a scheme is signed so under each scheme that accepts as much
/// of the questions about the two (`signed`).
pub fn questions_decide_chains()
    ensures accepted { (a b : Judge) (checks : ChainChecks) (checked : KeptCertificate)
        (parents : List KeptCertificate) → Admits (IsOfChain checked parents) a b
        → IsAccepted a checks checked (Some parents) → IsAccepted b checks checked (Some parents) }
    ensures refused { (a b : Judge) (checks : ChainChecks) (checked : KeptCertificate)
        (parents : List KeptCertificate) (e : CertError) → Agree (IsOfChain checked parents) a b
        → IsFirstBroken (chain_rules a checks checked (Some parents)) e
        → IsFirstBroken (chain_rules b checks checked (Some parents)) e }
    ensures verified { (a b : Judge) (checks : ChainChecks) (checked : KeptCertificate)
        (given : Option (List KeptCertificate)) (result : Result ⊤ CertError)
        → IfSome given (λ parents. Agree (IsOfChain checked parents) a b)
        → MatchResult result (λ _. IsAccepted a checks checked given)
        (RefusesCertBy (chain_rules a checks checked given))
        → MatchResult result (λ _. IsAccepted b checks checked given)
        (RefusesCertBy (chain_rules b checks checked given)) }
    ensures signed { (a b : Judge) (parent child : CertificateElements)
        → Admits (IsOfLink parent child) a b → IsSignedBy a parent child
        → IsSignedBy b parent child }
{}

/// A list of the questions has each question, and no other.
pub fn questions_are_listed()
    ensures signature { (f : SignedDataElements) (qs : List Question) → AreQuestions f qs
        → (q : Question) → IsQuestion f q ↔ Contains qs q }
    ensures chain { (checked : KeptCertificate) (parents : List KeptCertificate)
        (qs : List Question) → AreOfChain checked parents qs
        → (q : Question) → IsOfChain checked parents q ↔ Contains qs q }
{}

/// The octets of a signature file determine the list of the questions, and those of the certificates
/// of a chain do: there is one list for signed data (`signature`), and octets have one signed data
/// at most (`signature_octets`); the same for certificates (`chain`, `chain_octets`).
pub fn questions_are_determined()
    ensures signature { (f : SignedDataElements) (qs rs : List Question) → AreQuestions f qs
        → AreQuestions f rs → qs ≡ rs }
    ensures signature_octets { (octets : List ℕ) (f g : SignedDataElements) (qs rs : List Question)
        → HasSignedData octets f → HasSignedData octets g → AreQuestions f qs → AreQuestions g rs
        → qs ≡ rs }
    ensures chain { (checked : KeptCertificate) (parents : List KeptCertificate)
        (qs rs : List Question) → AreOfChain checked parents qs → AreOfChain checked parents rs
        → qs ≡ rs }
    ensures chain_octets { (a b : KeptCertificate) (above ahead : List KeptCertificate)
        (qs rs : List Question) → map kept_octets (a ∷ above) ≡ map kept_octets (b ∷ ahead)
        → AreOfChain a above qs → AreOfChain b ahead rs → qs ≡ rs }
{}

/// A verdict table with the rows of the questions, and no others, decides as the scheme that gave
/// them their verdicts. With a row for each question that isn't rejected it has the scheme's
/// verdict on each (`agreed`), so each check returns the same (`answer`); with a row for each that
/// is accepted the same is trusted (`trusted`). For a chain it has the scheme's verdict on each
/// (`chain`), or accepts the same (`chain_accepted`).
pub fn tables_decide()
    ensures agreed { (judge : Judge) (f : SignedDataElements) (rows : List VerdictRow)
        → AreRowsOf judge (IsQuestion f) rows → Agree (IsQuestion f) judge (verdict_of rows) }
    ensures answer { (judge : Judge) (policy : Policy) (octets : List ℕ) (rows : List VerdictRow)
        (result : Result Accepted CheckError)
        → ((f : SignedDataElements) → HasSignedData octets f
        → AreRowsOf judge (IsQuestion f) rows)
        → IsAnswer judge policy octets result ↔ IsAnswer (verdict_of rows) policy octets result }
    ensures trusted { (judge : Judge) (policy : Policy) (f : SignedDataElements)
        (rows : List VerdictRow) (accepted : Accepted)
        → AreAcceptedRowsOf judge (IsQuestion f) rows
        → IsTrusted judge policy f accepted ↔ IsTrusted (verdict_of rows) policy f accepted }
    ensures chain { (judge : Judge) (checked : KeptCertificate) (parents : List KeptCertificate)
        (rows : List VerdictRow) → AreRowsOf judge (IsOfChain checked parents) rows
        → Agree (IsOfChain checked parents) judge (verdict_of rows) }
    ensures chain_accepted { (judge : Judge) (checked : KeptCertificate)
        (parents : List KeptCertificate) (rows : List VerdictRow)
        → AreAcceptedRowsOf judge (IsOfChain checked parents) rows
        → Admits (IsOfChain checked parents) judge (verdict_of rows)
        × Admits (IsOfChain checked parents) (verdict_of rows) judge }
{}

/// A verdict table may serve many files. Where its rows that name a signature of a question have the
/// verdict of a scheme on it, and each question that isn't rejected has its row, it decides as the
/// scheme, whatever other rows it has: `agreed`, `answer`, `trusted`, `chain` and `chain_accepted`
/// are those of `tables_decide`, for such tables, and `link` is that for the questions about one
/// certificate under the key of another. Two tables behind each other, each with the rows of
/// one file, are one of both files, unless a question of each has the same digests and another
/// verdict (`joined`).
pub fn shared_tables_decide()
    ensures agreed { (judge : Judge) (f : SignedDataElements) (rows : List VerdictRow)
        → HasRowsOf judge (IsQuestion f) rows → Agree (IsQuestion f) judge (verdict_of rows) }
    ensures answer { (judge : Judge) (policy : Policy) (octets : List ℕ) (rows : List VerdictRow)
        (result : Result Accepted CheckError)
        → ((f : SignedDataElements) → HasSignedData octets f
        → HasRowsOf judge (IsQuestion f) rows)
        → IsAnswer judge policy octets result ↔ IsAnswer (verdict_of rows) policy octets result }
    ensures trusted { (judge : Judge) (policy : Policy) (f : SignedDataElements)
        (rows : List VerdictRow) (accepted : Accepted)
        → HasAcceptedRowsOf judge (IsQuestion f) rows
        → IsTrusted judge policy f accepted ↔ IsTrusted (verdict_of rows) policy f accepted }
    ensures chain { (judge : Judge) (checked : KeptCertificate) (parents : List KeptCertificate)
        (rows : List VerdictRow) → HasRowsOf judge (IsOfChain checked parents) rows
        → Agree (IsOfChain checked parents) judge (verdict_of rows) }
    ensures chain_accepted { (judge : Judge) (checked : KeptCertificate)
        (parents : List KeptCertificate) (rows : List VerdictRow)
        → HasAcceptedRowsOf judge (IsOfChain checked parents) rows
        → Admits (IsOfChain checked parents) judge (verdict_of rows)
        × Admits (IsOfChain checked parents) (verdict_of rows) judge }
    ensures link { (judge : Judge) (parent child : CertificateElements) (rows : List VerdictRow)
        → HasRowsOf judge (IsOfLink parent child) rows
        → Agree (IsOfLink parent child) judge (verdict_of rows) }
    ensures joined { (judge : Judge) (f g : SignedDataElements) (rows more : List VerdictRow)
        → AreRowsOf judge (IsQuestion f) rows → AreRowsOf judge (IsQuestion g) more
        → AreApart judge (IsQuestion f) (IsQuestion g)
        → HasRowsOf judge (IsQuestion f) (rows ++ more)
        × HasRowsOf judge (IsQuestion g) (rows ++ more) }
{}
