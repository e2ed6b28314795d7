//! Laws on issuing histories.

ghost use Rattle.std.specs.Prelude.{◌≡◌, ◌↔◌, ◌<◌, ◌++◌, ℕ, List, [], ◌∷◌, length, Some};
ghost use Rattle.asn1_types.specs.declared.generalized_time.GeneralizedTime.{GeneralizedTime};
ghost use Rattle.der_core.specs.Rules.{IsFirstBroken};
ghost use Rattle.key_core.specs.Verifying.{Judge};
ghost use Rattle.x509_core.specs.Chain.{IsAccepted, IsLinkedChain, chain_rules, last_of};
ghost use Rattle.x509_core.specs.Checks.{checks_at, first_checks};
ghost use Rattle.x509_core.specs.History.{IssuingStep, History, IsOrdered, IsRootStep, AreIssuers, AreAncestors, AreAllowed, IsValidAt};
ghost use Rattle.x509_core.specs.Issued.{HasCert, AreCertsAt, IsIssued, IsNext, IsOfValid, IsSealed};
ghost use Rattle.x509_core.specs.OwnedCertificate.{KeptCertificate};
ghost use Rattle.x509_core.specs.Link.{signed_octets};
ghost use Rattle.x509_core.specs.declared.error.CertError.{CertError};
ghost use Rattle.x509_core.specs.declared.window.DateCheck.TheVariants as dates;

/// Each step of a history has exactly one list of ancestors.
pub fn steps_have_one_list_of_ancestors()
    ensures exists { (history : History) (index : ℕ) → IsOrdered history → index < length history
        → (ancestors : List ℕ) × AreAncestors history index ancestors }
    ensures once { (history : History) (index : ℕ) (a b : List ℕ)
        → AreAncestors history index a → AreAncestors history index b → a ≡ b }
{}

/// A certificate that is issued by one of the history is the next of the history: the certificates
/// with it were issued by the history with its step.
pub fn histories_grow_by_steps()
    ensures { (judge : Judge) (history : History) (certificates : List KeptCertificate)
        (step : IssuingStep) (cert : KeptCertificate)
        → IsIssued judge history certificates → IsNext judge certificates step cert
        → IsIssued judge (history ++ step ∷ []) (certificates ++ cert ∷ []) }
{}

/// `CertValidator` with all checks at a date accepts a certificate of a history with all its
/// ancestors, the nearest first, exactly if the history says that it is valid at this date. So
/// `verify` returns Ok exactly there, out of memory aside. The nearest ancestors, however many, are
/// linked exactly if the history allows each of them.
pub fn histories_decide_acceptance()
    ensures accepted { (judge : Judge) (history : History) (certificates : List KeptCertificate)
        (date : GeneralizedTime) (index : ℕ) (ancestors : List ℕ) (checked : KeptCertificate)
        (parents : List KeptCertificate)
        → IsIssued judge history certificates → AreAncestors history index ancestors
        → HasCert certificates index checked → AreCertsAt certificates ancestors parents
        → IsAccepted judge (checks_at (dates.Exact date) first_checks) checked (Some parents)
        ↔ IsValidAt history index date }
    ensures refused { (judge : Judge) (history : History) (certificates : List KeptCertificate)
        (date : GeneralizedTime) (index : ℕ) (ancestors : List ℕ) (checked : KeptCertificate)
        (parents : List KeptCertificate) (e : CertError)
        → IsIssued judge history certificates → AreAncestors history index ancestors
        → HasCert certificates index checked → AreCertsAt certificates ancestors parents
        → IsFirstBroken (chain_rules judge (checks_at (dates.Exact date) first_checks) checked
        (Some parents)) e
        → IsValidAt history index date → ⊥ }
    ensures linked { (judge : Judge) (history : History) (certificates : List KeptCertificate)
        (date : GeneralizedTime) (index : ℕ) (issuers : List ℕ) (checked : KeptCertificate)
        (parents : List KeptCertificate)
        → IsIssued judge history certificates → AreIssuers history index issuers
        → HasCert certificates index checked → AreCertsAt certificates issuers parents
        → IsLinkedChain judge (checks_at (dates.Exact date) first_checks).window checked parents
        ↔ AreAllowed history date issuers }
{}

/// If under the key of each certificate of a history no TBSCertificate is accepted but those of the
/// certificates issued by it, and a root's own, then a certificate that `CertValidator` accepts with
/// all checks at a date, over one parent or more, of which the last is a root of the history, has
/// the TBSCertificate of one that was issued and is valid at the date, by the history.
pub fn sealed_histories_accept_no_others()
    ensures { (judge : Judge) (history : History) (certificates : List KeptCertificate)
        (date : GeneralizedTime) (root : ℕ) (anchor checked parent : KeptCertificate)
        (parents : List KeptCertificate)
        → IsIssued judge history certificates → IsSealed judge history certificates
        → IsRootStep history root → HasCert certificates root anchor
        → signed_octets (last_of parent parents).elements ≡ signed_octets anchor.elements
        → IsAccepted judge (checks_at (dates.Exact date) first_checks) checked
        (Some (parent ∷ parents))
        → IsOfValid history certificates date checked }
{}
