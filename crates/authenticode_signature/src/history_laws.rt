//! Laws on signatures by the certificates of a CA.

ghost use Rattle.std.specs.Prelude.{◌≡◌, ◌↔◌, ◌∷◌, [], ℕ, ℤ, List, Result, Ok, IfOk};
ghost use Rattle.asn1_types.specs.declared.generalized_time.GeneralizedTime.{GeneralizedTime};
ghost use Rattle.authenticode_core.specs.Basic.{VouchesFor};
ghost use Rattle.authenticode_core.specs.SigningRules.{IsBagOf};
ghost use Rattle.authenticode_core.specs.Trusted.{IsTrusted};
ghost use Rattle.authenticode_core.specs.declared.accepted.Accepted.{Accepted};
ghost use Rattle.authenticode_core.specs.declared.error.CheckError.{CheckError};
ghost use Rattle.authenticode_core.specs.declared.error.CheckError.TheVariants.{Memory};
ghost use Rattle.cms_types.specs.SignedDataElements.{SignedDataElements};
ghost use Rattle.der_core.specs.Rules.{AreOneUnlessMemory};
ghost use Rattle.key_core.specs.Verifying.{Judge};
ghost use Rattle.x509_core.specs.History.{IssuingStep, History, HasStep, IsDuring, AreAllowed};
ghost use Rattle.x509_core.specs.Issued.{AreCertsAt};
ghost use Rattle.x509_core.specs.OwnedCertificate.{KeptCertificate};
ghost use Rattle.x509_types.specs.CertificateElements.{CertificateElements};
ghost use Rattle.authenticode_parts.specs.Carried.{AreCarried, IsRootCertificate, elements_of};
ghost use Rattle.authenticode_signature.specs.HistorySignature.{IsSignerOf, all_checks_at, by_the_first_over};
ghost use Rattle.authenticode_signature.specs.KeptAncestors.{AreKeptOf, IsDecidedBy, IsWithAncestors};
ghost use Rattle.authenticode_signature.specs.MadeFile.{IsCheckedBy};

/// Signed data that contains a certificate of an issuing history, valid at a date, and its nearest
/// ancestors, however many and with other subjects, and vouches for the digest of a file by that
/// certificate, is trusted with all checks at the date exactly if the history allows each of these
/// ancestors then. The path that is reported is all of them, without an excuse. So `check_made` and
/// `check_wincert` accept a signature file that carries exactly these certificates exactly there, out
/// of memory aside. Of a root that isn't carried the law says nothing.
pub fn histories_decide_signatures()
    ensures trusted { (judge : Judge) (history : History) (certificates : List KeptCertificate)
        (date : GeneralizedTime) (issuers : List ℕ) (cert : KeptCertificate)
        (parents : List KeptCertificate) (now : ℤ) (file_hash : List ℕ)
        (f : SignedDataElements) (a : Accepted)
        → IsSignerOf judge history certificates date issuers cert parents
        → IsBagOf f (elements_of (cert ∷ parents)) → VouchesFor judge f file_hash 0
        → IsTrusted judge (all_checks_at date now file_hash) f a
        ↔ ((a ≡ by_the_first_over parents) × AreAllowed history date issuers) }
    ensures accepted { (judge : Judge) (history : History) (certificates : List KeptCertificate)
        (date : GeneralizedTime) (issuers : List ℕ) (cert : KeptCertificate)
        (parents : List KeptCertificate) (now : ℤ) (octets file_hash : List ℕ)
        (answer : Result Accepted CheckError)
        → IsSignerOf judge history certificates date issuers cert parents
        → IsCheckedBy judge (all_checks_at date now file_hash) (elements_of (cert ∷ parents))
        octets file_hash answer
        → IfOk answer (λ _. AreAllowed history date issuers) }
    ensures answered { (judge : Judge) (history : History) (certificates : List KeptCertificate)
        (date : GeneralizedTime) (issuers : List ℕ) (cert : KeptCertificate)
        (parents : List KeptCertificate) (now : ℤ) (octets file_hash : List ℕ)
        (answer : Result Accepted CheckError)
        → IsSignerOf judge history certificates date issuers cert parents
        → IsCheckedBy judge (all_checks_at date now file_hash) (elements_of (cert ∷ parents))
        octets file_hash answer
        → AreAllowed history date issuers
        → AreOneUnlessMemory Memory answer (Ok (by_the_first_over parents)) }
{}

/// A signature that `AuthenticodeSignature::new` makes of a certificate of an issuing history and all
/// its ancestors, no two of which have one subject, keeps the certificate, and all ancestors but the
/// root, or that too if it isn't a CA. A certificate with ancestors is no root, so `file` of `new`
/// speaks of each. At a date in the validity of the certificate `check_made` and `check_wincert`
/// accept the file with all checks exactly if the history allows each kept ancestor then, out of
/// memory aside.
pub fn histories_decide_made_signatures()
    ensures alone { (judge : Judge) (history : History) (certificates : List KeptCertificate)
        (index : ℕ) (ancestors : List ℕ) (cert : KeptCertificate)
        (parents : List KeptCertificate)
        → IsWithAncestors judge history certificates index ancestors cert parents
        → IsRootCertificate cert.elements → elements_of parents ≡ [] }
    ensures kept { (judge : Judge) (history : History) (certificates : List KeptCertificate)
        (index : ℕ) (ancestors : List ℕ) (cert : KeptCertificate)
        (parents : List KeptCertificate) (carried : List CertificateElements)
        → IsWithAncestors judge history certificates index ancestors cert parents
        → AreCarried (elements_of (cert ∷ parents)) (cert.elements ∷ carried)
        → (kept : List ℕ) × (certs : List KeptCertificate) × AreKeptOf history ancestors kept
        × AreCertsAt certificates kept certs × (carried ≡ elements_of certs) }
    ensures decided { (judge : Judge) (history : History) (certificates : List KeptCertificate)
        (index : ℕ) (step : IssuingStep) (ancestors : List ℕ) (cert : KeptCertificate)
        (parents : List KeptCertificate) (carried : List CertificateElements)
        (date : GeneralizedTime) (now : ℤ) (octets file_hash : List ℕ)
        (answer : Result Accepted CheckError)
        → IsWithAncestors judge history certificates index ancestors cert parents
        → HasStep history index step → IsDuring step date
        → AreCarried (elements_of (cert ∷ parents)) (cert.elements ∷ carried)
        → IsCheckedBy judge (all_checks_at date now file_hash) (cert.elements ∷ carried) octets
        file_hash answer
        → (kept : List ℕ) × AreKeptOf history ancestors kept
        × IsDecidedBy history date kept answer }
{}
