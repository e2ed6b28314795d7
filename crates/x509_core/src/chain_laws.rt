//! Laws on certificate chains.

ghost use Rattle.std.specs.Prelude.{◌≡◌, ◌↔◌, ℕ, List, Option};
ghost use Rattle.asn1_types.specs.declared.generalized_time.GeneralizedTime.{GeneralizedTime};
ghost use Rattle.der_core.specs.Rules.{IsFirstBroken};
ghost use Rattle.key_core.specs.Verifying.{Judge};
ghost use Rattle.x509_types.specs.CertificateElements.{CertificateElements};
ghost use Rattle.x509_core.specs.Chain.{IsAccepted, chain_rules};
ghost use Rattle.x509_core.specs.OwnedCertificate.{KeptCertificate};
ghost use Rattle.x509_core.specs.Link.{IsLink, link_rules};
ghost use Rattle.x509_core.specs.Window.{IsWithinWindow, IsExpired, window_rules};
ghost use Rattle.x509_core.specs.declared.error.CertCause.{CertCause};
ghost use Rattle.x509_core.specs.declared.error.CertCause.TheVariants as causes;
ghost use Rattle.x509_core.specs.declared.error.CertError.{CertError};
ghost use Rattle.x509_core.specs.declared.validator.ChainChecks.{ChainChecks};
ghost use Rattle.x509_core.specs.declared.window.Window.{Window};

/// A valid certificate breaks no rule of windows, a link none of links, an accepted certificate
/// none of chains. So `Window::expect_valid` returns Ok exactly there, and so do
/// `Cert::expect_link` and `CertValidator::verify`, out of memory aside. An expired certificate is
/// reported as expired, and as nothing else.
pub fn chains_break_no_rule()
    ensures window { (w : Window) (f : CertificateElements) (cause : CertCause)
        → IsWithinWindow w f → IsFirstBroken (window_rules w f) cause → ⊥ }
    ensures expired { (w : Window) (f : CertificateElements)
        → IsExpired w f
        ↔ ((not_after : GeneralizedTime) × (now : GeneralizedTime)
        × IsFirstBroken (window_rules w f) (causes.CertificateExpired not_after now)) }
    ensures link { (judge : Judge) (w : Window) (count : ℕ) (parent child : KeptCertificate)
        (e : CertError)
        → IsLink judge w count parent.elements child.elements
        → IsFirstBroken (link_rules judge w count parent child) e → ⊥ }
    ensures chain { (judge : Judge) (checks : ChainChecks) (checked : KeptCertificate)
        (given : Option (List KeptCertificate)) (e : CertError)
        → IsAccepted judge checks checked given
        → IsFirstBroken (chain_rules judge checks checked given) e → ⊥ }
{}

/// At most one error reports the first broken rule of windows, of links and of chains. So
/// `Window::expect_valid`, `Cert::expect_link` and `CertValidator::verify` have one outcome, out of
/// memory aside.
pub fn chains_have_one_answer()
    ensures window { (w : Window) (f : CertificateElements) (a b : CertCause)
        → IsFirstBroken (window_rules w f) a → IsFirstBroken (window_rules w f) b → a ≡ b }
    ensures link { (judge : Judge) (w : Window) (count : ℕ) (parent child : KeptCertificate)
        (a b : CertError)
        → IsFirstBroken (link_rules judge w count parent child) a
        → IsFirstBroken (link_rules judge w count parent child) b → a ≡ b }
    ensures chain { (judge : Judge) (checks : ChainChecks) (checked : KeptCertificate)
        (given : Option (List KeptCertificate)) (a b : CertError)
        → IsFirstBroken (chain_rules judge checks checked given) a
        → IsFirstBroken (chain_rules judge checks checked given) b → a ≡ b }
{}
