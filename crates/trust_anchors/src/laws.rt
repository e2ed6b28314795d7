//! Laws on anchored paths.

ghost use Rattle.std.specs.Prelude.{◌≡◌, List, Option, Some, MatchOption};
ghost use Rattle.asn1_types.specs.declared.generalized_time.GeneralizedTime.{GeneralizedTime};
ghost use Rattle.key_core.specs.Verifying.{Judge};
ghost use Rattle.x509_core.specs.Chain.{IsAccepted};
ghost use Rattle.x509_core.specs.OwnedCertificate.{KeptCertificate};
ghost use Rattle.trust_anchors.specs.Agreement.{AgreeOnLinks};
ghost use Rattle.trust_anchors.specs.AnchoredPath.{HasNoPath, IsAnchoredPath, checks_on, parents_of};
ghost use Rattle.trust_anchors.specs.FirstPath.{IsFirstPath};
ghost use Rattle.trust_anchors.specs.declared.anchor.Anchor.{Anchor};
ghost use Rattle.trust_anchors.specs.declared.anchor.Purpose.{Purpose};
ghost use Rattle.trust_anchors.specs.declared.path.AnchoredPath.{AnchoredPath};

/// The certificate of an anchored path is accepted with the parents at its indices and the anchor
/// (`CertValidator::verify`), with everything checked at the date but that the last is a root.
pub fn anchored_paths_are_accepted()
    ensures { (judge : Judge) (date : GeneralizedTime) (checked : KeptCertificate)
        (pool : List KeptCertificate) (anchors : List Anchor) (purpose : Purpose)
        (path : AnchoredPath)
        → (found : IsAnchoredPath judge date checked pool anchors purpose path)
        → IsAccepted judge (checks_on date) checked (Some (parents_of found)) }
{}

/// At most one path is the first of the shortest ones. So `find` has one outcome, out of memory
/// aside.
pub fn first_paths_are_one()
    ensures { (judge : Judge) (date : GeneralizedTime) (checked : KeptCertificate)
        (pool : List KeptCertificate) (anchors : List Anchor) (purpose : Purpose)
        (a b : AnchoredPath)
        → IsFirstPath (IsAnchoredPath judge date checked pool anchors purpose) a
        → IsFirstPath (IsAnchoredPath judge date checked pool anchors purpose) b → a ≡ b }
{}

/// Which path is found depends on a scheme by who signed whom alone: where under two schemes the
/// same certificates signed the checked one and those of the pool, of those in the pool and of the
/// anchors that serve the purpose, what `find` returns under the one it may return under the other,
/// by its clause `found`. So says `questions_decide_chains` (`signed`) of `signature_questions`,
/// where both have the same verdicts on the questions about these.
pub fn links_decide_paths()
    ensures { (a b : Judge) (date : GeneralizedTime) (checked : KeptCertificate)
        (pool : List KeptCertificate) (anchors : List Anchor) (purpose : Purpose)
        (found : Option AnchoredPath) → AgreeOnLinks a b checked pool anchors purpose
        → MatchOption found
        (HasNoPath (IsAnchoredPath a date checked pool anchors purpose))
        (IsFirstPath (IsAnchoredPath a date checked pool anchors purpose))
        → MatchOption found
        (HasNoPath (IsAnchoredPath b date checked pool anchors purpose))
        (IsFirstPath (IsAnchoredPath b date checked pool anchors purpose)) }
{}
