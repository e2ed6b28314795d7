//! The search for the shortest path to an anchor, by lengths: from the first trail of one length to
//! each certificate to those that are one longer.

ghost use Rattle.std.specs.Prelude.{◌≡◌, ◌≢◌, ◌↔◌, ◌+◌, ◌*◌, ◌<◌, ◌≤◌, ◌++◌, ℕ, List, [], ◌∷◌, IsSome, IsTrue, IfOk, IfSome, OnOk, Some, false, length, slice_get};
ghost use Rattle.x509_core.specs.Link.{IsLink};
ghost use Rattle.x509_core.specs.declared.error.CertError.TheVariants as errors;
ghost use Rattle.trust_anchors.specs.Anchors.{Serves};
ghost use Rattle.trust_anchors.specs.FirstPath.{IsBefore};
ghost use Rattle.trust_anchors.specs.Inside.Trails.{Continues, IsFirstAnchor, IsFirstOf, IsFirstSoFar, IsFirstWith, IsFound, IsLayer, IsLayerUpTo, end_of, most_verified, sought};
ghost use Rattle.trust_anchors.specs.Inside.Unsigned.{IsUnsignedLink};

use crate::anchor::{Anchor, Purpose};
use crate::link::is_unsigned_link;
use crate::path::AnchoredPath;
use crate::steps::Steps;
use sig_core::Scheme;
use std::alloc::{AllocError, Global};
use std::cmp::Ordering;
use std::sync::ledger::Ledger;
use x509_core::{Cert, CertError, Places, Window, chains_break_no_rule};

/// The most indices of a path; with its anchor it has 16 parents.
const MOST_PLACES: u16 = 15;

/// What is searched.
#[derive(Drop)]
pub(crate) struct Search<'a, S> {
    pub(crate) cert: &'a Cert,
    pub(crate) pool: &'a [Cert],
    pub(crate) anchors: &'a [Anchor],
    pub(crate) purpose: Purpose,
    pub(crate) window: Window,
    pub(crate) scheme: &'a S,
}

impl<S: Scheme> Search<'_, S> {
    /// The first of the shortest paths to an anchor.
    pub(crate) fn first_path<L: Ledger>(
        &self,
        alloc: Global,
        steps: &mut Steps<L>,
    ) -> Result<Option<AnchoredPath>, AllocError>
        ensures found { IfOk result (IsFound (sought (S.judge self.now.scheme.now) self.now)) }
        ensures counted { steps.new
            ≤ steps.old + 16 * most_verified (sought (S.judge self.now.scheme.now) self.now) }
    {
        let mut layer = first_layer(alloc)?;
        for number in 0..MOST_PLACES {
            if let Some(path) = self.anchored(alloc, &layer, number, steps)? {
                return Ok(Some(path));
            }
            layer = self.extended(alloc, &layer, number, steps)?;
        }
        self.anchored(alloc, &layer, MOST_PLACES, steps)
    }

    /// The first path of a trail and an anchor, if there is one.
    fn anchored<L: Ledger>(
        &self,
        alloc: Global,
        layer: &[Places],
        number: u16,
        steps: &mut Steps<L>,
    ) -> Result<Option<AnchoredPath>, AllocError>
        requires { IsLayer (sought (S.judge self.now.scheme.now) self.now) number layer.now }
        ensures found { IfOk result
            (IsFirstWith (sought (S.judge self.now.scheme.now) self.now) number) }
        ensures counted { steps.new
            ≤ steps.old + length layer.now * length self.now.anchors.now }
    {
        let mut first: Option<AnchoredPath> = None;
        for trail in layer {
            first = self.earlier_path(alloc, trail, first, number, steps)?;
        }
        Ok(first)
    }

    /// The first path so far, or that of the trail if it ends at an anchor and is before it.
    fn earlier_path<L: Ledger>(
        &self,
        alloc: Global,
        trail: &Places,
        first: Option<AnchoredPath>,
        number: u16,
        steps: &mut Steps<L>,
    ) -> Result<Option<AnchoredPath>, AllocError>
        requires end { IsSome (end_of (sought (S.judge self.now.scheme.now) self.now) trail.now) }
        requires number { length trail.now ≡ number }
        ensures earlier { IfOk result (λ next. (trails : List (List ℕ))
            → IsFirstSoFar (sought (S.judge self.now.scheme.now) self.now) trails first
            → IsFirstSoFar (sought (S.judge self.now.scheme.now) self.now)
            (trails ++ trail.now ∷ []) next) }
        ensures counted { steps.new ≤ steps.old + length self.now.anchors.now }
    {
        if !is_before_path(trail, &first) {
            return Ok(first);
        }
        let end = self.end(trail);
        let found = self.first_anchor(alloc, end, number, steps)?;
        match found {
            None => Ok(first),
            Some(anchor) => {
                let pool = trail.try_clone(alloc)?;
                Ok(Some(AnchoredPath { pool, anchor }))
            }
        }
    }

    /// The first anchor that serves the purpose and may have issued the certificate.
    fn first_anchor<L: Ledger>(
        &self,
        alloc: Global,
        child: &Cert,
        number: u16,
        steps: &mut Steps<L>,
    ) -> Result<Option<usize>, AllocError>
        ensures found { IfOk result
            (IsFirstAnchor (sought (S.judge self.now.scheme.now) self.now) number child.now) }
        ensures counted { steps.new ≤ steps.old + length self.now.anchors.now }
    {
        for (index, anchor) in self.anchors.iter().enumerate() {
            let is = self.is_anchor(alloc, anchor, child, number, steps)?;
            if is {
                return Ok(Some(index));
            }
        }
        Ok(None)
    }

    /// Whether the anchor serves the purpose and may have issued the certificate.
    fn is_anchor<L: Ledger>(
        &self,
        alloc: Global,
        anchor: &Anchor,
        child: &Cert,
        number: u16,
        steps: &mut Steps<L>,
    ) -> Result<bool, AllocError>
        ensures answer { IfOk result (λ is. IsTrue is ↔ (Serves anchor.now self.now.purpose
            × IsLink (S.judge self.now.scheme.now) self.now.window number
            anchor.now.cert.elements child.now.elements)) }
        ensures counted { steps.new ≤ steps.old + 1 }
    {
        if !anchor.serves(self.purpose) {
            return Ok(false);
        }
        self.is_link(alloc, &anchor.cert, child, number, steps)
    }

    /// The first trails that are one longer, by those of one length.
    fn extended<L: Ledger>(
        &self,
        alloc: Global,
        layer: &[Places],
        number: u16,
        steps: &mut Steps<L>,
    ) -> Result<Vec<Places>, AllocError>
        requires layer { IsLayer (sought (S.judge self.now.scheme.now) self.now) number layer.now }
        requires number { number < 15 }
        ensures longer { IfOk result (λ longer.
            IsLayer (sought (S.judge self.now.scheme.now) self.now) (number + 1) longer.items) }
        ensures counted { steps.new ≤ steps.old + length self.now.pool.now * length layer.now }
    {
        let mut longer = Vec::new(alloc);
        for (index, parent) in self.pool.iter().enumerate() {
            self.extend(alloc, layer, index, parent, number, &mut longer, steps)?;
        }
        Ok(longer)
    }

    /// Appends the first trail that ends at the index, if there is one.
    fn extend<L: Ledger>(
        &self,
        alloc: Global,
        layer: &[Places],
        index: usize,
        parent: &Cert,
        number: u16,
        longer: &mut Vec<Places>,
        steps: &mut Steps<L>,
    ) -> Result<(), AllocError>
        requires layer { IsLayer (sought (S.judge self.now.scheme.now) self.now) number layer.now }
        requires parent { slice_get self.now.pool.now index ≡ Some parent.now }
        requires longer { IsLayerUpTo (sought (S.judge self.now.scheme.now) self.now) number index
            longer.old.items }
        ensures longer { OnOk result (IsLayerUpTo
            (sought (S.judge self.now.scheme.now) self.now) number (index + 1) longer.new.items) }
        ensures counted { steps.new ≤ steps.old + length layer.now }
    {
        let found = self.first_before(alloc, layer, parent, number, steps)?;
        match found {
            None => Ok(()),
            Some(trail) => append(trail, index, longer),
        }
    }

    /// The first trail whose last certificate the parent may have issued.
    fn first_before<L: Ledger>(
        &self,
        alloc: Global,
        layer: &[Places],
        parent: &Cert,
        number: u16,
        steps: &mut Steps<L>,
    ) -> Result<Option<Places>, AllocError>
        requires { IsLayer (sought (S.judge self.now.scheme.now) self.now) number layer.now }
        ensures found { IfOk result
            (IsFirstOf (Continues (sought (S.judge self.now.scheme.now) self.now) parent.now)
            layer.now) }
        ensures counted { steps.new ≤ steps.old + length layer.now }
    {
        let mut first: Option<Places> = None;
        for trail in layer {
            first = self.earlier_before(alloc, trail, first, parent, number, steps)?;
        }
        Ok(first)
    }

    /// The first trail so far, or this one if the parent may have issued its last certificate and
    /// it is before the other.
    fn earlier_before<L: Ledger>(
        &self,
        alloc: Global,
        trail: &Places,
        first: Option<Places>,
        parent: &Cert,
        number: u16,
        steps: &mut Steps<L>,
    ) -> Result<Option<Places>, AllocError>
        requires end { IsSome (end_of (sought (S.judge self.now.scheme.now) self.now) trail.now) }
        requires number { length trail.now ≡ number }
        ensures earlier { IfOk result (λ next. (trails : List (List ℕ))
            → IsFirstOf (Continues (sought (S.judge self.now.scheme.now) self.now) parent.now)
            trails first
            → IsFirstOf (Continues (sought (S.judge self.now.scheme.now) self.now) parent.now)
            (trails ++ trail.now ∷ []) next) }
        ensures counted { steps.new ≤ steps.old + 1 }
    {
        if !is_before(trail, &first) {
            return Ok(first);
        }
        let end = self.end(trail);
        let linked = self.is_link(alloc, parent, end, number, steps)?;
        if !linked {
            return Ok(first);
        }
        let copy = trail.try_clone(alloc)?;
        Ok(Some(copy))
    }

    /// The last certificate of a trail.
    fn end(&self, trail: &Places) -> &Cert
        requires { IsSome (end_of (sought (S.judge self.now.scheme.now) self.now) trail.now) }
        ensures { end_of (sought (S.judge self.now.scheme.now) self.now) trail.now
            ≡ Some result.now }
    {
        match trail.as_slice().last() {
            Some(index) => self.at(*index),
            None => self.cert,
        }
    }

    /// The certificate of the pool at an index.
    fn at(&self, index: usize) -> &Cert
        requires { index < length self.now.pool.now }
        ensures { slice_get self.now.pool.now index ≡ Some result.now }
    {
        &self.pool[index]
    }

    /// Whether the parent may have issued the child. Its signature is the last rule, and verified
    /// only if all others hold.
    fn is_link<L: Ledger>(
        &self,
        alloc: Global,
        parent: &Cert,
        child: &Cert,
        number: u16,
        steps: &mut Steps<L>,
    ) -> Result<bool, AllocError>
        ensures answer { IfOk result (λ is. IsTrue is
            ↔ IsLink (S.judge self.now.scheme.now) self.now.window number
            parent.now.elements child.now.elements) }
        ensures counted { steps.new ≤ steps.old + 1 }
        // Where another rule fails, no signature is verified.
        ensures uncounted { (IsUnsignedLink self.now.window number parent.now.elements
            child.now.elements → ⊥) → steps.new ≡ steps.old }
    {
        if !is_unsigned_link(parent.view(), child.view(), number, &self.window) {
            return Ok(false);
        }
        self.is_signed_link(alloc, parent, child, number, steps)
    }

    /// Counts one signature, and verifies whether the parent may have issued the child. No other
    /// function of the search verifies a signature.
    fn is_signed_link<L: Ledger>(
        &self,
        alloc: Global,
        parent: &Cert,
        child: &Cert,
        number: u16,
        steps: &mut Steps<L>,
    ) -> Result<bool, AllocError>
        ensures answer { IfOk result (λ is. IsTrue is
            ↔ IsLink (S.judge self.now.scheme.now) self.now.window number
            parent.now.elements child.now.elements) }
        ensures counted { steps.new ≡ steps.old + 1 }
    {
        steps.tick();
        // a law that the proof rests on; the call does nothing
        chains_break_no_rule();
        match parent.expect_link(alloc, child, number, &self.window, self.scheme) {
            Ok(()) => Ok(true),
            Err(refusal) => false_unless_memory(refusal),
        }
    }
}

/// False, unless the refusal is out of memory.
fn false_unless_memory(refusal: CertError) -> Result<bool, AllocError>
    ensures { IfOk result (λ is. (is ≡ false) × (refusal ≢ errors.Memory)) }
{
    match &refusal {
        CertError::Memory => Err(AllocError),
        _ => Ok(false),
    }
}

/// The one trail without an index.
fn first_layer(alloc: Global) -> Result<Vec<Places>, AllocError>
    ensures { IfOk result (λ layer. layer.items ≡ [] ∷ []) }
{
    let mut layer = Vec::new(alloc);
    layer.push(Places::new(alloc))?;
    Ok(layer)
}

/// Appends a trail that is longer by an index.
fn append(mut trail: Places, index: usize, longer: &mut Vec<Places>) -> Result<(), AllocError>
    ensures { OnOk result
        (longer.new.items ≡ longer.old.items ++ (trail ++ index ∷ []) ∷ []) }
{
    trail.push(index)?;
    longer.push(trail)?;
    Ok(())
}

/// Whether the trail is before the first one so far, if there is one.
fn is_before(trail: &Places, first: &Option<Places>) -> bool
    ensures { IsTrue result ↔ IfSome first.now (IsBefore trail.now) }
{
    match first {
        Some(first) => trail.as_slice().cmp(first.as_slice()) == Ordering::Less,
        None => true,
    }
}

/// Whether the trail is before that of the first path so far, if there is one.
fn is_before_path(trail: &Places, first: &Option<AnchoredPath>) -> bool
    ensures { IsTrue result ↔ IfSome first.now (λ path. IsBefore trail.now path.pool) }
{
    match first {
        Some(path) => trail.as_slice().cmp(path.pool.as_slice()) == Ordering::Less,
        None => true,
    }
}
