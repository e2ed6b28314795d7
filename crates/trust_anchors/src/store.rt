//! Anchors in the order in which they were added, and the search for a path to one.

ghost use Rattle.std.specs.Prelude.{◌≡◌, ◌⊎◌, ◌+◌, ◌*◌, ◌<◌, ◌≤◌, ◌++◌, ◌∷◌, [], Err, IfOk, IfErr, MatchOption, OnOk, OnErr, length};
ghost use Rattle.trust_anchors.specs.AnchoredPath.{HasNoPath, IsAnchoredPath};
ghost use Rattle.trust_anchors.specs.FirstPath.{IsFirstPath};
ghost use Rattle.trust_anchors.specs.Refusals.{IsRefusal};
ghost use Rattle.trust_anchors.specs.declared.error.AnchorError.TheVariants as errors;

use crate::anchor::{Anchor, Purpose};
use crate::error::AnchorError;
use crate::link::is_valid;
use crate::path::AnchoredPath;
use crate::search::Search;
use crate::steps::Steps;
use names_core::UtcDate;
use sig_core::Scheme;
use std::alloc::Global;
use std::marker::{Brand, Model};
use std::sync::ledger::{Blank, Ledger};
use x509_core::{Cert, DateCheck, Window};

/// The most anchors in a store.
const MOST_ANCHORS: usize = 64;

/// The most certificates in a pool.
const MOST_CERTIFICATES: usize = 256;

/// Trust anchors, at most 64, in the order in which they were added.
#[derive(Debug, Drop)]
pub struct AnchorStore {
    anchors: Vec<Anchor>,
}

impl Model for AnchorStore {
    ghost use Rattle.std.specs.Prelude.{List, ◌≤◌, length};
    ghost use Rattle.std.specs.Coded.{codes};
    ghost use Rattle.trust_anchors.specs.contracts.anchor.Anchor as anchor;
    ghost use Rattle.trust_anchors.specs.declared.anchor.Anchor.{Anchor};

    ghost Value = { List Anchor };

    ghost coded = { Prim.hlevel (codes, anchor.the_row.coded) };

    ghost view = { λ store. store.anchors.items };

    ghost invariant = { λ store. length store.anchors.items ≤ 64 };
}

impl AnchorStore {
    /// No anchors.
    pub fn new(alloc: Global) -> AnchorStore
        ensures { result ≡ [] }
    {
        AnchorStore {
            anchors: Vec::new(alloc),
        }
    }

    /// The number of anchors.
    pub fn len(&self) -> usize
        ensures len { result ≡ length self.now }
        ensures most { length self.now ≤ 64 }
    {
        self.anchors.len()
    }

    /// Appends an anchor, trusted for signing code, time stamping, both or neither. It isn't
    /// verified in any way. `TooMany` comes exactly if there are 64 anchors already, with the
    /// number that there would be.
    pub fn add(&mut self, cert: Cert, code: bool, time: bool) -> Result<(), AnchorError>
        ensures ok { OnOk result
            (self.new ≡ self.old ++ record { cert = cert; code = code; time = time } ∷ []) }
        ensures err { OnErr result (self.new ≡ self.old) }
        ensures many { 64 ≤ length self.old → result ≡ Err (errors.TooMany 65) }
        ensures refused { IfErr result (IsRefusal (64 ≤ length self.old) 65) }
    {
        if self.anchors.len() >= MOST_ANCHORS {
            return Err(AnchorError::TooMany {
                count: MOST_ANCHORS + 1,
            });
        }
        self.anchors.push(Anchor { cert, code, time })?;
        Ok(())
    }

    /// The shortest path from the certificate to an anchor that serves the purpose, through
    /// certificates of the pool in any order, each any number of times, at most 15 in all: each
    /// certificate, the anchor too, is valid at the date and may have issued the one before it
    /// (RFC 5280 6.1.3, 6.1.4; `Cert::expect_link`). Of the shortest the one with the least
    /// indices, compared from the nearest parent on, then with the least anchor. None exactly if
    /// there is no path. `TooMany` comes exactly if the pool has more than 256 certificates.
    pub fn find<S: Scheme>(
        &self,
        alloc: Global,
        cert: &Cert,
        pool: &[Cert],
        purpose: Purpose,
        date: &UtcDate,
        scheme: &S,
    ) -> Result<Option<AnchoredPath>, AnchorError>
        ensures found { IfOk result (λ found. MatchOption found
            (HasNoPath
            (IsAnchoredPath (S.judge scheme.now) date.now cert.now pool.now self.now purpose))
            (IsFirstPath
            (IsAnchoredPath (S.judge scheme.now) date.now cert.now pool.now self.now purpose))) }
        ensures many { 256 < length pool.now → result ≡ Err (errors.TooMany (length pool.now)) }
        ensures refused { IfErr result (IsRefusal (256 < length pool.now) (length pool.now)) }
    {
        self.find_from::<S, Brand>(alloc, cert, pool, purpose, date, scheme, Blank::new(1))
    }

    /// `find`, and the number of signatures that it verified, by any ledger: at most
    /// 16 (n + 1) (n + m) for n certificates in the pool and m anchors. A signature is the last
    /// rule of a link: a link of which another rule fails verifies none and counts for nothing. One
    /// whose algorithm isn't known, or doesn't fit the key, is counted without asking the scheme.
    pub fn find_counted<S: Scheme, L: Ledger>(
        &self,
        alloc: Global,
        cert: &Cert,
        pool: &[Cert],
        purpose: Purpose,
        date: &UtcDate,
        scheme: &S,
        steps: &mut Steps<L>,
    ) -> Result<Option<AnchoredPath>, AnchorError>
        ensures found { IfOk result (λ found. MatchOption found
            (HasNoPath
            (IsAnchoredPath (S.judge scheme.now) date.now cert.now pool.now self.now purpose))
            (IsFirstPath
            (IsAnchoredPath (S.judge scheme.now) date.now cert.now pool.now self.now purpose))) }
        ensures many { 256 < length pool.now → result ≡ Err (errors.TooMany (length pool.now)) }
        ensures refused { IfErr result (IsRefusal (256 < length pool.now) (length pool.now)) }
        ensures counted { steps.new
            ≤ steps.old + 16 * ((length pool.now + 1) * (length pool.now + length self.now)) }
    {
        if pool.len() > MOST_CERTIFICATES {
            return Err(AnchorError::TooMany { count: pool.len() });
        }
        let window = Window {
            date: DateCheck::Exact(*date),
            not_before: true,
            not_after: true,
        };
        if !is_valid(cert.view(), &window) {
            return Ok(None);
        }
        let search = Search {
            cert,
            pool,
            anchors: &self.anchors,
            purpose,
            window,
            scheme,
        };
        Ok(search.first_path(alloc, steps)?)
    }

    /// `find`, by a new ledger.
    fn find_from<S: Scheme, L: Ledger>(
        &self,
        alloc: Global,
        cert: &Cert,
        pool: &[Cert],
        purpose: Purpose,
        date: &UtcDate,
        scheme: &S,
        blank: Blank,
    ) -> Result<Option<AnchoredPath>, AnchorError>
        requires name { blank.name ≡ L.name }
        requires parts { blank.parts ≡ L.parts }
        requires some { 0 < blank.parts }
        ensures found { IfOk result (λ found. MatchOption found
            (HasNoPath
            (IsAnchoredPath (S.judge scheme.now) date.now cert.now pool.now self.now purpose))
            (IsFirstPath
            (IsAnchoredPath (S.judge scheme.now) date.now cert.now pool.now self.now purpose))) }
        ensures many { 256 < length pool.now → result ≡ Err (errors.TooMany (length pool.now)) }
        ensures refused { IfErr result (IsRefusal (256 < length pool.now) (length pool.now)) }
    {
        let mut steps = Steps::<L>::new(blank);
        self.find_counted(alloc, cert, pool, purpose, date, scheme, &mut steps)
    }
}
