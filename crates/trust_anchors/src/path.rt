//! Paths to an anchor.

ghost use Rattle.std.specs.Prelude.{Some};
ghost use Rattle.trust_anchors.specs.PathText.{path_text};

use std::fmt;
use x509_core::Places;

/// A path from a certificate to an anchor.
#[derive(Debug, Drop)]
pub struct AnchoredPath {
    /// The indices in the pool of the parents before the anchor, nearest first. In a shortest path
    /// none is there twice.
    pub pool: Places,
    /// The index of the anchor, the last parent.
    pub anchor: usize,
}

/// Prints `pool=P,P anchor=A`: indices in decimal, those of the pool separated by commas.
impl fmt::Display for AnchoredPath {
    ghost output = { λ path. Some (path_text path) };

    fn fmt<W: fmt::Write>(&self, f: &mut fmt::Formatter<W>) -> fmt::Result {
        write!(f, "pool={} anchor={}", self.pool, self.anchor)
    }
}
