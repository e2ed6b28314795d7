//! What the words of the command line request.

ghost use Rattle.std.specs.Prelude.{◌+◌, ◌<◌, ◌≤◌, length};

use crate::anchor::Purpose;
use names_core::UtcDate;

/// A path from a certificate to an anchor that serves the purpose, at a date.
#[derive(Clone, Copy, Debug)]
pub(crate) struct Command<'a> {
    pub(crate) table: &'a str,
    pub(crate) purpose: Purpose,
    pub(crate) date: UtcDate,
    /// The number of anchors after the first.
    pub(crate) more: usize,
    /// The anchors, then the certificate, then the pool.
    pub(crate) certificates: &'a [String],
    pub(crate) ghost most_anchors: { more < 8 },
    pub(crate) ghost has_certificate: { more + 1 < length certificates.now },
    pub(crate) ghost most_in_pool: { length certificates.now ≤ more + 34 },
}
