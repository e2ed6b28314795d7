//! Trust anchors and their purposes.

ghost use Rattle.std.specs.Prelude.{◌↔◌, IsTrue};
ghost use Rattle.trust_anchors.specs.Anchors.{Serves};

use x509_core::Cert;

/// What an anchor is trusted for.
#[derive(Clone, Copy, Debug, PartialEq, Eq)]
pub enum Purpose {
    /// Signing code.
    Code,
    /// Time stamping.
    Time,
}

/// A certificate that is trusted for these purposes.
#[derive(Debug, Drop)]
pub(crate) struct Anchor {
    pub(crate) cert: Cert,
    pub(crate) code: bool,
    pub(crate) time: bool,
}

impl Anchor {
    /// Whether the anchor serves the purpose.
    pub(crate) fn serves(&self, purpose: Purpose) -> bool
        ensures { IsTrue result ↔ Serves self.now purpose }
    {
        match purpose {
            Purpose::Code => self.code,
            Purpose::Time => self.time,
        }
    }
}
