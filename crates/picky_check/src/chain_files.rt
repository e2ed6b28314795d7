//! The files of a chain.

ghost use Rattle.std.specs.Prelude.{◌≤◌, length};

/// The files of a certificate and its parents, at least one.
#[derive(Clone, Copy, Debug)]
pub(crate) struct ChainFiles<'a> {
    pub(crate) names: &'a [String],
    pub(crate) ghost some: { 1 ≤ length names.now },
}
