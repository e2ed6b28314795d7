//! What the words of the command line request.

/// The questions about a signature file, or about a chain.
#[derive(Clone, Copy, Debug)]
pub(crate) enum Command<'a> {
    /// About the signature file with this name.
    Signature(&'a str),
    /// About files with certificates as a chain: one, and its parents, the nearest first.
    Chain {
        checked: &'a str,
        parents: &'a [String],
    },
}
