//! Questions about the certificates of a signature file above another one.

ghost use Rattle.std.specs.Prelude.{◌<◌, ◌∷◌, List, [], length, IfSome, MatchOption};
ghost use Rattle.authenticode_core.specs.OthersCursor.{unread_members};
ghost use Rattle.signature_questions.specs.Ahead.{AreLinksAhead};
ghost use Rattle.signature_questions.specs.Borrowed.{asked};
ghost use Rattle.signature_questions.specs.Question.{Question as AskedQuestion};

use crate::question::Question;
use authenticode_core::Others;
use x509_types::CertView;

/// The questions about a certificate and those that are left above it, each under the key of the
/// next one. Each certificate is read once, without allocating.
#[derive(Clone, Copy)]
pub(crate) struct Links<'a> {
    pub(crate) child: CertView<'a>,
    pub(crate) parents: Others<'a>,
}

impl<'a> Links<'a> {
    /// The next question.
    pub(crate) fn next(&mut self) -> Option<Question<'a>>
        ensures fewer { IfSome result (λ _. length (unread_members self.new.parents.source)
            < length (unread_members self.old.parents.source)) }
        ensures next { MatchOption result (AreLinksAhead self.old []) (λ q.
            (others : List AskedQuestion) → AreLinksAhead self.new others
            → AreLinksAhead self.old (asked q ∷ others)) }
    {
        while let Some(parent) = self.parents.next() {
            let child = self.child;
            self.child = parent.certificate;
            if let Some(question) = Question::of_link(&parent.certificate, &child) {
                return Some(question);
            }
        }
        None
    }
}
