//! The questions about a chain of certificates, one after another, borrowed.

ghost use Rattle.std.specs.Prelude.{◌≡◌, ◌<◌, ◌∷◌, List, [], length, IfSome, MatchOption, None};
ghost use Rattle.signature_questions.specs.Ahead.{AreChainAhead};
ghost use Rattle.signature_questions.specs.Borrowed.{asked};
ghost use Rattle.signature_questions.specs.Listed.{AreOfChain};
ghost use Rattle.signature_questions.specs.Question.{Question as AskedQuestion};

use crate::question::Question;
use x509_core::Cert;

/// The questions that a check of certificates as a chain may ask a scheme, in their order: about
/// each under the key of the next one. They are borrowed, and found without allocating.
#[derive(Clone, Copy)]
pub struct ChainQuestions<'a> {
    child: &'a Cert,
    parents: &'a [Cert],
}

impl<'a> ChainQuestions<'a> {
    /// All questions about a certificate and its parents, the nearest first.
    pub fn of(checked: &'a Cert, parents: &'a [Cert]) -> ChainQuestions<'a>
        ensures { (qs : List AskedQuestion) → AreChainAhead result qs
            → AreOfChain checked.now parents.now qs }
    {
        ChainQuestions {
            child: checked,
            parents,
        }
    }

    /// The next question.
    pub fn next(&mut self) -> Option<Question<'a>>
        ensures fewer { IfSome result
            (λ _. length self.new.parents.now < length self.old.parents.now) }
        // If no question is returned, there is none.
        ensures next { MatchOption result (AreChainAhead self.old []) (λ q.
            (others : List AskedQuestion) → AreChainAhead self.new others
            → AreChainAhead self.old (asked q ∷ others)) }
        // After the end there are none, however often this is called.
        ensures ended { result ≡ None → AreChainAhead self.new [] }
    {
        while let Some((parent, others)) = self.parents.split_first() {
            let question = Question::of_link(&parent.view(), &self.child.view());
            *self = ChainQuestions {
                child: parent,
                parents: others,
            };
            if let Some(question) = question {
                return Some(question);
            }
        }
        None
    }
}
