//! The questions about a signature file, one after another, borrowed.

ghost use Rattle.std.specs.Prelude.{◌≡◌, ◌<◌, ◌∷◌, List, [], IfSome, None, Option, MatchOption, MatchResult};
ghost use Rattle.cms_types.specs.SignedDataElements.{SignedDataElements};
ghost use Rattle.cms_types.specs.SignedView.{data_elements};
ghost use Rattle.authenticode_core.specs.Basic.{HasSignedData, RefusesValue};
ghost use Rattle.signature_questions.specs.Ahead.{AreAhead, AreAheadOf, left_links, left_over};
ghost use Rattle.signature_questions.specs.Asked.{HasPath, HasStamp};
ghost use Rattle.signature_questions.specs.Borrowed.{asked};
ghost use Rattle.signature_questions.specs.Listed.{AreOfAll, AreQuestions};
ghost use Rattle.signature_questions.specs.Question.{Question as AskedQuestion};

use crate::links::Links;
use crate::question::Question;
use authenticode_core::{
    CheckError, Others, certificate_bag, first_of_stamping, first_signer_of, read_signed_data,
    signer_certificate, token_of,
};
use cms_types::SignedView;

/// The questions that a check of signed data may ask a scheme, in their order: about the signature
/// of the first signer, about the certificates of its issuer path, about those of its time-stamp
/// token. They are borrowed, and found without allocating.
#[derive(Clone, Copy)]
pub struct Questions<'a> {
    signer: Option<Question<'a>>,
    path: Option<Links<'a>>,
    token: Option<Links<'a>>,
}

/// The questions about the signed data in a WIN_CERTIFICATE. It doesn't allocate.
pub fn questions_of<'a>(bytes: &'a [u8]) -> Result<Questions<'a>, CheckError>
    ensures { MatchResult result
        (λ questions. (f : SignedDataElements) × HasSignedData bytes.now f
        × ((qs : List AskedQuestion) → AreAhead questions qs → AreQuestions f qs))
        (RefusesValue bytes.now) }
{
    let signed_data = read_signed_data(bytes)?;
    Ok(Questions::of(&signed_data))
}

impl<'a> Questions<'a> {
    /// All questions about signed data.
    pub fn of(signed_data: &SignedView<'a>) -> Questions<'a>
        ensures { (qs : List AskedQuestion) → AreAhead result qs
            → AreQuestions (data_elements signed_data.now) qs }
    {
        Questions {
            signer: Question::of_signer(signed_data),
            path: path_of(signed_data),
            token: stamp_of(signed_data),
        }
    }

    /// The next question.
    pub fn next(&mut self) -> Option<Question<'a>>
        ensures fewer { IfSome result (λ _. left_over self.new < left_over self.old) }
        // If no question is returned, there is none.
        ensures next { MatchOption result (AreAhead self.old []) (λ q. (others : List AskedQuestion)
            → AreAhead self.new others → AreAhead self.old (asked q ∷ others)) }
        // After the end there are none, however often this is called.
        ensures ended { result ≡ None → AreAhead self.new [] }
    {
        if let Some(question) = self.signer {
            self.signer = None;
            return Some(question);
        }
        if let Some(question) = next_of(&mut self.path) {
            return Some(question);
        }
        next_of(&mut self.token)
    }
}

/// The next question about certificates. Where there is none, none is left.
fn next_of<'a>(links: &mut Option<Links<'a>>) -> Option<Question<'a>>
    ensures fewer { IfSome result (λ _. left_links links.new < left_links links.old) }
    ensures ended { result ≡ None → links.new ≡ None }
    ensures next { MatchOption result (AreAheadOf links.old []) (λ q. (others : List AskedQuestion)
        → AreAheadOf links.new others → AreAheadOf links.old (asked q ∷ others)) }
{
    let mut cursor = (*links)?;
    let Some(question) = cursor.next() else {
        *links = None;
        return None;
    };
    *links = Some(cursor);
    Some(question)
}

/// The signer's certificate and its issuer path.
fn path_of<'a>(signed_data: &SignedView<'a>) -> Option<Links<'a>>
    ensures { (qs : List AskedQuestion) → AreAheadOf result qs
        → AreOfAll (HasPath (data_elements signed_data.now)) qs }
{
    let signer = first_signer_of(signed_data)?;
    let named = signer_certificate(signed_data, &signer)?;
    Some(Links {
        child: named.certificate,
        parents: Others::on_path(certificate_bag(signed_data), &named.certificate),
    })
}

/// The first certificate of the time-stamp token and the others with another subject.
fn stamp_of<'a>(signed_data: &SignedView<'a>) -> Option<Links<'a>>
    ensures { (qs : List AskedQuestion) → AreAheadOf result qs
        → AreOfAll (HasStamp (data_elements signed_data.now)) qs }
{
    let token = token_of(signed_data)?;
    let first = first_of_stamping(&token)?;
    Some(Links {
        child: first.certificate,
        parents: Others::in_bag(certificate_bag(&token), &first.certificate),
    })
}
