//! The lines of questions.

ghost use Rattle.std.specs.Prelude.{◌≡◌, ◌++◌, List, IfOk, OnOk, string_bytes};
ghost use Rattle.signature_questions.specs.Ahead.{AreAhead, AreChainAhead};
ghost use Rattle.signature_questions.specs.Borrowed.{asked};
ghost use Rattle.signature_questions.specs.Lines.{hex_word, question_line, question_lines};
ghost use Rattle.signature_questions.specs.Question.{Question as AskedQuestion};

use crate::chain_questions::ChainQuestions;
use crate::question::Question;
use crate::questions::Questions;
use sha2::{Digest, Sha256};
use std::alloc::{AllocError, Global};

/// The lines of all questions about a signature file.
pub(crate) fn lines_of(alloc: Global, mut questions: Questions<'_>) -> Result<String, AllocError>
    ensures { IfOk result (λ lines. (qs : List AskedQuestion) × AreAhead questions.entry qs
        × (string_bytes lines ≡ question_lines qs)) }
{
    let mut lines = String::new(alloc);
    while let Some(question) = questions.next() {
        write_line(alloc, &mut lines, &question)?;
    }
    Ok(lines)
}

/// The lines of all questions about a chain.
pub(crate) fn chain_lines_of(
    alloc: Global,
    mut questions: ChainQuestions<'_>,
) -> Result<String, AllocError>
    ensures { IfOk result (λ lines. (qs : List AskedQuestion) × AreChainAhead questions.entry qs
        × (string_bytes lines ≡ question_lines qs)) }
{
    let mut lines = String::new(alloc);
    while let Some(question) = questions.next() {
        write_line(alloc, &mut lines, &question)?;
    }
    Ok(lines)
}

/// Appends the line of a question: the algorithm; the SHA-256 of the key bytes, the message and the
/// signature; then these three.
fn write_line(alloc: Global, lines: &mut String, question: &Question<'_>) -> Result<(), AllocError>
    ensures { OnOk result
        (string_bytes lines.new ≡ string_bytes lines.old ++ question_line (asked question.now)) }
{
    let message = question.message.to_vec(alloc)?;
    lines.push_str(question.algorithm.name())?;
    write_word(alloc, lines, &Sha256::digest(question.key))?;
    write_word(alloc, lines, &Sha256::digest(&message))?;
    write_word(alloc, lines, &Sha256::digest(question.signature))?;
    write_word(alloc, lines, question.key)?;
    write_word(alloc, lines, &message)?;
    write_word(alloc, lines, question.signature)?;
    lines.push('\n')?;
    Ok(())
}

/// Appends octets as a word after another, in hexadecimal.
fn write_word(alloc: Global, lines: &mut String, octets: &[u8]) -> Result<(), AllocError>
    ensures { OnOk result (string_bytes lines.new ≡ string_bytes lines.old ++ hex_word octets.now) }
{
    lines.push(' ')?;
    lines.push_str(hex::encode(alloc, octets)?.as_str())?;
    Ok(())
}
