//! The words of a command line as one text.

ghost use Rattle.std.specs.Prelude.{◌≡◌, map, string_bytes, IfOk};
ghost use Rattle.door_frame.specs.Words.{lines_of};

use std::alloc::{AllocError, Global};

/// The words of a text, one a line: what stands between its newlines.
pub fn words_of(alloc: Global, text: &str) -> Result<Vec<String>, AllocError>
    ensures { IfOk result (λ words. map string_bytes words.items ≡ lines_of text.now) }
{
    let mut words = Vec::new(alloc);
    for word in text.split('\n') {
        words.push(String::from_str(alloc, word)?)?;
    }
    Ok(words)
}
