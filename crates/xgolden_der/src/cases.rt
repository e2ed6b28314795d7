//! Results for the cases of a file.

ghost use Rattle.std.specs.Prelude.{◌<◌, length, IfSome};

use crate::answer::push_answers;
use anyhow::{Context, Result};
use std::alloc::Global;
use std::io::Write;

/// Prints the output line of each case in a file.
pub fn print_answers(alloc: Global, file: &[u8], out: &mut impl Write) -> Result<()> {
    let mut line = String::new(alloc);
    let mut rest = file;
    while !rest.is_empty() {
        let (case, after) = first_case(rest).context("the file ends within a case")?;
        line.clear();
        push_answers(alloc, &mut line, case)?;
        out.write_all(line.as_bytes())?;
        rest = after;
    }
    Ok(())
}

/// The first case of a file, and the rest; `None` if the file ends within the case.
fn first_case(file: &[u8]) -> Option<(&[u8], &[u8])>
    ensures { IfSome result (λ x. length x.1.now < length file.now) }
{
    let [low, high, rest @ ..] = file else {
        return None;
    };
    rest.split_at_checked(usize::from(u16::from_le_bytes([*low, *high])))
}
