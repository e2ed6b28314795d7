//! Programs that run over files of test vectors.

use crate::line::Line;
use crate::row::{Args, Row};
use anyhow::{Result, bail};
use std::alloc::Global;
use std::env::{self, Env};
use std::fs::Files;
use std::io::{BufWriter, Write};
use std::{fs, io};

/// The words of the command line after the program's name.
pub fn words_of<R: AllocGlobal + Env>(rt: &R) -> Result<Vec<String>> {
    Ok(env::args(rt)?.skip(1).collect(rt.alloc())?)
}

/// Prints the output for each vector of the files in words: a kind and the path of its file, any
/// number of times. An empty line is printed between two files.
pub fn print_kinds<R, F>(rt: &R, words: &[String], answer: F) -> Result<()>
where
    R: AllocGlobal + Files + Print,
    F: Fn(Global, &str, &str) -> Result<String>,
    requires { F.IsAlwaysCallable answer }
{
    let mut out = BufWriter::new(rt.alloc(), io::writer(rt))?;
    let mut is_first = true;
    for pair in words.chunks(2) {
        if !is_first {
            writeln!(out)?;
        }
        print_kind(rt, pair, &answer, &mut out)?;
        is_first = false;
    }
    out.flush()?;
    Ok(())
}

/// Prints the output for each vector of a file.
fn print_kind<R, F, W>(rt: &R, pair: &[String], answer: &F, out: &mut W) -> Result<()>
where
    R: AllocGlobal + Files,
    F: Fn(Global, &str, &str) -> Result<String>,
    W: Write,
    requires { F.IsAlwaysCallable answer.now }
{
    let [kind, path] = pair else {
        bail!("each kind of vectors is followed by the path of its file");
    };
    let rows = fs::read_to_string(rt, path.as_str())?;
    for row in rows.lines() {
        let output = answer(rt.alloc(), kind.as_str(), row)?;
        writeln!(out, "{output}")?;
    }
    Ok(())
}

/// The output for a vector: the line that is printed given its words.
pub fn answer_by<F: Fn(Global, Args<'_>, &mut Line)>(
    alloc: Global,
    row: &str,
    print: F,
) -> Result<String>
    requires { F.IsAlwaysCallable print }
{
    let words = Row::of(alloc, row)?;
    let mut line = Line::new(alloc);
    print(alloc, words.args(), &mut line);
    line.answer_to(row)
}
