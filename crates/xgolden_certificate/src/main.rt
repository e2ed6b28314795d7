//! Output for files of test vectors about certificates, and structures of PKCS #7 and Authenticode,
//! for comparison with golden output.
//!
//! ```text
//! xgolden_certificate KIND FILE ..
//! xgolden_certificate time KIND FILE TIMES
//! ```
//!
//! KIND is `certificate` or `cms`, which the heads of these modules describe. Words are separated by
//! spaces, octets and texts are in hexadecimal, `-` for none. A line is printed for each vector, and
//! an empty one between two files. `tools/golden/crates.py` makes vectors and golden output.
//!
//! After `time` the file is a sequence of certificates, or signed data; each is read this often, for
//! `bench/certificates/certificates.py` and `bench/signed_data/signed_data.py`.
#![tactic(auto)]

mod certificate;
mod cms;
mod shown;

use anyhow::{Result, bail};
use std::alloc::Global;
use std::{fs, io};
use xgolden::{answer_by, print_kinds, timed, words_of};

fn main(rt: HostRuntime) -> Result<()> {
    let words = words_of(&rt)?;
    let Some((kind, path, times)) = timed(&words) else {
        return print_kinds(&rt, &words, answer);
    };
    let file = fs::read(&rt, path)?;
    let (times, out) = (times.parse()?, &mut io::writer(&rt));
    match kind {
        "certificate" => certificate::measure::print_times(rt.alloc(), &rt, &file, times, out),
        _ => cms::measure::print_times(rt.alloc(), &rt, &file, times, out),
    }
}

/// The output for a vector.
fn answer(alloc: Global, kind: &str, row: &str) -> Result<String> {
    match kind {
        "certificate" => answer_by(alloc, row, certificate::print),
        "cms" => answer_by(alloc, row, cms::print),
        _ => bail!("no kind of vectors is called so"),
    }
}
