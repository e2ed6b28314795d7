//! The steps of a demonstration.

ghost use Rattle.std.specs.Prelude.{◌≡◌, IfOk};
ghost use Rattle.demo_core.specs.Draws.{state_after};
ghost use Rattle.demo_core.specs.History.{demo_history, drawn_issuer, drawn_path_length, step_from};

use crate::generator::Generator;
use std::alloc::{AllocError, Global};

/// The years of a validity, each by its first second: the first and the last.
#[derive(Clone, Copy, Debug, PartialEq, Eq)]
pub struct Years {
    pub first: u16,
    pub last: u16,
}

/// An issuing step: who issues the certificate, and what it says.
#[derive(Clone, Copy, Debug, PartialEq, Eq)]
pub struct Step {
    /// The index of the issuer's step, none of a root.
    pub issuer: Option<usize>,
    /// Whether it is a CA certificate (RFC 5280 4.2.1.9).
    pub ca: bool,
    /// The path length, if there is one (RFC 5280 4.2.1.9).
    pub path_length: Option<u8>,
    /// The validity (RFC 5280 4.1.2.5).
    pub years: Years,
}

/// The history of so many steps.
pub fn history_of(alloc: Global, count: u32) -> Result<Vec<Step>, AllocError>
    ensures { IfOk result (λ steps. steps.items ≡ demo_history count) }
{
    let mut generator = Generator { state: count };
    let mut steps = Vec::new(alloc);
    for k in 0..count {
        steps.push(next_step(&mut generator, k as usize))?;
    }
    Ok(steps)
}

/// The step of this index.
fn next_step(generator: &mut Generator, k: usize) -> Step
    ensures step { result ≡ step_from k generator.old.state }
    ensures state { generator.new.state ≡ state_after generator.old.state 4 }
{
    let a = generator.draw() as usize;
    let b = generator.draw();
    let c = generator.draw();
    let d = generator.draw();
    Step {
        issuer: issuer_of(k, a),
        ca: b % 4 != 0,
        path_length: path_length_of(b),
        years: Years {
            first: 2000 + (c % 10) as u16,
            last: 2020 + (d % 20) as u16,
        },
    }
}

/// The issuer of the step of this index, by a drawn number.
fn issuer_of(k: usize, drawn: usize) -> Option<usize>
    ensures { result ≡ drawn_issuer k drawn }
{
    if k == 0 || drawn % 8 == 0 {
        None
    } else {
        Some(drawn % k)
    }
}

/// The path length, by a drawn number.
fn path_length_of(drawn: u32) -> Option<u8>
    ensures { result ≡ drawn_path_length drawn }
{
    if drawn / 4 % 3 == 0 {
        None
    } else {
        Some((drawn / 16 % 4) as u8)
    }
}
