//! Families of inputs.

ghost use Rattle.std.specs.Prelude.{◌≤◌};
ghost use Rattle.xgolden_der.specs.declared.family.TheConstants.{MOST_OCTETS};

use anyhow::{Context, Result, bail};
use std::alloc::Global;

/// The maximal number of octets after a prefix.
const MOST_OCTETS: u8 = 3;

/// All inputs that are a prefix and `count` more octets.
#[derive(Debug, Drop)]
pub struct Family {
    pub prefix: Vec<u8>,
    pub count: u8,
    ghost short: { count ≤ MOST_OCTETS },
}

impl Family {
    /// The family of a prefix, in hexadecimal or `-` for none, and a decimal count.
    pub fn from_words(alloc: Global, prefix: &str, count: &str) -> Result<Family> {
        let prefix = octets_of(alloc, prefix)?;
        let count = count.parse::<u8>().context("reading the count")?;
        if count > MOST_OCTETS {
            bail!("a count of {count}, above {MOST_OCTETS}");
        }
        Ok(Family { prefix, count })
    }
}

/// Octets in hexadecimal, or `-` for none.
fn octets_of(alloc: Global, word: &str) -> Result<Vec<u8>> {
    if word == "-" {
        return Ok(Vec::new(alloc));
    }
    hex::decode(alloc, word).context("reading the prefix")
}
