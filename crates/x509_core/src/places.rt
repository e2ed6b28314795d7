//! Indices in a list of certificates.

ghost use Rattle.std.specs.Prelude.{◌≡◌, ◌++◌, ◌∷◌, [], Some, IfOk, OnOk, OnErr};
ghost use Rattle.x509_core.specs.PlacesText.{places_text};

use std::alloc::{AllocError, Global};
use std::fmt;
use std::marker::Model;

/// Indices in a list of certificates, from 0.
#[derive(Debug, Drop)]
pub struct Places {
    items: Vec<usize>,
}

impl Model for Places {
    ghost use Rattle.std.specs.Prelude.{List, ℕ};

    ghost Value = { List ℕ };

    ghost view = { λ p. p.items.items };
}

impl Places {
    /// No indices.
    pub fn new(alloc: Global) -> Places
        ensures { result ≡ [] }
    {
        Places {
            items: Vec::new(alloc),
        }
    }

    /// Appends an index.
    pub fn push(&mut self, item: usize) -> Result<(), AllocError>
        ensures ok { OnOk result (self.new ≡ self.old ++ item ∷ []) }
        ensures err { OnErr result (self.new ≡ self.old) }
    {
        self.items.push(item)?;
        Ok(())
    }

    /// The indices in order.
    pub fn as_slice(&self) -> &[usize]
        ensures { result.now ≡ self.now }
    {
        &self.items
    }

    /// A copy of the value.
    pub fn try_clone(&self, alloc: Global) -> Result<Places, AllocError>
        ensures { IfOk result (λ copy. copy ≡ self.now) }
    {
        Ok(Places {
            items: Vec::from_slice(alloc, &self.items)?,
        })
    }
}

/// Prints the indices in decimal, separated by commas.
impl fmt::Display for Places {
    ghost output = { λ places. Some (places_text places) };

    fn fmt<W: fmt::Write>(&self, f: &mut fmt::Formatter<W>) -> fmt::Result {
        let Some((first, others)) = self.as_slice().split_first() else {
            return Ok(());
        };
        write!(f, "{first}")?;
        for place in others {
            write!(f, ",{place}")?;
        }
        Ok(())
    }
}
