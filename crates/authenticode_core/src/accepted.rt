//! The result of checking a signature.

ghost use Rattle.std.specs.Prelude.{◌≡◌, Some, IfOk};
ghost use Rattle.authenticode_core.specs.AcceptedText.{accepted_text, excuse_word};
ghost use Rattle.authenticode_core.specs.Inside.PolicySteps.{at_place};

use std::alloc::{AllocError, Global};
use std::fmt;
use x509_core::Places;

/// Why the expiry of a signer's certificate is excused.
#[derive(Clone, Copy, Debug, PartialEq, Eq)]
pub enum Excuse {
    /// Nothing is excused.
    None,
    /// A certificate in the bag has the extended key usage time stamping.
    Bag,
    /// No certificate in the bag has it, but one in the time-stamp token has, and the token's first
    /// certificate is linked to its others with another subject.
    Token,
}

/// Prints `none`, `bag` or `token`.
impl fmt::Display for Excuse {
    ghost output = { λ excuse. Some (excuse_word excuse) };

    fn fmt<W: fmt::Write>(&self, f: &mut fmt::Formatter<W>) -> fmt::Result {
        match self {
            Excuse::None => write!(f, "none"),
            Excuse::Bag => write!(f, "bag"),
            Excuse::Token => write!(f, "token"),
        }
    }
}

/// What is reported of an accepted signature.
#[derive(Debug, Drop)]
pub struct Accepted {
    /// The index of the signer's certificate in the bag, if basic validation or that certificate is
    /// checked.
    pub signer: Option<usize>,
    /// The indices of the certificates of the issuer path, nearest first; none if the signer's
    /// certificate or the chain isn't checked.
    pub path: Places,
    /// Why the expiry of the signer's certificate is excused.
    pub excuse: Excuse,
}

impl Accepted {
    /// The same with this index of the signer's certificate.
    pub(crate) fn at(self, place: usize) -> Accepted
        ensures { result ≡ at_place self place }
    {
        Accepted {
            signer: Some(place),
            ..self
        }
    }

    /// A copy of the value.
    pub fn try_clone(&self, alloc: Global) -> Result<Accepted, AllocError>
        ensures { IfOk result (λ copy. copy ≡ self.now) }
    {
        Ok(Accepted {
            signer: self.signer,
            path: self.path.try_clone(alloc)?,
            excuse: self.excuse,
        })
    }
}

/// Prints `signer=S path=P,P excuse=E`: the indices in decimal, nothing for none, those of the path
/// separated by commas.
impl fmt::Display for Accepted {
    ghost output = { λ accepted. Some (accepted_text accepted) };

    fn fmt<W: fmt::Write>(&self, f: &mut fmt::Formatter<W>) -> fmt::Result {
        write!(f, "signer=")?;
        if let Some(place) = self.signer {
            write!(f, "{place}")?;
        }
        write!(f, " path={} excuse={}", self.path, self.excuse)
    }
}
