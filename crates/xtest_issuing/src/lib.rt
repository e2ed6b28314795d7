//! A CA that issues certificates under a demonstration scheme, and a scheme that accepts its
//! signatures and no others. The expected results are those of RFC 5280 6.1 for signatures that no
//! key of the CA made. Tests of the command `demo`, and of the certificates of a demonstration.
//!
//! A register of a CA under the demonstration scheme: what it issues, what it refuses and in which
//! order, and when its certificates are accepted. Each certificate is verified at the ends of the
//! validities, and must be accepted exactly at the dates at which the register calls it usable.
#![tactic(auto)]

#[cfg(test)]
mod accepting;
#[cfg(test)]
mod authority;
#[cfg(test)]
mod demonstration;
#[cfg(test)]
mod enrolling;
#[cfg(test)]
mod issuing;
mod laws;
#[cfg(test)]
mod refusing;
#[cfg(test)]
mod reissued;
#[cfg(test)]
mod sealed;
mod whole_rows;

pub use laws::listed_signatures_are_sealed;
pub use whole_rows::{WholeRow, WholeRows};
