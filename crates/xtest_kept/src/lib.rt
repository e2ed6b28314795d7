//! Tests of owned signed data and signatures: reading, writing, accessors, making and timestamping;
//! and of the public calls of `authenticode_core` with a signature file of the plain form, made by
//! `tools/cases/first_path.py` with Python's standard library. `xgolden_check` has the results for
//! changes of its parts, and of the validator of owned signatures, as data.
#![tactic(auto)]

#[cfg(test)]
mod alone;
#[cfg(test)]
mod building;
#[cfg(test)]
mod empty;
#[cfg(test)]
mod made;
#[cfg(test)]
mod making;
#[cfg(test)]
mod padded;
#[cfg(test)]
mod refusals;
#[cfg(test)]
mod requests;
#[cfg(test)]
mod samples;
#[cfg(test)]
mod signers;
#[cfg(test)]
mod stamps;
#[cfg(test)]
mod texts;
#[cfg(test)]
mod trust_lists;
#[cfg(test)]
mod values;
