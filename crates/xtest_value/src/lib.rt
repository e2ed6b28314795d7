//! Tests of what test vectors can't show, a hash, growing lists and values made by callers; of the
//! public calls of `der_core`, beside the vectors of `xgolden_der`; of those of `wincert_core`; and
//! of those of `sig_core`: digests, signature algorithms, schemes; and of what `key_core` signs and
//! accepts under a caller's own scheme, and of its texts. The vectors of `xgolden_value` are the
//! others.
#![tactic(auto)]

#[cfg(test)]
mod algorithms;
#[cfg(test)]
mod cursors;
#[cfg(test)]
mod decoding;
#[cfg(test)]
mod demo;
#[cfg(test)]
mod demo_rows;
#[cfg(test)]
mod digests;
#[cfg(test)]
mod elements;
#[cfg(test)]
mod encoding;
#[cfg(test)]
mod errors;
#[cfg(test)]
mod general_names;
#[cfg(test)]
mod identifiers;
#[cfg(test)]
mod kinds;
#[cfg(test)]
mod lists;
#[cfg(test)]
mod other_values;
#[cfg(test)]
mod reading;
#[cfg(test)]
mod refusals;
#[cfg(test)]
mod rows;
#[cfg(test)]
mod scheme;
#[cfg(test)]
mod signing;
#[cfg(test)]
mod tables;
#[cfg(test)]
mod texts;
#[cfg(test)]
mod values;
#[cfg(test)]
mod variants;
#[cfg(test)]
mod verdicts;
