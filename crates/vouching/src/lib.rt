//! From the questions to the status 0: where a verdict table accepts only what a verifier accepted,
//! acceptance by a program means vouched for by that verifier. Laws over runs of `picky_ask`,
//! `picky_check` and `picky_pe`.
#![tactic(auto)]

#[cfg(test)]
mod citing;
mod laws;

pub use laws::{
    accepted_runs_are_vouched_for, asked_runs_are_listed, listed_runs_are_vouched_for,
    verified_tables_decide,
};
