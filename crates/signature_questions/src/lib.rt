//! Which signatures a check of a signature file, or of a chain of certificates, may ask a scheme
//! about, one after another; that nothing else about a scheme matters; and the program `picky_ask`,
//! which prints them.
#![tactic(auto)]

mod answering;
mod borrowed_key;
mod chain_questions;
mod command;
mod laws;
mod lines;
mod links;
mod message;
mod program;
mod question;
mod questions;
mod reading;
mod words;

pub use chain_questions::ChainQuestions;
pub use laws::{
    questions_are_determined, questions_are_listed, questions_decide, questions_decide_chains,
    shared_tables_decide, tables_decide,
};
pub use message::Message;
pub use program::{Commands, run};
pub use question::Question;
pub use questions::{Questions, questions_of};
