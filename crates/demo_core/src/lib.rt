//! A demonstration of issuing: a history of steps drawn from a number.
#![tactic(auto)]

mod acceptance;
mod certificates;
mod demonstration;
mod generator;
mod history;
mod issuing;
mod laws;
mod program;
mod secret;
mod words;

pub use demonstration::{Demonstration, demonstrate};
pub use history::{Step, Years, history_of};
pub use laws::{
    certificates_are_small, demonstrations_are_determined, secrets_have_keys,
    step_certificates_are_determined, step_keys_are_determined,
    step_keys_are_refused_for_memory_alone, steps_are_drawn_in_order,
};
pub use program::{demonstration_line, run};
pub use secret::private_key_of;
pub use words::count_of;
