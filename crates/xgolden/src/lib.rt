//! What the golden programs share: running over files of test vectors, a vector and its words,
//! output lines, whether values round-trip, the fields of extensions and attributes, and timing.
#![tactic(auto)]

mod attribute_details;
mod extension_details;
mod general_details;
mod line;
mod measure;
mod no_value;
mod program;
mod row;
mod unanswered;
mod values;
mod words;

pub use attribute_details::print_attribute;
pub use extension_details::{print_bits, print_extension};
pub use general_details::{print_general_name, print_general_names, print_time_form};
pub use line::Line;
pub use measure::{print_time, timed};
pub use no_value::NoValue;
pub use program::{answer_by, print_kinds, words_of};
pub use row::{Args, Row};
pub use unanswered::Unanswered;
pub use values::{are_equal, comes_back, equals, gives, gives_octets, value_of};
pub use words::{
    ca_flag_of, date_of, digest_of, flag_of, length_of, line_table_of, number_of, octets_of,
    table_of, text_of, word_of,
};
