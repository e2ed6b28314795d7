//! The distinguished encoding rules of ASN.1 (X.690), as far as certificates and signatures need
//! them: elements of definite length with tag numbers below 31, at most 64 levels deep. Elements
//! are tested and borrowed without copying, owned as raw octets, or built as trees; each structure
//! has one grammar, by which it is read from octets and written as trees.
#![tactic(auto)]

mod cursor;
mod elem;
mod error;
mod fault;
mod header;
mod hexadecimal;
mod kids;
mod laws;
mod leaves;
mod list;
mod new_kids;
mod octet_string;
mod octets;
mod optional;
mod raw;
mod reading;
mod sequence_of;
mod structure;
pub mod tag;
mod tagging;
mod testing;
mod tree;
mod within;
mod writing;

pub use cursor::Cursor;
pub use elem::Elem;
pub use error::DerError;
pub use fault::{DerFault, Malformed};
pub use hexadecimal::write_hexadecimal;
pub use kids::{Kids, three_kids, two_kids};
pub use laws::{
    no_encoding_begins_another, one_first_fault, read_back, small_elements_are_written,
    tests_of_a_head, values_are_read_again, values_are_their_octets,
};
pub use leaves::{bit_octets_at, boolean_at, expect_leaf, leaf, leaf_at, write_boolean};
pub use list::{
    ListOf, copy_each, has_each, has_list, read_each, read_list, write_each, write_list,
};
pub use new_kids::NewKids;
pub use octets::{Octets, is_same};
pub use optional::{
    copy_octets, copy_option, expect, expect_option, has_option, push_explicit, push_leaf,
    push_value, read_option,
};
pub use raw::Raw;
pub use reading::{read_exact, read_first};
pub use structure::Structure;
pub use tagging::{explicit, explicit_at};
pub use testing::{exact_elem, whole_element};
pub use tree::{MAX_NESTING, Tree, Trees};
pub use within::{has_within, read_within, write_within};
pub use writing::write;
