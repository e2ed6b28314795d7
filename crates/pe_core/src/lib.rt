//! The parts of a signed program of Windows (PE Format), and the digest that its signature is about
//! (Windows Authenticode Portable Executable Signature Format, "Calculating the PE Image Hash").
#![tactic(auto)]

mod entries;
mod error;
mod fields;
mod format;
mod hashing;
mod header;
mod image;
mod laws;
mod layout;
mod layout_error;

pub use entries::{Entries, Entry};
pub use error::PeError;
pub use image::PeImage;
pub use laws::{
    bound_octets_are_parts, bound_octets_fix_the_image, image_has_one_answer,
    layout_has_one_answer, table_has_one_list, whole_image_is_bound, written_table_is_its_entries,
};
pub use layout_error::{BadTable, LayoutError};
