//! ASN.1 values by their contents octets (X.690 section 8): object identifiers, integers, bit
//! strings, IA5 strings and both times.
#![tactic(auto)]

mod bit_string;
mod calendar;
mod digits;
mod element;
mod error;
mod generalized_time;
mod ia5_string;
mod integer;
mod oid;
pub mod oids;
mod time;
mod time_laws;
mod utc_time;

pub use bit_string::BitString;
pub use error::{CharSetError, TextError};
pub use generalized_time::GeneralizedTime;
pub use ia5_string::Ia5String;
pub use integer::{IntegerAsn1, one_shortest_integer};
pub use oid::{LentIdentifier, ObjectIdentifier, text_and_contents_agree};
pub use time::Time;
pub use time_laws::times_are_their_fields;
pub use utc_time::UTCTime;
