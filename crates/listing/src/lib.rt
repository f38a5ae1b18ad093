// Readable listings of a function and its two tables, made into records. It serves tools and tests:
// nothing that reads a record builds on it.
#![tactic(auto)]

mod error;
mod fields;
mod kinds;
mod reading;
mod rows;

pub use error::{ListingError, Wanted};
pub use reading::{parse, record_of};
