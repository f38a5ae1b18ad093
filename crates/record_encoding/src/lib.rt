// The five lists of a record as its bytes. It serves tools and tests: nothing that reads a record
// builds on it.
#![tactic(auto)]

mod encode;
mod error;
mod row;

pub use encode::{Listing, count};
pub use error::EncodeError;
