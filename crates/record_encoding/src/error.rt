// Why five lists make no record.
ghost use Rattle.std.specs.Prelude.{◌≡◌, Some};
ghost use Rattle.record_encoding.specs.declared.error.EncodeError.TheVariants.{Memory};
ghost use Rattle.record_encoding.specs.Errors.{encode_error_text};

use std::alloc::{AllocError, AllocFailed};
use std::error::Error;
use std::fmt;

#[derive(Clone, Copy, Debug, PartialEq, Eq)]
pub enum EncodeError {
    // There was no memory for the bytes.
    Memory,
    // A list has more rows than a count of 32 bits can tell.
    TooMany,
}

impl fmt::Display for EncodeError {
    ghost output = { λ e. Some (encode_error_text e) };

    fn fmt<W: fmt::Write>(&self, f: &mut fmt::Formatter<W>) -> fmt::Result {
        f.write_str(match *self {
            EncodeError::Memory => "out of memory",
            EncodeError::TooMany => "a list has too many rows",
        })
    }
}

impl Error for EncodeError {}

impl From<AllocError> for EncodeError {
    ghost from_gives = { λ x y. y ≡ Memory };

    fn from(_e: AllocError) -> EncodeError {
        EncodeError::Memory
    }
}

impl<T: Drop> From<AllocFailed<T>> for EncodeError {
    ghost from_gives = { λ x y. y ≡ Memory };

    fn from(e: AllocFailed<T>) -> EncodeError {
        AllocError::from(e).into()
    }
}
