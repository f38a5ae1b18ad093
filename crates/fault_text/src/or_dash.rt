// A number that may be absent.
ghost use Rattle.std.specs.Prelude.{Some};
ghost use Rattle.fault_text.specs.Lines.{number_or_dash};

use std::fmt;

// The number, or - in its place.
#[derive(Clone, Copy, Debug, PartialEq, Eq)]
pub struct OrDash(pub Option<u32>);

impl fmt::Display for OrDash {
    ghost output = { λ d. Some (number_or_dash d.0) };

    fn fmt<W: fmt::Write>(&self, f: &mut fmt::Formatter<W>) -> fmt::Result {
        match self.0 {
            Some(number) => number.fmt(f),
            None => f.pad("-"),
        }
    }
}
