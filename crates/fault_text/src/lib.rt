// A fault as text: one line for a person, and the same facts as words for a program.
#![tactic(auto)]

ghost use Rattle.std.specs.Prelude.{Some};
ghost use Rattle.fault_text.specs.Lines.{fault_line, plain_fault};

mod or_dash;
mod parts;

use hir_faults::{Envelope, Fault};
pub use or_dash::OrDash;
use parts::{PlacePart, SourcePart};
use std::fmt;

// Its number, what it means, its layer and its place.
#[derive(Clone, Copy, Debug, PartialEq, Eq)]
pub struct FaultLine(pub Envelope<Fault>);

// `fault NUMBER LAYER BLOCK STEP KIND`, with - for what is absent.
#[derive(Clone, Copy, Debug, PartialEq, Eq)]
pub struct PlainFault(pub Envelope<Fault>);

impl fmt::Display for FaultLine {
    ghost output = { λ l. Some (fault_line l.0) };

    fn fmt<W: fmt::Write>(&self, f: &mut fmt::Formatter<W>) -> fmt::Result {
        let Envelope {
            fault,
            layer,
            place,
        } = self.0;
        let number = fault.number();
        let source = SourcePart(fault.source_kind());
        let place = PlacePart(place);
        write!(f, "fault {number}: {fault} ({layer} layer{source}{place})")
    }
}

impl fmt::Display for PlainFault {
    ghost output = { λ l. Some (plain_fault l.0) };

    fn fmt<W: fmt::Write>(&self, f: &mut fmt::Formatter<W>) -> fmt::Result {
        let Envelope {
            fault,
            layer,
            place,
        } = self.0;
        write!(
            f,
            "fault {} {} {} {} {}",
            fault.number(),
            layer.number(),
            OrDash(place.map(|place| place.block)),
            OrDash(place.map(|place| place.step)),
            OrDash(fault.source_kind())
        )
    }
}
