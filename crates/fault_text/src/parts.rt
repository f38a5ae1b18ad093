// The parts of a fault line that may be absent.
ghost use Rattle.std.specs.Prelude.{Some};
ghost use Rattle.fault_text.specs.Lines.{source_part, place_part};

use hir_faults::Place;
use std::fmt;

// The kind number of the source, or nothing.
#[derive(Clone, Copy)]
pub struct SourcePart(pub Option<u32>);

// The block and the step, or that there is no place.
#[derive(Clone, Copy)]
pub struct PlacePart(pub Option<Place>);

impl fmt::Display for SourcePart {
    ghost output = { λ p. Some (source_part p.0) };

    fn fmt<W: fmt::Write>(&self, f: &mut fmt::Formatter<W>) -> fmt::Result {
        match self.0 {
            Some(kind) => write!(f, ", source kind {kind}"),
            None => Ok(()),
        }
    }
}

impl fmt::Display for PlacePart {
    ghost output = { λ p. Some (place_part p.0) };

    fn fmt<W: fmt::Write>(&self, f: &mut fmt::Formatter<W>) -> fmt::Result {
        match self.0 {
            Some(Place { block, step }) => write!(f, ", block {block}, step {step}"),
            None => f.write_str(", no place"),
        }
    }
}
