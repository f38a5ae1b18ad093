// What the layers are called, and what each fault means, for a person.
ghost use Rattle.std.specs.Prelude.{Some};
ghost use Rattle.hir_faults.specs.Meanings.{layer_text, record_meaning, reason_meaning, function_meaning, pass_meaning, fault_meaning};

use crate::fault::{Fault, FunctionFault, Layer, PassFault, Reason, RecordFault};
use std::error::Error;
use std::fmt;

impl fmt::Display for Layer {
    ghost output = { λ l. Some (layer_text l) };

    fn fmt<W: fmt::Write>(&self, f: &mut fmt::Formatter<W>) -> fmt::Result {
        f.write_str(match *self {
            Layer::Record => "record",
            Layer::Function => "function",
            Layer::Pass => "pass",
        })
    }
}

impl fmt::Display for RecordFault {
    ghost output = { λ f. Some (record_meaning f) };

    fn fmt<W: fmt::Write>(&self, f: &mut fmt::Formatter<W>) -> fmt::Result {
        f.write_str(match *self {
            RecordFault::TooShort => "a record has at least 25 bytes",
            RecordFault::NoMark => "a record begins with the bytes HIR",
            RecordFault::UnknownVersion => "the record's version is not 1",
            RecordFault::OverLimit => "a count of the record is over its limit",
            RecordFault::WrongLength => "the record is not as long as its counts make it",
        })
    }
}

impl fmt::Display for Reason {
    ghost output = { λ r. Some (reason_meaning r) };

    fn fmt<W: fmt::Write>(&self, f: &mut fmt::Formatter<W>) -> fmt::Result {
        f.write_str(match *self {
            Reason::OverLimit => "a list or table is over its limit",
            Reason::NoBlock => "the function has no block",
            Reason::OutOfRange => { "a field, run, list or part count is out of its range" }
            Reason::NotInTable => { "an identifier, scope or successor is not in its table" }
            Reason::OutOfOrder => "the numbers do not go 1, 2, 3 along the walk",
            Reason::BadScopeRange => { "a named scope runs backward or leaves the function" }
        })
    }
}

impl fmt::Display for FunctionFault {
    ghost output = { λ f. Some (function_meaning f) };

    fn fmt<W: fmt::Write>(&self, f: &mut fmt::Formatter<W>) -> fmt::Result {
        write!(f, "{}", self.reason)
    }
}

impl fmt::Display for PassFault {
    ghost output = { λ f. Some (pass_meaning f) };

    fn fmt<W: fmt::Write>(&self, f: &mut fmt::Formatter<W>) -> fmt::Result {
        f.write_str(match *self {
            PassFault::TooLittleMemory => "the memory given is too small",
            PassFault::SharedFallthrough => "the fallthrough of a bracket has a node already",
            PassFault::NoFallthrough => "a new node is due and the terminal has no fallthrough",
            PassFault::NoRangeId => "no range id is left",
        })
    }
}

impl fmt::Display for Fault {
    ghost output = { λ f. Some (fault_meaning f) };

    fn fmt<W: fmt::Write>(&self, f: &mut fmt::Formatter<W>) -> fmt::Result {
        match *self {
            Fault::Record(fault) => write!(f, "{fault}"),
            Fault::Function(fault) => write!(f, "{fault}"),
            Fault::Pass(fault) => write!(f, "{fault}"),
        }
    }
}

impl Error for RecordFault {}

impl Error for FunctionFault {}

impl Error for PassFault {}

impl Error for Fault {}
