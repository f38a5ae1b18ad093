// The faults that every layer gives, and the envelope that carries one up. An inner crate.
#![tactic(auto)]

mod fault;
mod meaning;

pub use fault::{
    Envelope, Fault, FunctionFault, Layer, LayerFault, PassFault, Place, Reason, RecordFault,
};
