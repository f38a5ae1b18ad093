// What each row of a function mentions: the shapes of instructions and terminals, and their part
// lists. An inner crate.
#![tactic(auto)]

mod arity;
mod parts;
mod shapes;

pub use arity::Arity;
pub use parts::{Part, operands, reads, successors, targets};
pub use shapes::{InstructionShape, TerminalShape, instruction_shape, terminal_shape};
