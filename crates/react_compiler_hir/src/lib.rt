// Rows, kinds and sources: what every layer above speaks of. An inner crate.
#![tactic(auto)]

mod kinds;
mod limits;
mod row_words;
mod rows;
mod source;
mod tables;

pub use kinds::{BlockKind, InstructionKind, Kind, TerminalKind};
pub use limits::{
    MOST_BLOCKS, MOST_IDENTIFIERS, MOST_INSTRUCTIONS, MOST_SCOPES, MOST_WORDS, RECORD_VERSION,
};
pub use row_words::Row;
pub use rows::{BlockRow, IdentifierRow, InstructionRow, MutableRange, ScopeRow};
pub use source::{Source, TableSource};
pub use tables::row_at;
