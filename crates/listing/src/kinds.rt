// Kinds by their names, which are those of the enums' variants.
use crate::error::Wanted;
use react_compiler_hir::{BlockKind, InstructionKind, Kind, TerminalKind};
use std::alloc::{AllocError, Global};

// A kind that a listing may name.
pub trait Named: Kind {
    // What a listing is to have where a kind is due.
    const WANTED: Wanted;
}

impl Named for BlockKind {
    const WANTED: Wanted = Wanted::BlockKind;
}

impl Named for InstructionKind {
    const WANTED: Wanted = Wanted::InstructionKind;
}

impl Named for TerminalKind {
    const WANTED: Wanted = Wanted::TerminalKind;
}

// The number of the kind with this name, if there is one.
pub fn number_named<K: Kind>(heap: Global, name: &str) -> Result<Option<u32>, AllocError> {
    for (number, kind) in (0..K::COUNT).zip(K::all()) {
        if format!(in heap; "{kind:?}")?.as_str() == name {
            return Ok(Some(number));
        }
    }
    Ok(None)
}
