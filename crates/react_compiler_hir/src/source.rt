// A function as the passes see it: three lists that a source tells.
ghost use Rattle.std.specs.Prelude.{◌≡◌, ℕ, length};
ghost use Rattle.std.specs.List.{slice_get};
ghost use Rattle.react_compiler_hir.specs.Function.{HirFunction, hir_function};

use crate::rows::{BlockRow, InstructionRow};
use crate::tables::row_at;

// What a source means is a function: its block rows, its instruction rows and its words. An answer
// at a position is the list's element there, and is absent exactly from the list's length on.
pub trait Source {
    // The number that tells this type of source from the others; function faults repeat it. It is no
    // enum, since a later crate may add a type of source.
    const KIND: u32;

    // The same number, for contracts: the check cannot tie a ghost constant to `KIND` in an impl
    // for a type that borrows, as both sources do.
    ghost tag: { ℕ };

    ghost function: { Self → HirFunction };

    fn source_kind(&self) -> u32
        ensures { result ≡ tag };

    fn block_count(&self) -> usize
        ensures { result ≡ length (function self.now).blocks };

    fn instruction_count(&self) -> usize
        ensures { result ≡ length (function self.now).instructions };

    fn word_count(&self) -> usize
        ensures { result ≡ length (function self.now).words };

    fn block(&self, position: usize) -> Option<BlockRow>
        ensures { result ≡ slice_get (function self.now).blocks position };

    fn instruction(&self, position: usize) -> Option<InstructionRow>
        ensures { result ≡ slice_get (function self.now).instructions position };

    fn word(&self, position: usize) -> Option<u32>
        ensures { result ≡ slice_get (function self.now).words position };
}

// A function in three tables of the host's, borrowed.
#[derive(Clone, Copy, Debug)]
pub struct TableSource<'a> {
    pub blocks: &'a [BlockRow],
    pub instructions: &'a [InstructionRow],
    pub words: &'a [u32],
}

// Six answers of one line each: the three tables have three types.
impl Source for TableSource<'_> {
    const KIND: u32 = 2;

    ghost tag = { 2 };

    ghost function = { λ s. hir_function s.blocks.now s.instructions.now s.words.now };

    fn source_kind(&self) -> u32 {
        Self::KIND
    }

    fn block_count(&self) -> usize {
        self.blocks.len()
    }

    fn instruction_count(&self) -> usize {
        self.instructions.len()
    }

    fn word_count(&self) -> usize {
        self.words.len()
    }

    fn block(&self, position: usize) -> Option<BlockRow> {
        row_at(self.blocks, position)
    }

    fn instruction(&self, position: usize) -> Option<InstructionRow> {
        row_at(self.instructions, position)
    }

    fn word(&self, position: usize) -> Option<u32> {
        row_at(self.words, position)
    }
}
