// How many rows and words a record has, and the limits on them.
ghost use Rattle.std.specs.Prelude.{◌≡◌, ◌*◌, ◌^◌, ◌<◌, ◌≤◌, refl};
ghost use Rattle.std.proofs.Common.{rules};
ghost use Rattle.react_compiler_hir.specs.Places.{by_places};
ghost use Rattle.hir_record.specs.Format.{count_words, counts_of_words, over_limit, instructions_at, words_at, scopes_at, identifiers_at, record_length};

use crate::bytes::WORD_BYTES;
use react_compiler_hir::{
    BlockRow, IdentifierRow, InstructionRow, MOST_BLOCKS, MOST_IDENTIFIERS, MOST_INSTRUCTIONS,
    MOST_SCOPES, MOST_WORDS, Row, ScopeRow,
};

// The bytes of the mark, the version and the five counts; the blocks begin after them.
pub const BLOCKS_AT: usize = 25;

// How many bytes so many rows have.
fn bytes_of<const N: usize, R: Row<N>>(rows: u32) -> usize
    ensures { result ≡ 4 * N * rows }
{
    WORD_BYTES * N * rows as usize
}

#[derive(Clone, Copy, Debug, Default, PartialEq, Eq)]
pub struct Counts {
    pub blocks: u32,
    pub instructions: u32,
    pub words: u32,
    pub scopes: u32,
    pub identifiers: u32,
}

impl Counts {
    // The limits under the names by which a record's users know them.
    pub const MOST_BLOCKS: u32 = MOST_BLOCKS;

    pub const MOST_INSTRUCTIONS: u32 = MOST_INSTRUCTIONS;

    pub const MOST_WORDS: u32 = MOST_WORDS;

    pub const MOST_SCOPES: u32 = MOST_SCOPES;

    pub const MOST_IDENTIFIERS: u32 = MOST_IDENTIFIERS;

    // Whether a count is over its limit.
    pub(crate) fn over_limit(&self) -> bool
        ensures { result ≡ over_limit self.now }
    {
        self.blocks > Self::MOST_BLOCKS
            || self.instructions > Self::MOST_INSTRUCTIONS
            || self.words > Self::MOST_WORDS
            || self.scopes > Self::MOST_SCOPES
            || self.identifiers > Self::MOST_IDENTIFIERS
    }

    // Where the instructions begin, after the blocks. Each bound below is another number, and spares
    // its callers the sum.
    pub(crate) fn instructions_at(&self) -> usize
        ensures value { result ≡ instructions_at self.now }
        ensures bound { result < 2 ^ 40 }
    {
        BLOCKS_AT + bytes_of::<_, BlockRow>(self.blocks)
    }

    // Where the words begin, after the instructions.
    pub(crate) fn words_at(&self) -> usize
        ensures value { result ≡ words_at self.now }
        ensures bound { result < 2 ^ 41 }
    {
        self.instructions_at() + bytes_of::<_, InstructionRow>(self.instructions)
    }

    // Where the scopes begin, after the words.
    pub(crate) fn scopes_at(&self) -> usize
        ensures value { result ≡ scopes_at self.now }
        ensures bound { result < 2 ^ 42 }
    {
        self.words_at() + bytes_of::<_, u32>(self.words)
    }

    // Where the identifiers begin, after the scopes.
    pub(crate) fn identifiers_at(&self) -> usize
        ensures value { result ≡ identifiers_at self.now }
        ensures bound { result < 2 ^ 43 }
    {
        self.scopes_at() + bytes_of::<_, ScopeRow>(self.scopes)
    }

    // How many bytes a record with these counts has.
    pub(crate) fn record_length(&self) -> usize
        ensures { result ≡ record_length self.now }
    {
        self.identifiers_at() + bytes_of::<_, IdentifierRow>(self.identifiers)
    }
}

impl Row<5> for Counts {
    ghost words = { count_words };

    ghost of_words = { counts_of_words };

    ghost back = { λ c. refl };

    ghost forth = { by_places 5 };

    ghost few = { Prim.search rules };

    fn words(self) -> [u32; 5] {
        [
            self.blocks,
            self.instructions,
            self.words,
            self.scopes,
            self.identifiers,
        ]
    }

    fn from_words(all: &[u32; 5]) -> Counts {
        let [blocks, instructions, words, scopes, identifiers] = *all;
        Counts {
            blocks,
            instructions,
            words,
            scopes,
            identifiers,
        }
    }
}
