// A sum of words that a change of any one of them changes.
ghost use Rattle.std.specs.Iterator.{IsFinite};

use hir_record::Counts;
use react_compiler_hir::{BlockRow, IdentifierRow, InstructionRow, ScopeRow};
use std::fmt;

#[derive(Clone, Copy, Debug, PartialEq, Eq)]
pub struct Checksum {
    value: u32,
}

// What is summed by its fields. A test names them itself, so that a wrong order in the code shows.
pub trait Fields: Copy {
    fn add_to(self, sum: &mut Checksum);
}

impl Checksum {
    pub fn new() -> Checksum {
        Checksum {
            value: 2_166_136_261,
        }
    }

    fn add_words(&mut self, words: &[u32]) {
        self.value = words.iter().fold(
            self.value,
            |sum, word| (sum ^ *word).wrapping_mul(16_777_619),
        );
    }

    pub fn add_rows<F: Fields, I: Iterator<Item = F> + Drop>(&mut self, rows: I)
        requires can { I.can_next rows }
        requires ends { IsFinite (I.remaining rows) }
    {
        for row in rows {
            row.add_to(self);
        }
    }
}

impl Fields for u32 {
    fn add_to(self, sum: &mut Checksum) {
        sum.add_words(&[self]);
    }
}

impl Fields for BlockRow {
    fn add_to(self, sum: &mut Checksum) {
        sum.add_words(&[
            self.kind,
            self.first_instruction,
            self.instruction_count,
            self.terminal_kind,
            self.terminal_number,
            self.list_start,
            self.operand_count,
            self.successor_count,
        ]);
    }
}

impl Fields for InstructionRow {
    fn add_to(self, sum: &mut Checksum) {
        sum.add_words(&[
            self.number,
            self.kind,
            self.lvalue,
            self.list_start,
            self.target_count,
            self.read_count,
        ]);
    }
}

impl Fields for ScopeRow {
    fn add_to(self, sum: &mut Checksum) {
        sum.add_words(&[self.range.id, self.range.start, self.range.end]);
    }
}

impl Fields for IdentifierRow {
    fn add_to(self, sum: &mut Checksum) {
        let range = self.mutable_range;
        sum.add_words(&[range.id, range.start, range.end, self.scope, self.primitive]);
    }
}

impl Fields for Counts {
    fn add_to(self, sum: &mut Checksum) {
        sum.add_words(&[
            self.blocks,
            self.instructions,
            self.words,
            self.scopes,
            self.identifiers,
        ]);
    }
}

impl fmt::Display for Checksum {
    fn fmt<W: fmt::Write>(&self, f: &mut fmt::Formatter<W>) -> fmt::Result {
        write!(f, "{:08x}", self.value)
    }
}
