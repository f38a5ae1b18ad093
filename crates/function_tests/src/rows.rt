// What a row must be, on its own and beside the tables.
ghost use Rattle.std.specs.Prelude.{◌≡◌, ◌+◌, length, nat_le};
ghost use Rattle.visitors.specs.Parts.{words_of};
ghost use Rattle.function_tests.specs.Rows.{instruction_shaped, terminal_shaped, all_below, instruction_fits, block_fits, instruction_known, block_known};

use crate::each::all_words;
use crate::tested::Tested;
use react_compiler_hir::{BlockKind, BlockRow, InstructionRow, Kind, Source};
use visitors::{Part, instruction_shape, operands, reads, successors, targets, terminal_shape};

// An instruction and a terminal have tables, fields and a rule on successors of their own.
fn instruction_shaped(row: &InstructionRow) -> bool
    ensures { result ≡ instruction_shaped row.now }
{
    instruction_shape(row.kind).is_some_and(|shape| {
        shape.targets.allows(0, row.target_count) && shape.reads.allows(0, row.read_count)
    })
}

fn terminal_shaped(row: &BlockRow) -> bool
    ensures { result ≡ terminal_shaped row.now }
{
    let successors = row.successor_count;
    terminal_shape(row.terminal_kind).is_some_and(|shape| {
        shape.operands.allows(successors, row.operand_count)
            && shape.successors.allows(successors, successors)
    })
}

// Whether a run or list of two parts ends within a table of this length.
fn ends_within(start: u32, first: u32, second: u32, length: usize) -> bool
    ensures { result ≡ nat_le (start + first + second) length }
{
    start as usize + first as usize + second as usize <= length
}

// An instruction and a block are tested by functions of their own, since each has other fields.
impl<S: Source> Tested<'_, S> {
    pub fn instruction_fits(&self, row: &InstructionRow) -> bool
        ensures { result ≡ instruction_fits self.now.function row.now }
    {
        let words = self.source.word_count();
        instruction_shaped(row)
            && ends_within(row.list_start, row.target_count, row.read_count, words)
    }

    pub fn block_fits(&self, row: &BlockRow) -> bool
        ensures { result ≡ block_fits self.now.function row.now }
    {
        let instructions = self.source.instruction_count();
        let words = self.source.word_count();
        row.kind < BlockKind::COUNT
            && terminal_shaped(row)
            && ends_within(
                row.first_instruction,
                row.instruction_count,
                0,
                instructions,
            )
            && ends_within(
                row.list_start,
                row.operand_count,
                row.successor_count,
                words,
            )
    }

    // Whether every word of a part is a position below the limit.
    fn part_below(&self, part: Part, limit: usize) -> bool
        ensures { result ≡ all_below limit (words_of self.now.function.words part) }
    {
        all_words(self.source, part, |word| (word as usize) < limit)
    }

    pub fn instruction_known(&self, row: &InstructionRow) -> bool
        ensures { result ≡ instruction_known self.now.function (length self.now.identifiers) row.now }
    {
        let identifiers = self.identifiers.len();
        (row.lvalue as usize) < identifiers
            && self.part_below(targets(row), identifiers)
            && self.part_below(reads(row), identifiers)
    }

    pub fn block_known(&self, row: &BlockRow) -> bool
        ensures { result ≡ block_known self.now.function (length self.now.identifiers) row.now }
    {
        self.part_below(operands(row), self.identifiers.len())
            && self.part_below(successors(row), self.source.block_count())
    }
}
