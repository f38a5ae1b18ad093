// The first walk: rows and numbers. A row and its position are two parameters: `test_each` hands on
// the one and counts the other, and a pair of them would be made only to be taken apart.
ghost use Rattle.std.specs.Prelude.{◌≡◌, ◌≤◌, length};
ghost use Rattle.visitors.specs.Mentions.{instructions_of};
ghost use Rattle.function_tests.specs.Walks.{number_tested, instruction_tested, block_tested, run_walked, block_walked, blocks_walked};

use crate::each::test_each;
use crate::tested::Tested;
use hir_faults::{Envelope, Fault, Place, Reason};
use react_compiler_hir::{BlockRow, InstructionRow, Source};

impl<S: Source> Tested<'_, S> {
    // The number must be the next after those walked so far; it then says how many there are.
    fn test_number(&self, place: Place, walked: u32, number: u32) -> Result<u32, Envelope<Fault>>
        ensures { result ≡ number_tested self.now.kind place.block place.step walked number }
    {
        if walked.checked_add(1) == Some(number) {
            Ok(number)
        } else {
            Err(self.fault_at(place, Reason::OutOfOrder))
        }
    }

    fn test_instruction(
        &self,
        row: &InstructionRow,
        place: Place,
        walked: u32,
    ) -> Result<u32, Envelope<Fault>>
        ensures { result ≡ instruction_tested self.now.kind self.now.function (length self.now.identifiers) place.block place.step walked row.now }
    {
        if !self.instruction_fits(row) {
            return Err(self.fault_at(place, Reason::OutOfRange));
        }
        if !self.instruction_known(row) {
            return Err(self.fault_at(place, Reason::NotInTable));
        }
        self.test_number(place, walked, row.number)
    }

    fn test_block(&self, row: &BlockRow, block: u32) -> Result<(), Envelope<Fault>>
        ensures { result ≡ block_tested self.now.kind self.now.function (length self.now.identifiers) block row.now }
    {
        let entry = Place { block, step: 0 };
        if !self.block_fits(row) {
            return Err(self.fault_at(entry, Reason::OutOfRange));
        }
        if !self.block_known(row) {
            return Err(self.fault_at(entry, Reason::NotInTable));
        }
        Ok(())
    }

    // A block's instructions. A run that leaves the instructions ends with them.
    fn walk_run(&self, row: &BlockRow, block: u32, before: u32) -> Result<u32, Envelope<Fault>>
        ensures { result ≡ run_walked self.now.kind self.now.function (length self.now.identifiers) block before (instructions_of self.now.function.instructions row.now) }
    {
        test_each(
            |i| self.source.instruction(i),
            row.first_instruction,
            row.instruction_count,
            before,
            |step, walked, instruction: InstructionRow| {
                self.test_instruction(&instruction, Place { block, step }, walked)
            },
        )
    }

    fn walk_block(&self, row: &BlockRow, block: u32, before: u32) -> Result<u32, Envelope<Fault>>
        ensures { result ≡ block_walked self.now.kind self.now.function (length self.now.identifiers) block before row.now }
    {
        self.test_block(row, block)?;
        let walked = self.walk_run(row, block, before)?;
        let step = row.instruction_count;
        self.test_number(Place { block, step }, walked, row.terminal_number)
    }

    // Walks all blocks, and answers how many numbers there are. With both walks in one body there would
    // be too few registers.
    #[inline(never)]
    pub fn walk_blocks(&self) -> Result<u32, Envelope<Fault>>
        requires { length self.now.function.blocks ≤ 1024 }
        ensures { result ≡ blocks_walked self.now.kind self.now.function (length self.now.identifiers) self.now.function.blocks }
    {
        test_each(
            |i| self.source.block(i),
            0,
            self.source.block_count() as u32,
            0,
            |block, walked, row: BlockRow| self.walk_block(&row, block, walked),
        )
    }
}
