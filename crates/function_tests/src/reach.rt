// The second walk: the ranges of the scopes that are named. Its parameters are those of the first.
ghost use Rattle.std.specs.Prelude.{◌≡◌, ◌≤◌, length};
ghost use Rattle.visitors.specs.Mentions.{instructions_of};
ghost use Rattle.function_tests.specs.Ranges.{instruction_sound};
ghost use Rattle.function_tests.specs.Walks.{instruction_ranged, run_ranged, block_ranged, blocks_ranged};

use crate::each::test_each;
use crate::tested::Tested;
use hir_faults::{Envelope, Fault, Place, Reason};
use react_compiler_hir::{BlockRow, InstructionRow, Source};
use visitors::{operands, reads, targets};

impl<S: Source> Tested<'_, S> {
    // Whether all that an instruction mentions names scopes with sound ranges. The target of a
    // StoreContext is an operand too, but a second look at it would tell nothing new.
    fn instruction_sound(&self, row: &InstructionRow, last: u32) -> bool
        ensures { result ≡ instruction_sound last self.now.scopes self.now.identifiers self.now.function.words row.now }
    {
        self.names_sound(row.lvalue, last)
            && self.part_sound(targets(row), last)
            && self.part_sound(reads(row), last)
    }

    fn reach_instruction(
        &self,
        row: &InstructionRow,
        place: Place,
        last: u32,
    ) -> Result<(), Envelope<Fault>>
        ensures { result ≡ instruction_ranged self.now.kind self.now.function self.now.scopes self.now.identifiers last place.block place.step tt row.now }
    {
        if self.instruction_sound(row, last) {
            Ok(())
        } else {
            Err(self.fault_at(place, Reason::BadScopeRange))
        }
    }

    fn reach_run(&self, row: &BlockRow, block: u32, last: u32) -> Result<(), Envelope<Fault>>
        ensures { result ≡ run_ranged self.now.kind self.now.function self.now.scopes self.now.identifiers last block (instructions_of self.now.function.instructions row.now) }
    {
        test_each(
            |i| self.source.instruction(i),
            row.first_instruction,
            row.instruction_count,
            (),
            |step, (), instruction: InstructionRow| {
                self.reach_instruction(&instruction, Place { block, step }, last)
            },
        )
    }

    fn reach_block(&self, row: &BlockRow, block: u32, last: u32) -> Result<(), Envelope<Fault>>
        ensures { result ≡ block_ranged self.now.kind self.now.function self.now.scopes self.now.identifiers last block tt row.now }
    {
        self.reach_run(row, block, last)?;
        let step = row.instruction_count;
        if self.part_sound(operands(row), last) {
            Ok(())
        } else {
            let terminal = Place { block, step };
            Err(self.fault_at(terminal, Reason::BadScopeRange))
        }
    }

    // A walk has a body of its own, as the first.
    #[inline(never)]
    pub fn reach_blocks(&self, last: u32) -> Result<(), Envelope<Fault>>
        requires { length self.now.function.blocks ≤ 1024 }
        ensures { result ≡ blocks_ranged self.now.kind self.now.function self.now.scopes self.now.identifiers last self.now.function.blocks }
    {
        // A copy: with the calls below put into this body, it can stay in registers.
        let tested = Tested {
            source: self.source,
            scopes: self.scopes,
            identifiers: self.identifiers,
        };
        test_each(
            |i| tested.source.block(i),
            0,
            tested.source.block_count() as u32,
            (),
            |block, (), row: BlockRow| tested.reach_block(&row, block, last),
        )
    }
}
