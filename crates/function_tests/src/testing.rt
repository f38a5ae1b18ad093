// All the tests before a pass, in their order.
ghost use Rattle.std.specs.Prelude.{◌≡◌, length};
ghost use Rattle.function_tests.specs.Tests.{within_limits, tables_tested, function_tested};

use crate::memory::Memory;
use crate::places::memory_fault;
use crate::ranges::scopes_known;
use crate::tested::Tested;
use hir_faults::{Envelope, Fault, Reason};
use react_compiler_hir::{
    IdentifierRow, MOST_BLOCKS, MOST_IDENTIFIERS, MOST_INSTRUCTIONS, MOST_SCOPES, MOST_WORDS,
    ScopeRow, Source,
};

impl<S: Source> Tested<'_, S> {
    // The limits of a record's counts too, but here of lengths, which no `Counts` could hold.
    fn within_limits(&self) -> bool
        ensures { result ≡ within_limits self.now.function (length self.now.scopes) (length self.now.identifiers) }
    {
        self.source.block_count() <= MOST_BLOCKS as usize
            && self.source.instruction_count() <= MOST_INSTRUCTIONS as usize
            && self.source.word_count() <= MOST_WORDS as usize
            && self.scopes.len() <= MOST_SCOPES as usize
            && self.identifiers.len() <= MOST_IDENTIFIERS as usize
    }

    // The tests that look at no row of the function.
    fn test_tables(&self, memory: Memory) -> Result<(), Envelope<Fault>>
        ensures { result ≡ tables_tested self.now.kind self.now.function self.now.scopes self.now.identifiers memory }
    {
        if !self.within_limits() {
            return Err(self.fault_nowhere(Reason::OverLimit));
        }
        if !memory.enough(self.source.block_count(), self.scopes.len()) {
            return Err(memory_fault());
        }
        if self.source.block_count() == 0 {
            return Err(self.fault_nowhere(Reason::NoBlock));
        }
        if !scopes_known(self.identifiers, self.scopes.len()) {
            return Err(self.fault_nowhere(Reason::NotInTable));
        }
        Ok(())
    }
}

// The first fault that is due, or how many numbers the function has.
pub fn test_function<S: Source>(
    source: &S,
    scopes: &[ScopeRow],
    identifiers: &[IdentifierRow],
    memory: Memory,
) -> Result<u32, Envelope<Fault>>
    ensures { result ≡ function_tested S.tag (S.function source.now) scopes.now identifiers.now memory }
{
    let tested = Tested {
        source,
        scopes,
        identifiers,
    };
    tested.test_tables(memory)?;
    let last = tested.walk_blocks()?;
    tested.reach_blocks(last)?;
    Ok(last)
}
