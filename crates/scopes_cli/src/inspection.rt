// The tests before a pass, with exactly enough memory.
use crate::page::Page;
use function_tests::{Memory, test_function};
use hir_faults::{Envelope, Fault};
use react_compiler_hir::Source;

// How many numbers the function has, or the first fault.
pub fn inspect<S: Source>(source: &S, page: &Page) -> Result<u32, Envelope<Fault>> {
    let memory = Memory::exactly_enough(source.block_count(), page.scopes.len());
    test_function(
        source,
        page.scopes.as_slice(),
        page.identifiers.as_slice(),
        memory,
    )
}
