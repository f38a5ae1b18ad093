// What the tests say of one case.
use crate::cases::Case;
use anyhow::anyhow;
use fault_text::PlainFault;
use function_tests::{Memory, test_function};
use hir_faults::{Envelope, Fault};
use hir_record::{check, open};
use listing::parse;
use react_compiler_hir::{Source, TableSource};
use record_encoding::Listing;
use std::fmt;

// How many numbers a sound function has, or the first fault.
#[derive(Clone, Copy, Debug, PartialEq, Eq)]
struct Verdict(Result<u32, Envelope<Fault>>);

impl fmt::Display for Verdict {
    fn fmt<W: fmt::Write>(&self, f: &mut fmt::Formatter<W>) -> fmt::Result {
        match self.0 {
            Ok(n) => write!(f, "sound {n}"),
            Err(e) => write!(f, "{}", PlainFault(e)),
        }
    }
}

// What a merge wants: 8 words for each block and each scope. A test has its own numbers.
fn exactly_enough(blocks: usize, scopes: usize) -> Memory {
    Memory::Merge {
        words: blocks.saturating_add(scopes).saturating_mul(8),
        openings: scopes,
        closings: scopes,
        roots: scopes,
    }
}

fn tested<S: Source>(source: &S, case: &Case, listing: &Listing) -> Verdict {
    let scopes = listing.scopes.as_slice();
    let memory = case
        .memory
        .unwrap_or_else(|| exactly_enough(source.block_count(), scopes.len()));
    Verdict(test_function(source, scopes, listing.identifiers.as_slice(), memory))
}

fn print_both(rt: &HostRuntime, case: &Case, listing: &Listing) -> anyhow::Result<()> {
    let tables = TableSource {
        blocks: listing.blocks.as_slice(),
        instructions: listing.instructions.as_slice(),
        words: listing.words.as_slice(),
    };
    print!(rt; "{}", tested(&tables, case, listing))?;
    let Ok(record) = listing.record(rt.alloc()) else {
        return Err(anyhow!("no record could be made"));
    };
    if check(record.as_slice()).is_ok() {
        println!(rt; " | {}", tested(&open(record.as_slice()), case, listing))?;
    } else {
        println!(rt; " | no record")?;
    }
    Ok(())
}

// One line: the case's name, the verdict over tables, the verdict over its record.
pub fn print_verdicts(rt: &HostRuntime, case: &Case) -> anyhow::Result<()> {
    print!(rt; "{}: ", case.name)?;
    match parse(rt.alloc(), case.listing.as_str()) {
        Ok(listing) => print_both(rt, case, &listing),
        Err(e) => {
            println!(rt; "{e}")?;
            Ok(())
        }
    }
}
