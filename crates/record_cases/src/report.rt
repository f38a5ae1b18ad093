// All that is printed of one record.
use crate::loads::{Loaded, load_marked};
use crate::made::Name;
use crate::telling::tell;
use hir_faults::{Envelope, LayerFault, RecordFault};
use hir_record::{Counts, check, open};
use std::alloc::{AllocError, Global};
use std::{fmt, io};

// What `check` said.
#[derive(Clone, Copy, Debug, PartialEq, Eq)]
struct Checked(Result<Counts, Envelope<RecordFault>>);

// What each load did, behind a space.
#[derive(Clone, Copy, Debug, PartialEq, Eq)]
struct Loads([Loaded; 5]);

// How many rows the tables of a refused record have.
const SOME_ROWS: u32 = 2;

impl Checked {
    // The lengths of the two tables for each load: exact, both longer, either shorter, and none.
    fn lengths(&self) -> [(Option<u32>, Option<u32>); 5] {
        let (scopes, identifiers) = match self.0 {
            Ok(counts) => (counts.scopes, counts.identifiers),
            Err(_) => (SOME_ROWS, SOME_ROWS),
        };
        [
            (Some(scopes), Some(identifiers)),
            (scopes.checked_add(1), identifiers.checked_add(1)),
            (scopes.checked_sub(1), Some(identifiers)),
            (Some(scopes), identifiers.checked_sub(1)),
            (Some(0), Some(0)),
        ]
    }

    fn loads(&self, heap: Global, bytes: &[u8]) -> Result<Loads, AllocError> {
        let mut loads = [Loaded::default(); 5];
        for (slot, (scopes, identifiers)) in loads.iter_mut().zip(self.lengths()) {
            *slot = load_marked(heap, bytes, scopes, identifiers)?;
        }
        Ok(Loads(loads))
    }
}

impl fmt::Display for Checked {
    fn fmt<W: fmt::Write>(&self, f: &mut fmt::Formatter<W>) -> fmt::Result {
        match self.0 {
            Ok(counts) => write!(
                f,
                "ok {} {} {} {} {}",
                counts.blocks, counts.instructions, counts.words, counts.scopes, counts.identifiers
            ),
            Err(e) => write!(f, "fault {}", e.fault.number()),
        }
    }
}

impl fmt::Display for Loads {
    fn fmt<W: fmt::Write>(&self, f: &mut fmt::Formatter<W>) -> fmt::Result {
        for loaded in &self.0 {
            write!(f, " {loaded}")?;
        }
        Ok(())
    }
}

// Prints the line of a case, when all of it is known: a load without memory leaves no line begun.
pub fn report(rt: &HostRuntime, name: Name, bytes: &[u8]) -> io::Result<()> {
    let checked = Checked(check(bytes));
    let loads = checked.loads(rt.alloc(), bytes)?;
    println!(rt;
        "{name}: {checked}; told {}; load{loads}",
        tell(&open(bytes))
    )
}
