// Loading a record into tables of several lengths, whose rows are marked before.
use crate::checksum::{Checksum, Fields};
use hir_faults::Fault;
use hir_record::load;
use react_compiler_hir::{IdentifierRow, MutableRange, ScopeRow};
use std::alloc::{AllocError, Global};
use std::fmt;

// Each word of a marked row.
const MARK: u32 = 2_863_311_530;

const MARKED: MutableRange = MutableRange {
    id: MARK,
    start: MARK,
    end: MARK,
};

const MARKED_SCOPE: ScopeRow = ScopeRow { range: MARKED };

const MARKED_IDENTIFIER: IdentifierRow = IdentifierRow {
    mutable_range: MARKED,
    scope: MARK,
    primitive: MARK,
};

// A load that was refused, and whether every row is as it was.
#[derive(Clone, Copy, Debug, PartialEq, Eq)]
pub struct Refusal {
    fault: Fault,
    kept: bool,
}

// What a load answered and left: the counts and all rows of both tables, summed, or the refusal.
// Nothing where there is no table as short as that.
#[derive(Clone, Copy, Debug, Default, PartialEq, Eq)]
pub struct Loaded(Option<Result<Checksum, Refusal>>);

impl fmt::Display for Loaded {
    fn fmt<W: fmt::Write>(&self, f: &mut fmt::Formatter<W>) -> fmt::Result {
        match self.0 {
            None => f.write_str("-"),
            Some(Ok(sum)) => write!(f, "ok:{sum}"),
            Some(Err(Refusal { fault, kept })) => {
                let rows = if kept { "kept" } else { "changed" };
                write!(f, "{}:{rows}", fault.number())
            }
        }
    }
}

// The two tables that a record is loaded into.
#[derive(Drop)]
struct Tables {
    scopes: Vec<ScopeRow>,
    identifiers: Vec<IdentifierRow>,
}

impl Tables {
    // So many rows, each of them marked.
    fn marked(heap: Global, scopes: u32, identifiers: u32) -> Result<Tables, AllocError> {
        Ok(Tables {
            scopes: vec![in heap; MARKED_SCOPE; scopes as usize]?,
            identifiers: vec![in heap; MARKED_IDENTIFIER; identifiers as usize]?,
        })
    }

    fn add_to(&self, sum: &mut Checksum) {
        sum.add_rows(self.scopes.iter().copied());
        sum.add_rows(self.identifiers.iter().copied());
    }

    fn sum(&self) -> Checksum {
        let mut sum = Checksum::new();
        self.add_to(&mut sum);
        sum
    }

    // Loads a record, and looks at the rows afterwards.
    fn load(&mut self, bytes: &[u8]) -> Result<Checksum, Refusal> {
        let before = self.sum();
        match load(
            bytes,
            self.scopes.as_mut_slice(),
            self.identifiers.as_mut_slice(),
        ) {
            Ok(counts) => {
                let mut sum = Checksum::new();
                counts.add_to(&mut sum);
                self.add_to(&mut sum);
                Ok(sum)
            }
            Err(e) => Err(Refusal {
                fault: e.fault,
                kept: self.sum() == before,
            }),
        }
    }
}

// Loads into marked tables of these lengths; an absent length stands for a table that cannot be.
pub fn load_marked(
    heap: Global,
    bytes: &[u8],
    scopes: Option<u32>,
    identifiers: Option<u32>,
) -> Result<Loaded, AllocError> {
    let (Some(scopes), Some(identifiers)) = (scopes, identifiers) else {
        return Ok(Loaded(None));
    };
    let mut tables = Tables::marked(heap, scopes, identifiers)?;
    Ok(Loaded(Some(tables.load(bytes))))
}
