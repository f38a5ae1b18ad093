// Counts at their limits, past them, and so large that a length computed in 32 bits would wrap.
use crate::made::{Name, record_with};
use crate::report::report;
use std::io;

// A list of a record: its limit, how many words a row has, and a count whose rows have a multiple of
// 4,294,967,296 bytes.
#[derive(Clone, Copy, Debug)]
struct Limited {
    name: &'static str,
    limit: u32,
    row: usize,
    wraps: u32,
}

// The five lists, in the order of their counts. A test has its own numbers, so that a wrong limit in
// the code shows.
const LISTS: [Limited; 5] = [
    Limited {
        name: "blocks",
        limit: 1_024,
        row: 8,
        wraps: 134_217_728,
    },
    Limited {
        name: "instructions",
        limit: 16_384,
        row: 6,
        wraps: 536_870_912,
    },
    Limited {
        name: "words",
        limit: 65_536,
        row: 1,
        wraps: 1_073_741_824,
    },
    Limited {
        name: "scopes",
        limit: 1_024,
        row: 3,
        wraps: 1_073_741_824,
    },
    Limited {
        name: "identifiers",
        limit: 16_384,
        row: 5,
        wraps: 1_073_741_824,
    },
];

impl Limited {
    // The bytes of a row.
    fn row_bytes(&self) -> usize {
        self.row.saturating_mul(4)
    }

    // The bytes of its rows when it is at its limit.
    fn whole(&self) -> usize {
        self.row_bytes().saturating_mul(self.limit as usize)
    }
}

// Counts of which only one is not 0, by its place among the lists: the five are tried in turn.
fn one_count(at: usize, count: u32) -> [u32; 5] {
    let mut counts = [0; 5];
    if let Some(slot) = counts.get_mut(at) {
        *slot = count;
    }
    counts
}

fn limit_of(rt: &HostRuntime, at: usize, list: &Limited) -> io::Result<()> {
    let heap = rt.alloc();
    let whole = list.whole();
    let counts = one_count(at, list.limit);
    let record = record_with(heap, counts, whole)?;
    report(rt, Name::Of(list.name, "at limit"), record.as_slice())?;
    let record = record_with(heap, counts, whole.saturating_sub(1))?;
    report(rt, Name::Of(list.name, "a byte short"), record.as_slice())?;
    let record = record_with(heap, counts, 0)?;
    report(rt, Name::Of(list.name, "without rows"), record.as_slice())?;
    let counts = one_count(at, list.limit.saturating_add(1));
    let record = record_with(heap, counts, whole.saturating_add(list.row_bytes()))?;
    report(rt, Name::Of(list.name, "past limit"), record.as_slice())
}

fn overflow_of(rt: &HostRuntime, at: usize, list: &Limited) -> io::Result<()> {
    let record = record_with(rt.alloc(), one_count(at, list.wraps), 0)?;
    report(rt, Name::Of(list.name, "wrap"), record.as_slice())?;
    let record = record_with(rt.alloc(), one_count(at, u32::MAX), 0)?;
    report(rt, Name::Of(list.name, "largest"), record.as_slice())
}

// Each list, and then all of them, at the limit and past it.
pub fn limits(rt: &HostRuntime) -> io::Result<()> {
    for (at, list) in LISTS.iter().enumerate() {
        limit_of(rt, at, list)?;
    }
    let counts = LISTS.map(|list| list.limit);
    let whole = LISTS
        .iter()
        .fold(0usize, |sum, list| sum.saturating_add(list.whole()));
    let record = record_with(rt.alloc(), counts, whole)?;
    report(rt, Name::Plain("all at limit"), record.as_slice())
}

// Counts whose rows no memory could hold.
pub fn overflows(rt: &HostRuntime) -> io::Result<()> {
    for (at, list) in LISTS.iter().enumerate() {
        overflow_of(rt, at, list)?;
    }
    let record = record_with(rt.alloc(), [2_147_483_648; 5], 0)?;
    report(rt, Name::Plain("all 2147483648"), record.as_slice())?;
    let record = record_with(rt.alloc(), [4_294_967_295; 5], 0)?;
    report(rt, Name::Plain("all 4294967295"), record.as_slice())
}
