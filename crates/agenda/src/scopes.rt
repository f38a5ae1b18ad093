// Entries for scopes, in the order in which they open and in the order in which they close.
ghost use Rattle.std.specs.Prelude.{◌≡◌, nat_lt};
ghost use Rattle.std.proofs.Common.{rules};
ghost use Rattle.agenda.specs.Scopes.{opening_numbers, opens_before, closing_numbers, closes_before};

use crate::entry::Entry;

// A scope with its range, and the place at which it was first named.
#[derive(Clone, Copy, Debug, PartialEq, Eq)]
pub struct ScopeEntry {
    pub scope: u32,
    pub start: u32,
    pub end: u32,
    pub named: u32,
}

impl ScopeEntry {
    // What cleared rows hold; a constant, since tables are made of it.
    pub const ZERO: ScopeEntry = ScopeEntry {
        scope: 0,
        start: 0,
        end: 0,
        named: 0,
    };

    fn named_before(&self, other: &ScopeEntry) -> bool
        ensures { result ≡ nat_lt self.now.named other.now.named }
    {
        self.named < other.named
    }
}

// The earlier start goes first; of equal starts the later end, and of equal ranges what was named earlier.
#[derive(Clone, Copy, Debug, PartialEq, Eq)]
pub struct OpeningEntry {
    pub row: ScopeEntry,
}

// Two orders are two impls of one trait: which numbers go first, and which way, is all that they say.
impl Entry for OpeningEntry {
    ghost compared = { λ x. opening_numbers x.row };

    ghost before = { λ x y. opens_before x.row y.row };

    ghost agree = { Prim.search rules };

    ghost one = { Prim.search rules };

    ghost transitive = { Prim.search rules };

    fn goes_before(&self, other: &OpeningEntry) -> bool {
        let (a, b) = (self.row, other.row);
        if a.start != b.start {
            return a.start < b.start;
        }
        if a.end != b.end {
            return a.end > b.end;
        }
        a.named_before(&b)
    }
}

// The earlier end goes first; of equal ends the later start, and of equal ranges what was named earlier.
#[derive(Clone, Copy, Debug, PartialEq, Eq)]
pub struct ClosingEntry {
    pub row: ScopeEntry,
}

impl Entry for ClosingEntry {
    ghost compared = { λ x. closing_numbers x.row };

    ghost before = { λ x y. closes_before x.row y.row };

    ghost agree = { Prim.search rules };

    ghost one = { Prim.search rules };

    ghost transitive = { Prim.search rules };

    fn goes_before(&self, other: &ClosingEntry) -> bool {
        let (a, b) = (self.row, other.row);
        if a.end != b.end {
            return a.end < b.end;
        }
        if a.start != b.start {
            return a.start > b.start;
        }
        a.named_before(&b)
    }
}
