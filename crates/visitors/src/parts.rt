// The part lists of rows.
ghost use Rattle.std.specs.Prelude.{◌≡◌};
ghost use Rattle.visitors.specs.Parts.{targets_of, reads_of, operands_of, successors_of};

use react_compiler_hir::{BlockRow, InstructionRow};

// So many words of a function, from `skip` words after `start` on. It is told by positions, since a
// source has no slice to lend.
#[derive(Clone, Copy, Debug, PartialEq, Eq)]
pub struct Part {
    pub start: u32,
    pub skip: u32,
    pub count: u32,
}

// A row's parts are four functions and no trait, since each names fields of its own row.
pub fn targets(row: &InstructionRow) -> Part
    ensures { result ≡ targets_of row.now }
{
    Part {
        start: row.list_start,
        skip: 0,
        count: row.target_count,
    }
}

pub fn reads(row: &InstructionRow) -> Part
    ensures { result ≡ reads_of row.now }
{
    Part {
        start: row.list_start,
        skip: row.target_count,
        count: row.read_count,
    }
}

pub fn operands(row: &BlockRow) -> Part
    ensures { result ≡ operands_of row.now }
{
    Part {
        start: row.list_start,
        skip: 0,
        count: row.operand_count,
    }
}

pub fn successors(row: &BlockRow) -> Part
    ensures { result ≡ successors_of row.now }
{
    Part {
        start: row.list_start,
        skip: row.operand_count,
        count: row.successor_count,
    }
}
