// The rows of a function and of its two tables, as plain words: a host lends rows of any words, so
// kinds, scope and primitive word are numbers here, and what they mean is asked of them.
ghost use Rattle.std.specs.Prelude.{◌≡◌};
ghost use Rattle.react_compiler_hir.specs.Rows.{scope_of, primitive_is};

// A range of evaluation orders, from `start` up to but not `end`. Ranges with one id are one
// logical range.
#[derive(Clone, Copy, Debug, PartialEq, Eq)]
pub struct MutableRange {
    pub id: u32,
    pub start: u32,
    pub end: u32,
}

// A reactive scope.
#[derive(Clone, Copy, Debug, PartialEq, Eq)]
pub struct ScopeRow {
    pub range: MutableRange,
}

// An identifier: the range in which it is mutable, the position of its scope, and whether its
// type is primitive.
#[derive(Clone, Copy, Debug, PartialEq, Eq)]
pub struct IdentifierRow {
    pub mutable_range: MutableRange,
    pub scope: u32,
    pub primitive: u32,
}

impl IdentifierRow {
    // The scope word of an identifier that has no scope.
    pub const NO_SCOPE: u32 = 4_294_967_295;

    // The position of its scope, if it has one.
    pub fn scope_position(&self) -> Option<u32>
        ensures { result ≡ scope_of self.now }
    {
        if self.scope == Self::NO_SCOPE {
            None
        } else {
            Some(self.scope)
        }
    }

    // Whether its type is primitive: any word but 0 says so.
    pub fn is_primitive(&self) -> bool
        ensures { result ≡ primitive_is self.now }
    {
        self.primitive != 0
    }
}

// A block, by positions in other lists, as the record format has it: its run of instructions, its terminal, and the list of the terminal's operands and
// then its successors.
#[derive(Clone, Copy, Debug, PartialEq, Eq)]
pub struct BlockRow {
    pub kind: u32,
    pub first_instruction: u32,
    pub instruction_count: u32,
    pub terminal_kind: u32,
    pub terminal_number: u32,
    pub list_start: u32,
    pub operand_count: u32,
    pub successor_count: u32,
}

// An instruction: its evaluation order, and the list of its targets and then its reads.
#[derive(Clone, Copy, Debug, PartialEq, Eq)]
pub struct InstructionRow {
    pub number: u32,
    pub kind: u32,
    pub lvalue: u32,
    pub list_start: u32,
    pub target_count: u32,
    pub read_count: u32,
}
