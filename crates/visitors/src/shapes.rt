// How many parts each kind of instruction and of terminal has.
ghost use Rattle.std.specs.Prelude.{◌≡◌};
ghost use Rattle.std.specs.List.{slice_get};
ghost use Rattle.visitors.specs.Shapes.{instruction_shapes, terminal_shapes};

use crate::arity::Arity;
use react_compiler_hir::row_at;

// The parts of an instruction: its targets, and what it reads beside them.
#[derive(Clone, Copy, Debug, PartialEq, Eq)]
pub struct InstructionShape {
    pub targets: Arity,
    pub reads: Arity,
}

// The parts of a terminal, and whether its last successor is its fallthrough.
#[derive(Clone, Copy, Debug, PartialEq, Eq)]
pub struct TerminalShape {
    pub operands: Arity,
    pub successors: Arity,
    pub falls_through: bool,
}

// The shapes of instructions, by what they write and read.
const NO_READ: InstructionShape = InstructionShape {
    targets: Arity::Exactly(0),
    reads: Arity::Exactly(0),
};

const ONE_READ: InstructionShape = InstructionShape {
    targets: Arity::Exactly(0),
    reads: Arity::Exactly(1),
};

const TWO_READS: InstructionShape = InstructionShape {
    targets: Arity::Exactly(0),
    reads: Arity::Exactly(2),
};

const THREE_READS: InstructionShape = InstructionShape {
    targets: Arity::Exactly(0),
    reads: Arity::Exactly(3),
};

const ANY_READS: InstructionShape = InstructionShape {
    targets: Arity::Exactly(0),
    reads: Arity::AtLeast(0),
};

const ONE_READ_OR_MORE: InstructionShape = InstructionShape {
    targets: Arity::Exactly(0),
    reads: Arity::AtLeast(1),
};

const TWO_READS_OR_MORE: InstructionShape = InstructionShape {
    targets: Arity::Exactly(0),
    reads: Arity::AtLeast(2),
};

const ONE_TARGET: InstructionShape = InstructionShape {
    targets: Arity::Exactly(1),
    reads: Arity::Exactly(0),
};

const ONE_TARGET_ONE_READ: InstructionShape = InstructionShape {
    targets: Arity::Exactly(1),
    reads: Arity::Exactly(1),
};

const ANY_TARGETS_ONE_READ: InstructionShape = InstructionShape {
    targets: Arity::AtLeast(0),
    reads: Arity::Exactly(1),
};

// The shapes of terminals: those that leave the function or go elsewhere have no fallthrough, and
// those with parts have their parts' blocks and then their fallthrough.
const ENDS: TerminalShape = TerminalShape {
    operands: Arity::Exactly(0),
    successors: Arity::Exactly(0),
    falls_through: false,
};

const ENDS_WITH_OPERAND: TerminalShape = TerminalShape {
    operands: Arity::Exactly(1),
    successors: Arity::Exactly(0),
    falls_through: false,
};

const JUMPS: TerminalShape = TerminalShape {
    operands: Arity::Exactly(0),
    successors: Arity::Exactly(1),
    falls_through: false,
};

const JUMPS_OR_THROWS: TerminalShape = TerminalShape {
    operands: Arity::Exactly(0),
    successors: Arity::Between(1, 2),
    falls_through: false,
};

const TESTS: TerminalShape = TerminalShape {
    operands: Arity::Exactly(1),
    successors: Arity::Exactly(3),
    falls_through: true,
};

const SWITCHES: TerminalShape = TerminalShape {
    operands: Arity::UpToSuccessors,
    successors: Arity::AtLeast(1),
    falls_through: true,
};

const ONE_PART: TerminalShape = TerminalShape {
    operands: Arity::Exactly(0),
    successors: Arity::Exactly(2),
    falls_through: true,
};

const TWO_PARTS: TerminalShape = TerminalShape {
    operands: Arity::Exactly(0),
    successors: Arity::Exactly(3),
    falls_through: true,
};

const THREE_PARTS: TerminalShape = TerminalShape {
    operands: Arity::Exactly(0),
    successors: Arity::Exactly(4),
    falls_through: true,
};

const THREE_PARTS_OR_FOUR: TerminalShape = TerminalShape {
    operands: Arity::Exactly(0),
    successors: Arity::Between(4, 5),
    falls_through: true,
};

const TRIES: TerminalShape = TerminalShape {
    operands: Arity::Between(0, 1),
    successors: Arity::Exactly(3),
    falls_through: true,
};

// By the number of the instruction's kind, as a table and not as a method of the kind: a row tells the
// number, and one table is what the definition has.
const INSTRUCTION_SHAPES: [InstructionShape; 42] = [
    ONE_READ, // LoadLocal
    ONE_READ, // LoadContext
    ONE_TARGET, // DeclareLocal
    ONE_TARGET, // DeclareContext
    ONE_TARGET_ONE_READ, // StoreLocal
    ONE_TARGET_ONE_READ, // StoreContext
    ANY_TARGETS_ONE_READ, // Destructure
    NO_READ, // Primitive
    NO_READ, // JSXText
    TWO_READS, // BinaryExpression
    ONE_READ_OR_MORE, // NewExpression
    ONE_READ_OR_MORE, // CallExpression
    TWO_READS_OR_MORE, // MethodCall
    ONE_READ, // UnaryExpression
    ONE_READ, // TypeCastExpression
    ANY_READS, // JsxExpression
    ANY_READS, // ObjectExpression
    ANY_READS, // ObjectMethod
    ANY_READS, // ArrayExpression
    ANY_READS, // JsxFragment
    NO_READ, // RegExpLiteral
    NO_READ, // MetaProperty
    TWO_READS, // PropertyStore
    ONE_READ, // PropertyLoad
    ONE_READ, // PropertyDelete
    THREE_READS, // ComputedStore
    TWO_READS, // ComputedLoad
    TWO_READS, // ComputedDelete
    NO_READ, // LoadGlobal
    ONE_READ, // StoreGlobal
    ANY_READS, // FunctionExpression
    ONE_READ_OR_MORE, // TaggedTemplateExpression
    ANY_READS, // TemplateLiteral
    ONE_READ, // Await
    ONE_READ, // GetIterator
    TWO_READS, // IteratorNext
    ONE_READ, // NextPropertyOf
    ONE_TARGET_ONE_READ, // PrefixUpdate
    ONE_TARGET_ONE_READ, // PostfixUpdate
    NO_READ, // Debugger
    ANY_READS, // StartMemoize
    ONE_READ, // FinishMemoize
];

// By the number of the terminal's kind.
const TERMINAL_SHAPES: [TerminalShape; 21] = [
    ENDS, // Unreachable
    ENDS_WITH_OPERAND, // Throw
    ENDS_WITH_OPERAND, // Return
    JUMPS, // Goto
    TESTS, // If
    TESTS, // Branch
    SWITCHES, // Switch
    TWO_PARTS, // DoWhile
    TWO_PARTS, // While
    THREE_PARTS_OR_FOUR, // For
    THREE_PARTS, // ForOf
    TWO_PARTS, // ForIn
    ONE_PART, // Logical
    ONE_PART, // Ternary
    ONE_PART, // Optional
    ONE_PART, // Label
    ONE_PART, // Sequence
    JUMPS_OR_THROWS, // MaybeThrow
    TRIES, // Try
    ONE_PART, // Scope
    ONE_PART, // PrunedScope
];

// The shape of a kind of instruction, if there is such a kind: a row's word may name none. The two
// functions differ in the table alone, and that is all that they have.
pub fn instruction_shape(kind: u32) -> Option<InstructionShape>
    ensures { result ≡ slice_get instruction_shapes kind }
{
    row_at(&INSTRUCTION_SHAPES, kind as usize)
}

// The shape of a kind of terminal, if there is such a kind.
pub fn terminal_shape(kind: u32) -> Option<TerminalShape>
    ensures { result ≡ slice_get terminal_shapes kind }
{
    row_at(&TERMINAL_SHAPES, kind as usize)
}
