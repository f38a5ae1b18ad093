// The kinds of blocks, terminals and instructions. A kind's number is its place among the variants
// of the Rust enum of that name, from 0.
ghost use Rattle.std.specs.Prelude.{◌≡◌, ℕ, List, length, refl};
ghost use Rattle.std.specs.List.{slice_get};
ghost use Rattle.react_compiler_hir.specs.Numbers.{block_kinds, terminal_kinds, instruction_kinds};

use crate::tables::row_at;
use std::fmt::Debug;

// What a row tells by a number.
pub trait Kind: Copy + Debug + 'static {
    // The kinds in the order of their numbers.
    ghost kinds: { List Self };

    // How many kinds there are.
    const COUNT: u32;

    ghost COUNT: { ℕ };

    // The kinds, each at the place of its number.
    fn all() -> &'static [Self]
        ensures { result.now ≡ kinds };

    // The kind with this number, if there is one. `TryFrom` would want an impl for each kind.
    fn from_number(number: u32) -> Option<Self>
        ensures { result ≡ slice_get kinds number }
    {
        row_at(Self::all(), number as usize)
    }

    // All kinds are counted.
    ghost counted: { COUNT ≡ length kinds };
}

// What a block is part of.
#[derive(Clone, Copy, Debug, PartialEq, Eq)]
pub enum BlockKind {
    Block,
    Value,
    Loop,
    Sequence,
    Catch,
}

// Each kind stands in its enum and once more in such a list: an enum tells neither how many cases it
// has nor which has a number.
const BLOCK_KINDS: [BlockKind; 5] = [
    BlockKind::Block,
    BlockKind::Value,
    BlockKind::Loop,
    BlockKind::Sequence,
    BlockKind::Catch,
];

impl Kind for BlockKind {
    ghost kinds = { block_kinds };

    const COUNT: u32 = 5;

    ghost COUNT = { 5 };

    ghost counted = { refl };

    fn all() -> &'static [BlockKind] {
        &BLOCK_KINDS
    }
}

// How a block ends.
#[derive(Clone, Copy, Debug, PartialEq, Eq)]
pub enum TerminalKind {
    Unreachable,
    Throw,
    Return,
    Goto,
    If,
    Branch,
    Switch,
    DoWhile,
    While,
    For,
    ForOf,
    ForIn,
    Logical,
    Ternary,
    Optional,
    Label,
    Sequence,
    MaybeThrow,
    Try,
    Scope,
    PrunedScope,
}

const TERMINAL_KINDS: [TerminalKind; 21] = [
    TerminalKind::Unreachable,
    TerminalKind::Throw,
    TerminalKind::Return,
    TerminalKind::Goto,
    TerminalKind::If,
    TerminalKind::Branch,
    TerminalKind::Switch,
    TerminalKind::DoWhile,
    TerminalKind::While,
    TerminalKind::For,
    TerminalKind::ForOf,
    TerminalKind::ForIn,
    TerminalKind::Logical,
    TerminalKind::Ternary,
    TerminalKind::Optional,
    TerminalKind::Label,
    TerminalKind::Sequence,
    TerminalKind::MaybeThrow,
    TerminalKind::Try,
    TerminalKind::Scope,
    TerminalKind::PrunedScope,
];

impl Kind for TerminalKind {
    ghost kinds = { terminal_kinds };

    const COUNT: u32 = 21;

    ghost COUNT = { 21 };

    ghost counted = { refl };

    fn all() -> &'static [TerminalKind] {
        &TERMINAL_KINDS
    }
}

// What an instruction computes.
#[derive(Clone, Copy, Debug, PartialEq, Eq)]
pub enum InstructionKind {
    LoadLocal,
    LoadContext,
    DeclareLocal,
    DeclareContext,
    StoreLocal,
    StoreContext,
    Destructure,
    Primitive,
    JSXText,
    BinaryExpression,
    NewExpression,
    CallExpression,
    MethodCall,
    UnaryExpression,
    TypeCastExpression,
    JsxExpression,
    ObjectExpression,
    ObjectMethod,
    ArrayExpression,
    JsxFragment,
    RegExpLiteral,
    MetaProperty,
    PropertyStore,
    PropertyLoad,
    PropertyDelete,
    ComputedStore,
    ComputedLoad,
    ComputedDelete,
    LoadGlobal,
    StoreGlobal,
    FunctionExpression,
    TaggedTemplateExpression,
    TemplateLiteral,
    Await,
    GetIterator,
    IteratorNext,
    NextPropertyOf,
    PrefixUpdate,
    PostfixUpdate,
    Debugger,
    StartMemoize,
    FinishMemoize,
}

const INSTRUCTION_KINDS: [InstructionKind; 42] = [
    InstructionKind::LoadLocal,
    InstructionKind::LoadContext,
    InstructionKind::DeclareLocal,
    InstructionKind::DeclareContext,
    InstructionKind::StoreLocal,
    InstructionKind::StoreContext,
    InstructionKind::Destructure,
    InstructionKind::Primitive,
    InstructionKind::JSXText,
    InstructionKind::BinaryExpression,
    InstructionKind::NewExpression,
    InstructionKind::CallExpression,
    InstructionKind::MethodCall,
    InstructionKind::UnaryExpression,
    InstructionKind::TypeCastExpression,
    InstructionKind::JsxExpression,
    InstructionKind::ObjectExpression,
    InstructionKind::ObjectMethod,
    InstructionKind::ArrayExpression,
    InstructionKind::JsxFragment,
    InstructionKind::RegExpLiteral,
    InstructionKind::MetaProperty,
    InstructionKind::PropertyStore,
    InstructionKind::PropertyLoad,
    InstructionKind::PropertyDelete,
    InstructionKind::ComputedStore,
    InstructionKind::ComputedLoad,
    InstructionKind::ComputedDelete,
    InstructionKind::LoadGlobal,
    InstructionKind::StoreGlobal,
    InstructionKind::FunctionExpression,
    InstructionKind::TaggedTemplateExpression,
    InstructionKind::TemplateLiteral,
    InstructionKind::Await,
    InstructionKind::GetIterator,
    InstructionKind::IteratorNext,
    InstructionKind::NextPropertyOf,
    InstructionKind::PrefixUpdate,
    InstructionKind::PostfixUpdate,
    InstructionKind::Debugger,
    InstructionKind::StartMemoize,
    InstructionKind::FinishMemoize,
];

impl Kind for InstructionKind {
    ghost kinds = { instruction_kinds };

    const COUNT: u32 = 42;

    ghost COUNT = { 42 };

    ghost counted = { refl };

    fn all() -> &'static [InstructionKind] {
        &INSTRUCTION_KINDS
    }
}
