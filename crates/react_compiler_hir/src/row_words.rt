// Rows as their words, in the order in which records, listings and lines have them.
ghost use Rattle.std.specs.Prelude.{◌≡◌, ℕ, ◌≤◌, List, [], ◌∷◌, length, refl};
ghost use Rattle.std.proofs.Common.{rules};
ghost use Rattle.react_compiler_hir.specs.Places.{by_places};
ghost use Rattle.react_compiler_hir.specs.RowWords.{word_of, block_words, block_of, instruction_words, instruction_of, scope_words, scope_row_of, identifier_words, identifier_of};

use crate::rows::{BlockRow, IdentifierRow, InstructionRow, MutableRange, ScopeRow};

// What is kept as a run of `N` words. Its ghost members name the words in the contracts above, where
// `From` has only a relation.
pub trait Row<const N: usize>: Copy {
    ghost words: { Self → List ℕ };

    ghost of_words: { List ℕ → Self };

    fn words(self) -> [u32; N]
        ensures { result ≡ words self };

    fn from_words(all: &[u32; N]) -> Self
        ensures { result ≡ of_words all.now };

    // The words give the row back.
    ghost back: { (x : Self) → of_words (words x) ≡ x };

    // The row of `N` words gives the words back.
    ghost forth: { (ws : List ℕ) → length ws ≡ N → words (of_words ws) ≡ ws };

    // There are few of them, so their bytes can be counted.
    ghost few: { N ≤ 8 };
}

impl Row<1> for u32 {
    ghost words = { λ w. w ∷ [] };

    ghost of_words = { word_of };

    ghost back = { λ w. refl };

    ghost forth = { by_places 1 };

    ghost few = { Prim.search rules };

    fn words(self) -> [u32; 1] {
        [self]
    }

    fn from_words(all: &[u32; 1]) -> u32 {
        let [word] = *all;
        word
    }
}

impl Row<3> for ScopeRow {
    ghost words = { scope_words };

    ghost of_words = { scope_row_of };

    ghost back = { λ s. refl };

    ghost forth = { by_places 3 };

    ghost few = { Prim.search rules };

    fn words(self) -> [u32; 3] {
        [self.range.id, self.range.start, self.range.end]
    }

    fn from_words(all: &[u32; 3]) -> ScopeRow {
        let [id, start, end] = *all;
        ScopeRow {
            range: MutableRange { id, start, end },
        }
    }
}

impl Row<5> for IdentifierRow {
    ghost words = { identifier_words };

    ghost of_words = { identifier_of };

    ghost back = { λ i. refl };

    ghost forth = { by_places 5 };

    ghost few = { Prim.search rules };

    fn words(self) -> [u32; 5] {
        let range = self.mutable_range;
        [range.id, range.start, range.end, self.scope, self.primitive]
    }

    fn from_words(all: &[u32; 5]) -> IdentifierRow {
        let [id, start, end, scope, primitive] = *all;
        IdentifierRow {
            mutable_range: MutableRange { id, start, end },
            scope,
            primitive,
        }
    }
}

impl Row<8> for BlockRow {
    ghost words = { block_words };

    ghost of_words = { block_of };

    ghost back = { λ b. refl };

    ghost forth = { by_places 8 };

    ghost few = { Prim.search rules };

    fn words(self) -> [u32; 8] {
        [
            self.kind,
            self.first_instruction,
            self.instruction_count,
            self.terminal_kind,
            self.terminal_number,
            self.list_start,
            self.operand_count,
            self.successor_count,
        ]
    }

    fn from_words(all: &[u32; 8]) -> BlockRow {
        let [
            kind,
            first_instruction,
            instruction_count,
            terminal_kind,
            terminal_number,
            list_start,
            operand_count,
            successor_count,
        ] = *all;
        BlockRow {
            kind,
            first_instruction,
            instruction_count,
            terminal_kind,
            terminal_number,
            list_start,
            operand_count,
            successor_count,
        }
    }
}

impl Row<6> for InstructionRow {
    ghost words = { instruction_words };

    ghost of_words = { instruction_of };

    ghost back = { λ i. refl };

    ghost forth = { by_places 6 };

    ghost few = { Prim.search rules };

    fn words(self) -> [u32; 6] {
        [
            self.number,
            self.kind,
            self.lvalue,
            self.list_start,
            self.target_count,
            self.read_count,
        ]
    }

    fn from_words(all: &[u32; 6]) -> InstructionRow {
        let [number, kind, lvalue, list_start, target_count, read_count] = *all;
        InstructionRow {
            number,
            kind,
            lvalue,
            list_start,
            target_count,
            read_count,
        }
    }
}
