// The lengths of the memories that a host lends to a pass.
ghost use Rattle.std.specs.Prelude.{◌≡◌, ◌≤◌};
ghost use Rattle.function_tests.specs.Tests.{memory_enough, enough_for_merge};

#[derive(Clone, Copy, Debug, PartialEq, Eq)]
pub enum Memory {
    Align {
        words: usize,
    },
    Merge {
        words: usize,
        openings: usize,
        closings: usize,
        roots: usize,
    },
}

// The work words that a pass wants for each block and for each scope.
const WORDS_EACH: usize = 8;

impl Memory {
    // Exactly what a merge wants for so many blocks and scopes; where that is more than any memory
    // can be, the most that can be said.
    pub fn exactly_enough(blocks: usize, scopes: usize) -> Memory
        ensures { result ≡ enough_for_merge blocks scopes }
    {
        Memory::Merge {
            words: WORDS_EACH.saturating_mul(blocks.saturating_add(scopes)),
            openings: scopes,
            closings: scopes,
            roots: scopes,
        }
    }

    pub(crate) fn enough(self, blocks: usize, scopes: usize) -> bool
        requires { (blocks ≤ 1024) × (scopes ≤ 1024) }
        ensures { result ≡ memory_enough blocks scopes self }
    {
        let wanted = WORDS_EACH * blocks + WORDS_EACH * scopes;
        match self {
            Memory::Align { words } => wanted <= words,
            Memory::Merge {
                words,
                openings,
                closings,
                roots,
            } => { wanted <= words && scopes <= openings && scopes <= closings && scopes <= roots }
        }
    }
}
