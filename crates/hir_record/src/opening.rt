// A record's bytes as a source.
ghost use Rattle.std.specs.Prelude.{◌≡◌, ◌+◌, ◌*◌, ◌<◌, ◌≤◌, length};
ghost use Rattle.std.specs.List.{slice_get};
ghost use Rattle.hir_record.specs.Format.{every, row_at};
ghost use Rattle.hir_record.specs.Open.{opened, told};

use crate::bytes::{WORD_BYTES, read_row};
use crate::checking::check;
use crate::counts::BLOCKS_AT;
use crate::source::RecordSource;
use react_compiler_hir::{BlockRow, InstructionRow, Row, Source};

// The source of a record: it tells the record's own lists, or three empty ones where `check`
// refuses the bytes.
pub fn open(bytes: &[u8]) -> RecordSource<'_>
    ensures { told result ≡ opened bytes.now }
{
    let counts = check(bytes).unwrap_or_default();
    RecordSource { bytes, counts }
}

// The row at a position of a list with so many rows that begins at `start`.
#[tactic(auto, using(crate::proofs::Rows::nth_every, crate::proofs::Rows::nth_every_past))]
fn row<const N: usize, R: Row<N>>(
    bytes: &[u8],
    start: usize,
    rows: u32,
    position: usize,
) -> Option<R>
    requires { 0 < rows → start + 4 * N * rows ≤ length bytes.now }
    ensures { result ≡ slice_get (every (row_at R.of_words N bytes.now) start (4 * N) rows) position }
{
    if position < rows as usize {
        Some(read_row(bytes, start + WORD_BYTES * N * position))
    } else {
        None
    }
}

impl Source for RecordSource<'_> {
    const KIND: u32 = 1;

    ghost tag = { 1 };

    ghost function = { told };

    fn source_kind(&self) -> u32 {
        Self::KIND
    }

    #[tactic(auto, using(crate::proofs::Rows::length_every))]
    fn block_count(&self) -> usize {
        self.counts.blocks as usize
    }

    #[tactic(auto, using(crate::proofs::Rows::length_every))]
    fn instruction_count(&self) -> usize {
        self.counts.instructions as usize
    }

    #[tactic(auto, using(crate::proofs::Rows::length_every))]
    fn word_count(&self) -> usize {
        self.counts.words as usize
    }

    fn block(&self, position: usize) -> Option<BlockRow> {
        row(self.bytes, BLOCKS_AT, self.counts.blocks, position)
    }

    fn instruction(&self, position: usize) -> Option<InstructionRow> {
        let start = self.counts.instructions_at();
        row(self.bytes, start, self.counts.instructions, position)
    }

    #[tactic(auto, using(crate::proofs::Rows::every_word))]
    fn word(&self, position: usize) -> Option<u32> {
        let start = self.counts.words_at();
        row(self.bytes, start, self.counts.words, position)
    }
}
