// A record's bytes as a source: the struct alone, since its ghost field may cite no definition
// that names it.
ghost use Rattle.std.specs.Prelude.{◌+◌, ◌-◌, ◌*◌, ◌≤◌, length};

use crate::counts::Counts;

// A function in a record's bytes, borrowed. Its counts are those of a record that fits the bytes,
// or all 0.
#[derive(Clone, Copy, Debug)]
pub struct RecordSource<'a> {
    pub(crate) bytes: &'a [u8],
    pub(crate) counts: Counts,
    ghost whole: { 32 * counts.blocks + 24 * counts.instructions + 4 * counts.words ≤ length bytes.now - 25 },
}
