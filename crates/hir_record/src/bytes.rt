// The words and rows at a place of a record's bytes.
ghost use Rattle.std.specs.Prelude.{◌≡◌, ◌+◌, ◌*◌, ◌≤◌, length};
ghost use Rattle.hir_record.specs.Format.{word, words_from, row_at};

use react_compiler_hir::Row;
use std::array;

pub const WORD_BYTES: usize = 4;

// The word at a place, its high byte first.
fn read_word(bytes: &[u8], at: usize) -> u32
    requires { at + 4 ≤ length bytes.now }
    ensures { result ≡ word bytes.now at }
{
    u32::from_be_bytes([bytes[at], bytes[at + 1], bytes[at + 2], bytes[at + 3]])
}

// The words from a place on, one after another.
fn read_words<const N: usize>(bytes: &[u8], at: usize) -> [u32; N]
    requires { at + 4 * N ≤ length bytes.now }
    ensures { result ≡ words_from bytes.now at N }
{
    array::from_fn(
        |i| -> u32
            requires { at + 4 * i + 4 ≤ length bytes.now }
        { read_word(bytes, at + WORD_BYTES * i) },
    )
}

// The row at a place.
pub fn read_row<const N: usize, R: Row<N>>(bytes: &[u8], at: usize) -> R
    requires { at + 4 * N ≤ length bytes.now }
    ensures { result ≡ row_at R.of_words N bytes.now at }
{
    R::from_words(&read_words(bytes, at))
}
