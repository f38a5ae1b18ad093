// Rows and words, each written as bytes with the high byte first.
ghost use Rattle.std.specs.Prelude.{◌≡◌, ◌++◌, OnOk};
ghost use Rattle.record_encoding.specs.Encoding.{bytes, rows};

use react_compiler_hir::Row;
use std::alloc::AllocError;

// Appends words to a record.
pub fn put_words(out: &mut Vec<u8>, words: &[u32]) -> Result<(), AllocError>
    ensures { OnOk result (out.new.items ≡ out.old.items ++ bytes words.now) }
{
    for word in words {
        out.extend_from_slice(&word.to_be_bytes())?;
    }
    Ok(())
}

// Appends rows to a record, one after another.
pub fn put_rows<const N: usize, R: Row<N>>(out: &mut Vec<u8>, items: &[R]) -> Result<(), AllocError>
    ensures { OnOk result (out.new.items ≡ out.old.items ++ rows R.words items.now) }
{
    for item in items {
        put_words(out, &item.words())?;
    }
    Ok(())
}
