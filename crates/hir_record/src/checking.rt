// Whether bytes are a record.
ghost use Rattle.std.specs.Prelude.{◌≡◌};
ghost use Rattle.hir_record.specs.Check.{checked, counted};

use crate::bytes::read_row;
use crate::counts::{BLOCKS_AT, Counts};
use hir_faults::{Envelope, RecordFault};
use react_compiler_hir::RECORD_VERSION;

// The tests of the counts, for a record of so many bytes.
fn check_counts(counts: Counts, bytes: usize) -> Result<Counts, Envelope<RecordFault>>
    ensures { result ≡ counted bytes counts }
{
    if counts.over_limit() {
        return Err(Envelope::new(None, RecordFault::OverLimit));
    }
    if bytes != counts.record_length() {
        return Err(Envelope::new(None, RecordFault::WrongLength));
    }
    Ok(counts)
}

// The counts of a record, or the first of its faults.
pub fn check(bytes: &[u8]) -> Result<Counts, Envelope<RecordFault>>
    ensures { result ≡ checked bytes.now }
{
    if bytes.len() < BLOCKS_AT {
        return Err(Envelope::new(None, RecordFault::TooShort));
    }
    // A pattern takes no constant, so the mark stands here in letters.
    let [b'H', b'I', b'R', high, low, rest @ ..] = bytes else {
        return Err(Envelope::new(None, RecordFault::NoMark));
    };
    if u16::from_be_bytes([*high, *low]) != RECORD_VERSION {
        return Err(Envelope::new(None, RecordFault::UnknownVersion));
    }
    check_counts(read_row(rest, 0), bytes.len())
}
