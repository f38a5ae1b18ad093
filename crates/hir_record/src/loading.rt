// A record's scope and identifier rows, into tables of the host's.
ghost use Rattle.std.specs.Prelude.{◌≡◌, ◌+◌, ◌*◌, ◌≤◌, length};
ghost use Rattle.hir_record.specs.Format.{every, row_at};
ghost use Rattle.hir_record.specs.Load.{loaded, fitting, scopes_after, identifiers_after};

use crate::bytes::{WORD_BYTES, read_row};
use crate::checking::check;
use crate::counts::Counts;
use hir_faults::{Envelope, Fault, PassFault};
use react_compiler_hir::{IdentifierRow, Row, ScopeRow};

// The tests after those of `check`: whether both tables have room.
fn check_room(counts: Counts, scopes: usize, identifiers: usize) -> Result<Counts, Envelope<Fault>>
    ensures { result ≡ fitting scopes identifiers counts }
{
    if scopes < counts.scopes as usize || identifiers < counts.identifiers as usize {
        return Err(Envelope::new(None, PassFault::TooLittleMemory).into());
    }
    Ok(counts)
}

// Reads the rows of a table, one after another from `start` on.
#[tactic(auto, using(crate::proofs::Rows::fill_more, crate::proofs::Rows::filled))]
fn fill<const N: usize, R: Row<N>>(bytes: &[u8], start: usize, rows: &mut [R])
    requires { start + 4 * N * length rows.old ≤ length bytes.now }
    ensures { rows.new ≡ every (row_at R.of_words N bytes.now) start (4 * N) (length rows.old) }
{
    for (i, row) in rows.iter_mut().enumerate() {
        *row = read_row(bytes, start + WORD_BYTES * N * i);
    }
}

// Loads a record's rows into the front of two tables, which may be longer, and answers its
// counts. A refusal leaves both tables as they were.
pub fn load(
    bytes: &[u8],
    scopes: &mut [ScopeRow],
    identifiers: &mut [IdentifierRow],
) -> Result<Counts, Envelope<Fault>>
    ensures answer { result ≡ loaded bytes.now (length scopes.old) (length identifiers.old) }
    ensures scopes { scopes.new ≡ scopes_after bytes.now scopes.old identifiers.old }
    ensures identifiers { identifiers.new ≡ identifiers_after bytes.now scopes.old identifiers.old }
{
    let counts = check(bytes)?;
    let counts = check_room(counts, scopes.len(), identifiers.len())?;
    fill(
        bytes,
        counts.scopes_at(),
        &mut scopes[..counts.scopes as usize],
    );
    fill(
        bytes,
        counts.identifiers_at(),
        &mut identifiers[..counts.identifiers as usize],
    );
    Ok(counts)
}
