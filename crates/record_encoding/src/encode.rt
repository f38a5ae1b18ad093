// A function and its two tables, encoded as a record.
ghost use Rattle.std.specs.Prelude.{◌≡◌, ◌^◌, ◌≤◌, [], IfOk, MatchResult, OnOk};
ghost use Rattle.record_encoding.specs.Encoding.{opening};
ghost use Rattle.record_encoding.specs.Listed.{counts_of, header_of, lists_of, record_of};

use crate::error::EncodeError;
use crate::row::{put_rows, put_words};
use react_compiler_hir::{BlockRow, IdentifierRow, InstructionRow, RECORD_VERSION, ScopeRow};
use std::alloc::{AllocError, Global};

// A reader takes the mark in a slice pattern, with what stands behind it, and a pattern takes no
// constant.
const MARK: [u8; 3] = *b"HIR";

// The five lists of a record, in their order.
#[derive(Drop)]
pub struct Listing {
    pub blocks: Vec<BlockRow>,
    pub instructions: Vec<InstructionRow>,
    pub words: Vec<u32>,
    pub scopes: Vec<ScopeRow>,
    pub identifiers: Vec<IdentifierRow>,
}

// A length as a count of a record, if 32 bits can tell it.
pub fn count(length: usize) -> Result<u32, EncodeError>
    ensures { MatchResult result (λ n. n ≡ length) (λ e. (e ≡ EncodeError.TooMany) × (2 ^ 32 ≤ length)) }
{
    u32::try_from(length).map_err(|_| EncodeError::TooMany)
}

// A record that has no more than its mark and its version.
fn begin(heap: Global) -> Result<Vec<u8>, AllocError>
    ensures { IfOk result (λ v. v.items ≡ opening) }
{
    let mut out = Vec::new(heap);
    out.extend_from_slice(&MARK)?;
    out.extend_from_slice(&RECORD_VERSION.to_be_bytes())?;
    Ok(out)
}

impl Listing {
    // Five empty lists.
    pub fn new(heap: Global) -> Listing
        ensures blocks { result.blocks.items ≡ [] }
        ensures instructions { result.instructions.items ≡ [] }
        ensures words { result.words.items ≡ [] }
        ensures scopes { result.scopes.items ≡ [] }
        ensures identifiers { result.identifiers.items ≡ [] }
    {
        Listing {
            blocks: Vec::new(heap),
            instructions: Vec::new(heap),
            words: Vec::new(heap),
            scopes: Vec::new(heap),
            identifiers: Vec::new(heap),
        }
    }

    fn counts(&self) -> Result<[u32; 5], EncodeError>
        ensures { IfOk result (λ cs. cs ≡ counts_of self.now) }
    {
        Ok([
            count(self.blocks.len())?,
            count(self.instructions.len())?,
            count(self.words.len())?,
            count(self.scopes.len())?,
            count(self.identifiers.len())?,
        ])
    }

    // The mark, the version and the counts.
    fn header(&self, heap: Global) -> Result<Vec<u8>, EncodeError>
        ensures { IfOk result (λ v. v.items ≡ header_of self.now) }
    {
        let counts = self.counts()?;
        let mut out = begin(heap)?;
        put_words(&mut out, &counts)?;
        Ok(out)
    }

    // Appends the lists to a record's header.
    fn put_lists(&self, out: &mut Vec<u8>) -> Result<(), AllocError>
        ensures { OnOk result (out.new.items ≡ lists_of out.old.items self.now) }
    {
        put_rows(out, self.blocks.as_slice())?;
        put_rows(out, self.instructions.as_slice())?;
        put_words(out, self.words.as_slice())?;
        put_rows(out, self.scopes.as_slice())?;
        put_rows(out, self.identifiers.as_slice())
    }

    // The bytes of the record that holds these lists. Only want of memory, or a list that no count
    // can tell, stands in the way: the limits on the counts are the reader's.
    pub fn record(&self, heap: Global) -> Result<Vec<u8>, EncodeError>
        ensures { IfOk result (λ v. v.items ≡ record_of self.now) }
    {
        let mut out = self.header(heap)?;
        self.put_lists(&mut out)?;
        Ok(out)
    }
}
