// A page: a record's bytes, checked and loaded.
use hir_faults::{Envelope, Fault};
use hir_record::{Counts, check, load};
use react_compiler_hir::{IdentifierRow, Row, ScopeRow};
use std::alloc::{AllocError, Global};

#[derive(Drop)]
pub struct Page {
    pub counts: Counts,
    pub scopes: Vec<ScopeRow>,
    pub identifiers: Vec<IdentifierRow>,
}

// Why there is no page. A refusal is printed by its layout, so the error has no `Display` of its own.
#[derive(Debug, Drop)]
pub enum PageError {
    Refused(Envelope<Fault>),
    NoMemory,
}

impl From<Envelope<Fault>> for PageError {
    fn from(e: Envelope<Fault>) -> PageError {
        PageError::Refused(e)
    }
}

impl From<AllocError> for PageError {
    fn from(_e: AllocError) -> PageError {
        PageError::NoMemory
    }
}

// Loads a record into tables of just the rows that it counts, which are all 0 before.
pub fn page_of(heap: Global, bytes: &[u8]) -> Result<Page, PageError> {
    let counts = check(bytes).map_err(Envelope::<Fault>::from)?;
    let scope = ScopeRow::from_words(&[0; 3]);
    let identifier = IdentifierRow::from_words(&[0; 5]);
    let mut scopes = vec![in heap; scope; counts.scopes as usize]?;
    let mut identifiers = vec![in heap; identifier; counts.identifiers as usize]?;
    let counts = load(bytes, scopes.as_mut_slice(), identifiers.as_mut_slice())?;
    Ok(Page {
        counts,
        scopes,
        identifiers,
    })
}
