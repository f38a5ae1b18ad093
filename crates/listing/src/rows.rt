// Rows whose words stand on one line, behind the line's first word.
use crate::error::Problem;
use crate::fields::Words;
use react_compiler_hir::{IdentifierRow, Row};

// A row by its words alone.
pub fn row<const N: usize, R: Row<N>>(words: Words<'_>) -> Result<R, Problem> {
    let all = words.numbers::<N>(1)?;
    words.end(N + 1)?;
    Ok(R::from_words(&all))
}

// An identifier, whose scope may be `-`.
pub fn identifier_row(words: Words<'_>) -> Result<IdentifierRow, Problem> {
    let [id, start, stop] = words.numbers::<3>(1)?;
    let scope = words.scope(4)?;
    let primitive = words.number(5)?;
    words.end(6)?;
    Ok(IdentifierRow::from_words(&[id, start, stop, scope, primitive]))
}
