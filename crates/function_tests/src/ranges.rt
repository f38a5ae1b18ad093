// Which scopes have a range that the function can have. How many numbers it has, `last`, is known only
// after the first walk: tried in a struct around what is tested, it made each clause longer by a path.
ghost use Rattle.std.specs.Prelude.{◌≡◌};
ghost use Rattle.visitors.specs.Parts.{words_of};
ghost use Rattle.function_tests.specs.Ranges.{range_sound, names_sound, all_sound, scope_known, all_known};

use crate::each::all_words;
use crate::tested::Tested;
use react_compiler_hir::{IdentifierRow, MutableRange, Source, row_at};
use visitors::Part;

// Whether a range is empty, or lies within the numbers of a function that has `last` of them.
fn range_sound(range: MutableRange, last: u32) -> bool
    ensures { result ≡ range_sound last range }
{
    range.start == range.end
        || (1 <= range.start
            && range.start <= range.end
            && u64::from(range.end) <= u64::from(last) + 1)
}

impl<S: Source> Tested<'_, S> {
    // Whether the scope that an identifier names, if it names one, has such a range.
    pub fn names_sound(&self, identifier: u32, last: u32) -> bool
        ensures { result ≡ names_sound last self.now.scopes self.now.identifiers identifier }
    {
        row_at(self.identifiers, identifier as usize)
            .and_then(|row| row.scope_position())
            .and_then(|position| row_at(self.scopes, position as usize))
            .is_none_or(|scope| range_sound(scope.range, last))
    }

    // Whether each identifier of a part does.
    pub fn part_sound(&self, part: Part, last: u32) -> bool
        ensures { result ≡ all_sound last self.now.scopes self.now.identifiers (words_of self.now.function.words part) }
    {
        all_words(self.source, part, |word| self.names_sound(word, last))
    }
}

fn scope_known(row: &IdentifierRow, scopes: usize) -> bool
    ensures { result ≡ scope_known scopes row.now }
{
    row.scope_position()
        .is_none_or(|position| (position as usize) < scopes)
}

// Whether the scope of every identifier is in the table.
pub fn scopes_known(identifiers: &[IdentifierRow], scopes: usize) -> bool
    ensures { result ≡ all_known scopes identifiers.now }
{
    identifiers.iter().all(|row| scope_known(row, scopes))
}
