// The words of a line, each by its place.
use crate::error::{Problem, Wanted};
use crate::kinds::{Named, number_named};
use react_compiler_hir::IdentifierRow;
use std::alloc::Global;
use std::ops::Range;

#[derive(Clone, Copy, Debug)]
pub struct Words<'a>(pub &'a [&'a str]);

// The places of the words of a list, without the names of its two parts.
#[derive(Drop)]
pub struct Parts {
    pub first: Range<usize>,
    pub second: Range<usize>,
}

impl Words<'_> {
    pub fn number(self, at: usize) -> Result<u32, Problem> {
        self.0
            .get(at)
            .and_then(|word| word.parse::<u32>().ok())
            .ok_or(Wanted::Number.at(at))
    }

    // Some numbers, one after another. Tried with `array::try_from_fn`, it stayed open that an array of
    // any length fits in memory.
    pub fn numbers<const N: usize>(self, at: usize) -> Result<[u32; N], Problem> {
        let mut all = [0u32; N];
        for (i, slot) in all.iter_mut().enumerate() {
            *slot = self.number(at.saturating_add(i))?;
        }
        Ok(all)
    }

    // A kind, by its name or by its number.
    pub fn kind<K: Named>(self, heap: Global, at: usize) -> Result<u32, Problem> {
        let wanted = K::WANTED.at(at);
        let word = self.0.get(at).ok_or(wanted)?;
        if let Ok(number) = word.parse::<u32>() {
            return Ok(number);
        }
        number_named::<K>(heap, word)?.ok_or(wanted)
    }

    // A scope's position, or `-` for none.
    pub fn scope(self, at: usize) -> Result<u32, Problem> {
        match self.0.get(at) {
            Some(&"-") => Ok(IdentifierRow::NO_SCOPE),
            _ => self.number(at),
        }
    }

    // Nothing stands there any more.
    pub fn end(self, at: usize) -> Result<(), Problem> {
        match self.0.get(at) {
            Some(_) => Err(Wanted::LineEnd.at(at)),
            None => Ok(()),
        }
    }

    // Finds the two parts of a list by their names. Either may be left out with its name.
    pub fn parts(self, at: usize, first: &str, second: &str) -> Result<Parts, Problem> {
        let cut = self
            .0
            .iter()
            .position(|word| *word == second)
            .unwrap_or(self.0.len());
        if at < cut && self.0[at] != first {
            return Err(Wanted::PartName.at(at));
        }
        Ok(Parts {
            first: at.saturating_add(1)..cut,
            second: cut.saturating_add(1)..self.0.len(),
        })
    }
}
