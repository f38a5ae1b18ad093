// A list that stays sorted, over lent rows.
ghost use Rattle.std.specs.Prelude.{◌≡◌, ◌<◌, ◌≤◌, false, [], ◌∷◌, length, IfSome, if◌then◌else◌, MatchOption, OnErr, is_ok, nat_lt, Some, codes};
ghost use Rattle.std.specs.List.{AllByRecursion};
ghost use Rattle.std.specs.List.Sorted.{IsPermutation};
ghost use Rattle.agenda.specs.Order.{insert, Ordered};

use crate::entry::Entry;
use std::error::Error;
use std::fmt;

// The entries stand in `rows` from `head` up to `tail`, the first at `head`. The rows are lent by the host, since no pass
// allocates.
#[derive(Debug, Drop)]
pub struct Agenda<'a, E> {
    rows: &'a mut [E],
    head: usize,
    tail: usize,
    ghost low: { head ≤ tail },
    ghost high: { tail ≤ length rows.now },
}

// No row is free.
#[derive(Clone, Copy, Debug, PartialEq, Eq)]
pub struct Full;

impl fmt::Display for Full {
    ghost output = { λ _. Some (codes "no row is free") };

    fn fmt<W: fmt::Write>(&self, f: &mut fmt::Formatter<W>) -> fmt::Result {
        f.write_str("no row is free")
    }
}

impl Error for Full {}

impl<'a, E: Entry> Agenda<'a, E> {
    ghost use Rattle.agenda.specs.Entries.{entries};

    // An empty agenda that has room for as many entries as there are rows.
    pub fn new(rows: &'a mut [E]) -> Agenda<'a, E>
        ensures entries { entries result ≡ [] }
        ensures rows { result.rows.now ≡ rows.old }
        ensures lender { result.rows.ghost_name ≡ rows.entry.ghost_name }
    {
        Agenda {
            rows,
            head: 0,
            tail: 0,
        }
    }
}

// That a call keeps the room and the lender is said of before and after, so it stands in each contract
// and in no field.
impl<E: Entry> Agenda<'_, E> {
    ghost use Rattle.agenda.specs.Entries.{entries};

    // How many entries it holds.
    pub fn len(&self) -> usize
        ensures { result ≡ length (entries self.now) }
    {
        self.tail - self.head
    }

    // Adds an entry behind the last one that it does not go before. Where no row is free, it stays as it is.
    pub fn add(&mut self, added: E) -> Result<(), Full>
        ensures is { is_ok result ≡ nat_lt (length (entries self.old)) (length self.old.rows.now) }
        ensures entries { entries self.new ≡ (if is_ok result then insert E.before added (entries self.old) else entries self.old) }
        ensures full { OnErr result (self.new ≡ self.old) }
        ensures ordered { Ordered E.before (entries self.old) → Ordered E.before (entries self.new) }
        ensures same { IsPermutation (if is_ok result then added ∷ entries self.old else entries self.old) (entries self.new) }
        ensures room { length self.new.rows.now ≡ length self.old.rows.now }
        ensures lender { self.new.rows.ghost_name ≡ self.old.rows.ghost_name }
    {
        if self.len() == self.rows.len() {
            return Err(Full);
        }
        self.make_room();
        self.place(added);
        Ok(())
    }

    // Takes out the first entry. It costs the same however many there are.
    pub fn take_first(&mut self) -> Option<E>
        ensures is { MatchOption result ((entries self.old ≡ []) × (entries self.new ≡ [])) (λ e. entries self.old ≡ e ∷ entries self.new) }
        ensures first { IfSome result (λ e. (Ordered E.before (entries self.old) → AllByRecursion (λ y. E.before y e ≡ false) (entries self.new) × Ordered E.before (entries self.new))) }
        ensures rows { self.new.rows.now ≡ self.old.rows.now }
        ensures lender { self.new.rows.ghost_name ≡ self.old.rows.ghost_name }
    {
        let first = *self.held().first()?;
        self.head += 1;
        Some(first)
    }

    fn held(&self) -> &[E]
        ensures { result.now ≡ entries self.now }
    {
        &self.rows[self.head..self.tail]
    }

    // Leaves a free row behind the last entry. Rows whose entries were taken are used again once there is no other.
    fn make_room(&mut self)
        requires { length (entries self.old) < length self.old.rows.now }
        ensures entries { entries self.new ≡ entries self.old }
        ensures free { self.new.tail < length self.new.rows.now }
        ensures room { length self.new.rows.now ≡ length self.old.rows.now }
        ensures lender { self.new.rows.ghost_name ≡ self.old.rows.ghost_name }
    {
        if self.tail < self.rows.len() {
            return;
        }
        let count = self.len();
        self.rows.copy_within(self.head..self.tail, 0);
        self.head = 0;
        self.tail = count;
    }

    // Moves up by one row what the entry goes before, and puts the entry there. It looks from the end on, since most
    // entries come nearly in order.
    fn place(&mut self, added: E)
        requires { self.old.tail < length self.old.rows.now }
        ensures entries { entries self.new ≡ insert E.before added (entries self.old) }
        ensures room { length self.new.rows.now ≡ length self.old.rows.now }
        ensures lender { self.new.rows.ghost_name ≡ self.old.rows.ghost_name }
    {
        let mut place = self.tail;
        for i in (self.head..self.tail).rev() {
            let entry = self.rows[i];
            if !added.goes_before(&entry) {
                break;
            }
            self.rows[i + 1] = entry;
            place = i;
        }
        self.rows[place] = added;
        self.tail += 1;
    }
}
