// Reading the entries, and adding one.
ghost use Rattle.std.specs.Prelude.{◌≡◌, ℕ, ◌+◌, ◌-◌, ◌<◌, ◌≤◌, [], ◌∷◌, ◌++◌, length, IfSome};
ghost use Rattle.entries.specs.Chains.{record_at, with_next};
ghost use Rattle.entries.specs.Views.{entries_of, LastOf, Added, begun, joined};

use super::Register;
use crate::record::Entry;

impl Register {
    /// No entries.
    pub fn new() -> Self
        ensures { entries_of result ≡ [] }
    {
        Register {
            all: [Entry::default(); 64],
            count: 0,
        }
    }

    /// The records of the entries.
    fn used(&self) -> &[Entry]
        ensures { result.now ≡ entries_of self.now }
    {
        &self.all[..self.count]
    }

    /// How many entries there are.
    pub fn count(&self) -> usize
        ensures is { result ≡ length (entries_of self.now) }
        ensures few { result ≤ 64 }
    {
        self.used().len()
    }

    /// The record of the entry of this index, from 0. For the crates above: there is to be such an entry.
    pub fn at(&self, index: usize) -> Entry
        requires { index < length (entries_of self.now) }
        ensures { result ≡ record_at (entries_of self.now) index }
    {
        self.used()[index]
    }

    /// The index of the last entry whose family begins with this one, if there is one.
    pub fn last_of(&self, first: usize) -> Option<usize>
        ensures { LastOf (entries_of self.now) first result }
    {
        self.used().iter().rposition(|entry| entry.first == first)
    }

    // That there is room is asked by each that adds: it is of the moment, and no fact of a register.

    /// Adds a record behind the others.
    fn push(&mut self, entry: Entry)
        requires room { length (entries_of self.old) < 64 }
        requires last { entry.next ≡ 0 }
        ensures { entries_of self.new ≡ entries_of self.old ++ (entry ∷ []) }
    {
        self.all[self.count] = entry;
        self.count += 1;
    }

    /// Adds an entry that begins a family. For the crates above: there is to be room.
    pub fn begin(&mut self, start: usize, edges: usize)
        requires { length (entries_of self.old) < 64 }
        ensures { entries_of self.new ≡ begun (entries_of self.old) start edges }
    {
        self.push(Entry {
            start,
            edges,
            first: self.count + 1,
            next: 0,
        });
    }

    /// Adds an entry to the end of a family, behind the entry of the index `last`. For the crates above: there is to be room.
    pub fn join(&mut self, start: usize, edges: usize, last: usize)
        requires { (length (entries_of self.old) < 64) × (last < length (entries_of self.old)) }
        ensures { entries_of self.new ≡ joined (entries_of self.old) start edges last }
    {
        let before = self.all[last];
        self.all[last] = Entry {
            next: self.count + 1,
            ..before
        };
        self.push(Entry {
            start,
            edges,
            first: before.first,
            next: 0,
        });
    }

    /// Adds an entry: to the end of the family that begins with the entry of the index `family`, or as the first of a family. For the
    /// crates above: there is to be room.
    pub fn add(&mut self, start: usize, edges: usize, family: Option<usize>)
        requires room { length (entries_of self.old) < 64 }
        requires family { IfSome family (λ k. k < length (entries_of self.old)) }
        ensures { Added (entries_of self.old) start edges family (entries_of self.new) }
    {
        match family.and_then(|first| self.last_of(first + 1)) {
            Some(last) => self.join(start, edges, last),
            None => self.begin(start, edges),
        }
    }
}
