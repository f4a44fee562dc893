// The list of one party, with the place of everybody whom it names.
ghost use Rattle.std.specs.Prelude.{◌≡◌, ◌<◌, ◌≤◌, [], ◌∷◌, ◌++◌, length};
ghost use Rattle.lists.specs.Rankings.{place as place_in, entry_at, place_of};

use arrayvec::ArrayVec;
use std::marker::Model;

// How many parties a side may have.
pub(crate) const LIMIT: usize = 250;

#[derive(Default, Drop)]
pub(crate) struct Row {
    entries: ArrayVec<u16, LIMIT>,
    // By the number of a party, its place in the list; a table and no map, since the reader allocates nothing.
    places: [Option<u16>; LIMIT],
}

impl Model for Row {
    ghost use Rattle.std.specs.Prelude.{ℕ, List};
    ghost use Rattle.roster.specs.Held.{Placed};

    ghost Value = { List ℕ };

    ghost view = { λ r. r.entries.items };

    ghost invariant = { λ r. Placed r.entries.items r.places };
}

impl Row {
    // Those whom the list names, in its order.
    pub(crate) fn entries(&self) -> &[u16]
        ensures names { result.now ≡ self.now }
        ensures few { length self.now ≤ 250 }
    {
        self.entries.as_slice()
    }

    // How many parties the list names: a `usize` at most 250, for which a failing conversion would need a fault that cannot come.
    pub(crate) fn len(&self) -> u16
        ensures { result ≡ length self.now }
    {
        self.entries.len() as u16
    }

    // Whom the list names at a place.
    pub(crate) fn entry(&self, place: u16) -> Option<u16>
        ensures { result ≡ entry_at self.now place }
    {
        self.entries().get(usize::from(place)).copied()
    }

    // At which place the list names a party.
    pub(crate) fn place(&self, named: u16) -> Option<u16>
        ensures { result ≡ place_of self.now named }
    {
        self.places.get(usize::from(named)).copied().flatten()
    }

    // Names one more party, whom the list does not name yet.
    pub(crate) fn push(&mut self, named: u16)
        requires low { named < 250 }
        requires room { length self.old < 250 }
        requires absent { length self.old ≤ place_in self.old named }
        ensures { self.new ≡ self.old ++ named ∷ [] }
    {
        self.places[usize::from(named)] = Some(self.len());
        self.entries.push(named);
    }
}
