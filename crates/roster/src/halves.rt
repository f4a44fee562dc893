// The lists of one side.
ghost use Rattle.std.specs.Prelude.{◌≡◌, ◌<◌, ◌≤◌, [], ◌∷◌, ◌++◌, length, slice_index_or, IfNone, IfSome};
ghost use Rattle.lists.specs.Rankings.{entry_at, place_of};

use crate::rows::{LIMIT, Row};
use arrayvec::ArrayVec;
use std::marker::Model;

#[derive(Default, Drop)]
pub(crate) struct Half {
    rows: ArrayVec<Row, LIMIT>,
}

impl Model for Half {
    ghost use Rattle.std.specs.Prelude.{ℕ, List};

    ghost Value = { List (List ℕ) };

    ghost view = { λ h. h.rows.items };
}

impl Half {
    // The lists in the order of their parties; this and `count` hand the array on as a row does, and a trait for both would be longer.
    pub(crate) fn rows(&self) -> &[Row]
        ensures rows { result.now ≡ self.now }
        ensures few { length self.now ≤ 250 }
    {
        self.rows.as_slice()
    }

    // The list of a party, if the side has that party.
    fn row(&self, party: u16) -> Option<&Row>
        ensures none { IfNone result (slice_index_or self.now party [] ≡ []) }
        ensures some { IfSome result (λ row. row.now ≡ slice_index_or self.now party []) }
    {
        self.rows().get(usize::from(party))
    }

    // How many parties the side has: a `usize` at most 250, for which a failing conversion would need a fault that cannot come.
    pub(crate) fn count(&self) -> u16
        ensures { result ≡ length self.now }
    {
        self.rows.len() as u16
    }

    // How many parties a party names.
    pub(crate) fn length(&self, party: u16) -> u16
        ensures { result ≡ length (slice_index_or self.now party []) }
    {
        self.row(party).map_or(0, Row::len)
    }

    // Whom a party names at a place.
    pub(crate) fn entry(&self, party: u16, place: u16) -> Option<u16>
        ensures { result ≡ entry_at (slice_index_or self.now party []) place }
    {
        self.row(party)?.entry(place)
    }

    // At which place a party names another.
    pub(crate) fn place(&self, party: u16, named: u16) -> Option<u16>
        ensures { result ≡ place_of (slice_index_or self.now party []) named }
    {
        self.row(party)?.place(named)
    }

    // The list of one more party.
    pub(crate) fn push(&mut self, row: Row)
        requires { length self.old < 250 }
        ensures { self.new ≡ self.old ++ row ∷ [] }
    {
        self.rows.push(row);
    }
}
