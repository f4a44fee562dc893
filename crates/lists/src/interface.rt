// The interface of lists: what they mean, and the four questions.
ghost use Rattle.std.specs.Prelude.{◌≡◌, length};
ghost use Rattle.lists.specs.Rankings.{Rankings, Lawful, size, ranks, entry_at, place_of};

use crate::parties::{Party, Side};

// Ranked lists of crews and sites, from wherever they come.
pub trait Lists {
    ghost meaning: { Self → Rankings };

    // How many parties a side has.
    fn count(&self, side: Side) -> u16
        ensures { result ≡ size (meaning self.now) side };

    // How many parties a party names.
    fn length(&self, party: Party) -> u16
        ensures { result ≡ length (ranks (meaning self.now) party.side party.number) };

    // Whom a party names at a place.
    fn entry(&self, party: Party, place: u16) -> Option<u16>
        ensures { result ≡ entry_at (ranks (meaning self.now) party.side party.number) place };

    // At which place a party names another.
    fn place(&self, party: Party, named: u16) -> Option<u16>
        ensures { result ≡ place_of (ranks (meaning self.now) party.side party.number) named };

    // The lists keep the laws.
    ghost lawful: { (x : Self) → Lawful (meaning x) };
}

impl<'a, L: Lists> Lists for &'a L {
    ghost meaning = { λ x. L.Lists.meaning x.now };

    ghost lawful = { λ x. L.Lists.lawful x.now };

    fn count(&self, side: Side) -> u16 {
        (*self).count(side)
    }

    fn length(&self, party: Party) -> u16 {
        (*self).length(party)
    }

    fn entry(&self, party: Party, place: u16) -> Option<u16> {
        (*self).entry(party, place)
    }

    fn place(&self, party: Party, named: u16) -> Option<u16> {
        (*self).place(party, named)
    }
}
