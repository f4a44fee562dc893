// The flip: the same lists with the two sides exchanged.
ghost use Rattle.lists.specs.Rankings.{flipped};
ghost use Rattle.lists.specs.Evidence.Flipping.{flipped_lawful};

use crate::interface::Lists;
use crate::parties::{Party, Side};

#[derive(Drop)]
pub struct Flip<L> {
    pub lists: L,
}

impl<L: Lists> Lists for Flip<L> {
    ghost meaning = { λ x. flipped (L.Lists.meaning x.lists) };

    ghost lawful = { λ x. flipped_lawful (L.Lists.lawful x.lists) };

    fn count(&self, side: Side) -> u16 {
        self.lists.count(side.opposite())
    }

    fn length(&self, party: Party) -> u16 {
        self.lists.length(party.opposite())
    }

    fn entry(&self, party: Party, place: u16) -> Option<u16> {
        self.lists.entry(party.opposite(), place)
    }

    fn place(&self, party: Party, named: u16) -> Option<u16> {
        self.lists.place(party.opposite(), named)
    }
}
