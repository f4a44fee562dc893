// A roster that was read, and its answers as lists.
ghost use Rattle.std.specs.Prelude.{◌≡◌, ◌≤◌, length};
ghost use Rattle.lists.specs.Rankings.{half as lists_on, Lawful};
ghost use Rattle.roster.specs.Held.{both_of};

use crate::halves::Half;
use lists::interface::Lists;
use lists::parties::{Party, Side};

// What was decoded, with the evidence that its lists are lawful and that no side has more parties than the format allows.
#[derive(Drop)]
pub struct Roster {
    pub(crate) crews: Half,
    pub(crate) sites: Half,
    ghost kept: { Lawful (both_of crews sites) },
    ghost few_crews: { length crews ≤ 250 },
    ghost few_sites: { length sites ≤ 250 },
}

impl Roster {
    // One of the two sides.
    fn half(&self, side: Side) -> &Half
        ensures { result.now ≡ lists_on (both_of self.now.crews self.now.sites) side }
    {
        match side {
            Side::Crew => &self.crews,
            Side::Site => &self.sites,
        }
    }
}

impl Lists for Roster {
    ghost meaning = { λ x. both_of x.crews x.sites };

    ghost lawful = { λ x. x.kept };

    fn count(&self, side: Side) -> u16 {
        self.half(side).count()
    }

    fn length(&self, party: Party) -> u16 {
        self.half(party.side).length(party.number)
    }

    fn entry(&self, party: Party, place: u16) -> Option<u16> {
        self.half(party.side).entry(party.number, place)
    }

    fn place(&self, party: Party, named: u16) -> Option<u16> {
        self.half(party.side).place(party.number, named)
    }
}
