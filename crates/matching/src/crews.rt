// What a crew of the lists below becomes: a lower crew, an upper crew, and a site that stands in for it.
ghost use Rattle.std.specs.Prelude.{◌≡◌, ◌+◌, ◌<◌, length};
ghost use Rattle.lists.specs.Rankings.{size, ranks, entry_at, place_of};
ghost use Rattle.lists.specs.declared.parties.Side.TheVariants.{Crew};
ghost use Rattle.matching.specs.TwoLevels.{stand_in_of, lower_list, upper_list, own_list};

use crate::copies::CrewCopy;
use lists::interface::Lists;
use lists::parties::{Party, Side};

#[derive(Drop)]
pub(crate) struct CrewBelow<L: Lists> {
    pub(crate) lists: L,
    pub(crate) crew: u16,
    ghost within: { crew < size (L.Lists.meaning lists) Crew },
}

impl<L: Lists> CrewBelow<L> {
    // The site that stands in for the crew.
    #[tactic(auto, using(crate::proofs::Few::few_parties))]
    pub(crate) fn stand_in(&self) -> u16
        ensures { result ≡ stand_in_of (L.Lists.meaning self.now.lists) self.now.crew }
    {
        self.lists.count(Side::Site) + self.crew
    }

    // How many sites its lower crew names, and its upper crew as well.
    #[tactic(auto, using(lists::proofs::Pigeonhole::length_few))]
    pub(crate) fn copy_length(&self) -> u16
        ensures { result ≡ length (ranks (L.Lists.meaning self.now.lists) Side.Crew self.now.crew) + 1 }
    {
        self.lists.length(Party::crew(self.crew)) + 1
    }
}

// The list of the lower crew: that of the crew, and the stand-in last.
impl<L: Lists> CrewBelow<L> {
    pub(crate) fn lower_entry(&self, place: u16) -> Option<u16>
        ensures { result ≡ entry_at (lower_list (L.Lists.meaning self.now.lists) self.now.crew) place }
    {
        if place == self.lists.length(Party::crew(self.crew)) {
            Some(self.stand_in())
        } else {
            self.lists.entry(Party::crew(self.crew), place)
        }
    }

    #[tactic(auto, using(crate::proofs::RoleLists::lower_places))]
    pub(crate) fn lower_place(&self, site: u16) -> Option<u16>
        ensures { result ≡ place_of (lower_list (L.Lists.meaning self.now.lists) self.now.crew) site }
    {
        if site == self.stand_in() {
            Some(self.lists.length(Party::crew(self.crew)))
        } else {
            self.lists.place(Party::crew(self.crew), site)
        }
    }
}

// The list of the upper crew: the stand-in first, and then that of the crew.
impl<L: Lists> CrewBelow<L> {
    pub(crate) fn upper_entry(&self, place: u16) -> Option<u16>
        ensures { result ≡ entry_at (upper_list (L.Lists.meaning self.now.lists) self.now.crew) place }
    {
        match place.checked_sub(1) {
            None => Some(self.stand_in()),
            Some(rest) => self.lists.entry(Party::crew(self.crew), rest),
        }
    }

    #[tactic(auto, using(lists::proofs::Pigeonhole::length_few))]
    pub(crate) fn upper_place(&self, site: u16) -> Option<u16>
        ensures { result ≡ place_of (upper_list (L.Lists.meaning self.now.lists) self.now.crew) site }
    {
        if site == self.stand_in() {
            return Some(0);
        }
        let place = self.lists.place(Party::crew(self.crew), site)?;
        Some(place + 1)
    }
}

// The list of the stand-in: the lower crew and then the upper one.
impl<L: Lists> CrewBelow<L> {
    #[tactic(auto, using(crate::proofs::Few::few_parties))]
    pub(crate) fn own_entry(&self, place: u16) -> Option<u16>
        ensures { result ≡ entry_at (own_list self.now.crew) place }
    {
        let crew = self.crew;
        match place {
            0 => Some(CrewCopy::Lower { crew }.number()),
            1 => Some(CrewCopy::Upper { crew }.number()),
            _ => None,
        }
    }

    pub(crate) fn own_place(&self, named: u16) -> Option<u16>
        ensures { result ≡ place_of (own_list self.now.crew) named }
    {
        match CrewCopy::from(named) {
            CrewCopy::Lower { crew } if crew == self.crew => Some(0),
            CrewCopy::Upper { crew } if crew == self.crew => Some(1),
            _ => None,
        }
    }
}
