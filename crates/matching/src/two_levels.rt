// Two-level lists over any lists: every crew twice, lower and upper, and a stand-in site for each crew.
ghost use Rattle.std.specs.Prelude.{◌≡◌, ◌<◌, ◌≤◌, MatchOption};
ghost use Rattle.lists.specs.Rankings.{size, ranks, entry_at, place_of};
ghost use Rattle.matching.specs.Roles.{HasRole, role_list};
ghost use Rattle.matching.specs.TwoLevels.{split_list, fits_two_levels, two_levels_of};
ghost use Rattle.matching.specs.Evidence.TwoLevels.{two_levels_lawful};

use crate::copies::CrewCopy;
use crate::crews::CrewBelow;
use crate::roles::Role;
use lists::interface::Lists;
use lists::parties::{Party, Side};

// How many parties the lists below may have on a side.
const MOST_BELOW: u16 = 250;

// Whether lists have at most that many parties on each side.
pub(crate) fn few_enough<L: Lists>(lists: &L) -> bool
    ensures { result ≡ fits_two_levels (L.Lists.meaning lists.now) }
{
    lists.count(Side::Crew) <= MOST_BELOW && lists.count(Side::Site) <= MOST_BELOW
}

#[derive(Drop)]
pub struct TwoLevel<L> {
    pub lists: L,
}

// Who the parties are, by the lists below.
impl<L: Lists> TwoLevel<L> {
    // The role of a party, if there is such a party.
    fn role(&self, party: Party) -> Option<Role>
        ensures is { MatchOption result (size (two_levels_of (L.Lists.meaning self.now.lists)) party.side ≤ party.number) (HasRole (L.Lists.meaning self.now.lists) party) }
        ensures list { ranks (two_levels_of (L.Lists.meaning self.now.lists)) party.side party.number ≡ role_list (L.Lists.meaning self.now.lists) result }
    {
        if party.number >= self.count(party.side) {
            return None;
        }
        Some(match party.side {
            Side::Crew => Role::Copied(CrewCopy::from(party.number)),
            Side::Site => match party.number.checked_sub(self.lists.count(Side::Site)) {
                None => Role::Real { site: party.number },
                Some(crew) => Role::StandIn { crew },
            },
        })
    }

    // A crew of the lists below, by which its copies and its stand-in answer.
    fn below(&self, crew: u16) -> CrewBelow<&L>
        requires { crew < size (L.Lists.meaning self.now.lists) Side.Crew }
        ensures { (result.lists.now ≡ self.now.lists) × (result.crew ≡ crew) }
    {
        CrewBelow {
            lists: &self.lists,
            crew,
        }
    }
}

// The list of a site of the lists below: the upper copies of the crews that it names, and then the lower ones.
impl<L: Lists> TwoLevel<L> {
    fn split_entry(&self, site: u16, place: u16) -> Option<u16>
        ensures { result ≡ entry_at (split_list (ranks (L.Lists.meaning self.now.lists) Side.Site site)) place }
    {
        let length = self.lists.length(Party::site(site));
        let copy = match place.checked_sub(length) {
            None => CrewCopy::Upper {
                crew: self.lists.entry(Party::site(site), place)?,
            },
            Some(rest) => CrewCopy::Lower {
                crew: self.lists.entry(Party::site(site), rest)?,
            },
        };
        Some(copy.number())
    }

    #[tactic(auto, using(crate::proofs::RoleLists::split_places))]
    fn split_place(&self, site: u16, number: u16) -> Option<u16>
        ensures { result ≡ place_of (split_list (ranks (L.Lists.meaning self.now.lists) Side.Site site)) number }
    {
        match CrewCopy::from(number) {
            CrewCopy::Lower { crew } => {
                let place = self.lists.place(Party::site(site), crew)?;
                Some(self.lists.length(Party::site(site)) + place)
            }
            CrewCopy::Upper { crew } => self.lists.place(Party::site(site), crew),
        }
    }
}

impl<L: Lists> Lists for TwoLevel<L> {
    ghost meaning = { λ x. two_levels_of (L.Lists.meaning x.lists) };

    ghost lawful = { λ x. two_levels_lawful (L.Lists.lawful x.lists) };

    #[tactic(auto, using(crate::proofs::RoleLists::counts))]
    fn count(&self, side: Side) -> u16 {
        if !few_enough(&self.lists) {
            return 0;
        }
        match side {
            Side::Crew => 2 * self.lists.count(Side::Crew),
            Side::Site => self.lists.count(Side::Site) + self.lists.count(Side::Crew),
        }
    }

    #[tactic(auto, using(lists::proofs::Pigeonhole::length_few))]
    fn length(&self, party: Party) -> u16 {
        match self.role(party) {
            None => 0,
            Some(Role::Copied(CrewCopy::Lower { crew } | CrewCopy::Upper { crew })) => {
                self.below(crew).copy_length()
            }
            Some(Role::Real { site }) => 2 * self.lists.length(Party::site(site)),
            Some(Role::StandIn { .. }) => 2,
        }
    }

    fn entry(&self, party: Party, place: u16) -> Option<u16> {
        match self.role(party)? {
            Role::Copied(CrewCopy::Lower { crew }) => self.below(crew).lower_entry(place),
            Role::Copied(CrewCopy::Upper { crew }) => self.below(crew).upper_entry(place),
            Role::Real { site } => self.split_entry(site, place),
            Role::StandIn { crew } => self.below(crew).own_entry(place),
        }
    }

    fn place(&self, party: Party, named: u16) -> Option<u16> {
        match self.role(party)? {
            Role::Copied(CrewCopy::Lower { crew }) => self.below(crew).lower_place(named),
            Role::Copied(CrewCopy::Upper { crew }) => self.below(crew).upper_place(named),
            Role::Real { site } => self.split_place(site, named),
            Role::StandIn { crew } => self.below(crew).own_place(named),
        }
    }
}
