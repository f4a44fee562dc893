// The ring: every party names the whole other side, going round from a start of its own.
ghost use Rattle.std.specs.Prelude.{◌≡◌, ◌+◌, ◌-◌, ◌%◌, ◌^◌, ◌<◌, ◌≤◌, if◌then◌else◌, Some, None, IfSome, MatchResult, nat_lt};
ghost use Rattle.lists.specs.Rings.{ring_lists, shift_of};
ghost use Rattle.lists.specs.Evidence.Rings.{ring_lawful};

use crate::faults::Fault;
use crate::interface::Lists;
use crate::parties::{Party, Side};

// Party i begins its list with number i and the shift of its side, modulo the size.
#[derive(Clone, Copy, PartialEq, Eq, Debug)]
pub struct Ring {
    size: u16,
    crews: u16,
    sites: u16,
    ghost few: { size ≤ 500 },
}

impl Ring {
    // A ring of some size, with the shifts of the crews and of the sites.
    pub fn new(size: u16, crews: u16, sites: u16) -> Result<Ring, Fault>
        ensures { MatchResult result (λ ring. (size ≤ 500) × (ring_lists ring.size ring.crews ring.sites ≡ ring_lists size crews sites)) (λ fault. (500 < size) × (fault ≡ Fault.RingTooLarge)) }
    {
        if size > 500 {
            return Err(Fault::RingTooLarge);
        }
        Ok(Ring { size, crews, sites })
    }

    // How many parties each side has.
    fn parties(&self) -> u16
        ensures { result ≡ self.now.size }
    {
        self.size
    }

    // Whether a number is that of a party.
    fn has(&self, number: u16) -> bool
        ensures { result ≡ nat_lt number self.now.size }
    {
        number < self.size
    }

    // How many parties the party of a number names.
    fn width(&self, number: u16) -> u16
        ensures { result ≡ (if nat_lt number self.now.size then self.now.size else 0) }
    {
        if self.has(number) { self.parties() } else { 0 }
    }

    // Where a party begins, counted on from number 0.
    fn start(&self, party: Party) -> Option<u32>
        ensures value { result ≡ (if nat_lt party.number self.now.size then Some (party.number + shift_of self.now.crews self.now.sites party.side) else None) }
        ensures small { IfSome result (λ start. start < 2 ^ 17) }
    {
        if !self.has(party.number) {
            return None;
        }
        let shift = match party.side {
            Side::Crew => self.crews,
            Side::Site => self.sites,
        };
        Some(u32::from(party.number) + u32::from(shift))
    }

    // Whom a list that begins at a start names at a place; a remainder by the size has 16 bits, which no `From` can know.
    fn ahead(&self, start: u32, place: u16) -> u16
        requires { (0 < self.now.size) × (start < 2 ^ 17) }
        ensures { result ≡ (start + place) % self.now.size }
    {
        ((start + u32::from(place)) % u32::from(self.size)) as u16
    }

    // At which place a list that begins at a start names a party; 16 bits hold it likewise.
    fn behind(&self, start: u32, named: u16) -> u16
        requires { 0 < self.now.size }
        ensures { result ≡ (named + (self.now.size - start % self.now.size)) % self.now.size }
    {
        let size = u32::from(self.size);
        ((u32::from(named) + (size - start % size)) % size) as u16
    }
}

impl Lists for Ring {
    ghost meaning = { λ x. ring_lists x.size x.crews x.sites };

    ghost lawful = { λ x. ring_lawful x.size x.crews x.sites x.few };

    #[tactic(auto, using(crate::specs::Evidence::Rings::size_ring))]
    fn count(&self, _side: Side) -> u16 {
        self.parties()
    }

    #[tactic(auto, using(crate::specs::Evidence::Rings::width_ring))]
    fn length(&self, party: Party) -> u16 {
        self.width(party.number)
    }

    #[tactic(auto, using(crate::specs::Evidence::Rings::entry_ring, crate::specs::Evidence::Rings::entry_ring_nobody, crate::specs::Evidence::Rings::entry_ring_past))]
    fn entry(&self, party: Party, place: u16) -> Option<u16> {
        let start = self.start(party)?;
        if self.has(place) {
            Some(self.ahead(start, place))
        } else {
            None
        }
    }

    #[tactic(auto, using(crate::specs::Evidence::Rings::place_ring, crate::specs::Evidence::Rings::place_ring_nobody, crate::specs::Evidence::Rings::place_ring_past))]
    fn place(&self, party: Party, named: u16) -> Option<u16> {
        let start = self.start(party)?;
        if self.has(named) {
            Some(self.behind(start, named))
        } else {
            None
        }
    }
}
