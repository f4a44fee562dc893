// The two stable plans at the ends of what stability allows.
ghost use Rattle.std.specs.Prelude.{◌≡◌, ◌≤◌, length, IfOk, ◌==◌, position, slice_index};
ghost use Rattle.lists.specs.Rankings.{flipped};
ghost use Rattle.matching.specs.Stability.{TheCrewBest};

use lists::flips::Flip;
use lists::interface::Lists;
use lists::parties::{Party, Side};
use matching::stable::stable_plan;
use std::alloc::{AllocError, Global};

// A plan as the stable call writes it, one number for each party of one side: 0 for none, else the partner's number plus 1.
#[derive(Drop)]
pub struct Pairing {
    side: Side,
    plan: Vec<u16>,
    ghost few: { length plan.items ≤ 500 },
}

impl Pairing {
    ghost use Rattle.planner.specs.Partners.{written, held, partners_of};

    // The stable plan that is the best for the crews of some lists, who stand for one side of the trial.
    fn best_for<L: Lists>(heap: Global, side: Side, lists: &L) -> Result<Pairing, AllocError>
        ensures { IfOk result (λ x. (x.side ≡ side) × TheCrewBest (L.Lists.meaning lists.now) x.plan.items) }
    {
        let mut plan = vec![in heap; 0; usize::from(lists.count(Side::Crew))]?;
        let Ok(()) = stable_plan(lists, plan.as_mut_slice()) else {
            // The plan has one number for each crew.
            unreachable!()
        };
        Ok(Pairing { side, plan })
    }

    // The stable plan in which every crew does as well as in any other.
    pub fn crew_best<L: Lists>(heap: Global, lists: &L) -> Result<Pairing, AllocError>
        ensures { IfOk result (λ x. (x.side ≡ Side.Crew) × TheCrewBest (L.Lists.meaning lists.now) x.plan.items) }
    {
        Pairing::best_for(heap, Side::Crew, lists)
    }

    // The stable plan in which every site does as well as in any other: the crews' best of the flip.
    pub fn site_best<L: Lists>(heap: Global, lists: &L) -> Result<Pairing, AllocError>
        ensures { IfOk result (λ x. (x.side ≡ Side.Site) × TheCrewBest (flipped (L.Lists.meaning lists.now)) x.plan.items) }
    {
        Pairing::best_for(heap, Side::Site, &Flip { lists })
    }

    // Whom a party works with.
    pub fn partner(&self, party: Party) -> Option<u16>
        ensures { result ≡ partners_of self.now party.side party.number }
    {
        if party.side == self.side {
            self.partner_of(party.number)
        } else {
            self.holder_of(party.number)
        }
    }

    // Whom the plan gives the party of a number on the side that it is written for.
    fn partner_of(&self, number: u16) -> Option<u16>
        ensures { result ≡ written (slice_index self.now.plan.items number) }
    {
        self.plan.get(usize::from(number))?.checked_sub(1)
    }

    // Who has the party of a number on the other side.
    // `position` counts in `usize`; the place in a plan fits 16 bits, and a failing conversion would need a fault that cannot come.
    fn holder_of(&self, number: u16) -> Option<u16>
        ensures { result ≡ held self.now.plan.items number }
    {
        let holder = place_of(&self.plan, u32::from(number) + 1)?;
        Some(holder as u16)
    }
}

// The first place in a plan where a number is written.
fn place_of(plan: &[u16], written: u32) -> Option<usize>
    ensures { result ≡ position (λ number. number == written) plan.now }
{
    plan.iter().position(|number| u32::from(*number) == written)
}
