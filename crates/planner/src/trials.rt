// A trial as text, from the bytes of a roster or from a ring.
ghost use Rattle.std.specs.Prelude.{◌≡◌, ◌<◌, ◌≤◌, IfOk, IfErr, Some, None, Err, nat_le, string_bytes};
ghost use Rattle.lists.specs.Order.{unless};
ghost use Rattle.lists.specs.Rings.{ring_lists};
ghost use Rattle.roster.specs.FirstFault.{first_fault};
ghost use Rattle.roster.specs.Layout.{shown};
ghost use Rattle.planner.specs.Trials.{TrialText, Stops};

use crate::pairings::Pairing;
use crate::reports;
use crate::troubles::Trouble;
use lists::faults::Fault;
use lists::interface::Lists;
use lists::rings::Ring;
use roster::reader;
use std::alloc::{AllocError, Global};

// The two stable plans of some lists side by side.
fn both_plans<L: Lists>(heap: Global, lists: &L) -> Result<String, AllocError>
    ensures { IfOk result (λ s. TrialText (L.Lists.meaning lists.now) (string_bytes s)) }
{
    let crew_best = Pairing::crew_best(heap, lists)?;
    let site_best = Pairing::site_best(heap, lists)?;
    reports::trial(heap, lists, &crew_best, &site_best)
}

// The trial in the bytes of a roster.
pub fn of_roster(heap: Global, bytes: &[u8]) -> Result<String, Trouble>
    ensures text { IfOk result (λ s. (first_fault bytes.now ≡ None) × TrialText (shown bytes.now) (string_bytes s)) }
    ensures refusal { (f : Fault) → first_fault bytes.now ≡ Some f → result ≡ Err (Trouble.Unfit f) }
    ensures trouble { IfErr result (Stops (first_fault bytes.now)) }
{
    let roster = reader::read(bytes)?;
    Ok(both_plans(heap, &roster)?)
}

// The trial of a ring; its three numbers stand apart, since `Ring` is what they become once they are known to fit.
pub fn of_ring(heap: Global, size: u16, crews: u16, sites: u16) -> Result<String, Trouble>
    ensures text { IfOk result (λ s. (size ≤ 500) × TrialText (ring_lists size crews sites) (string_bytes s)) }
    ensures refusal { 500 < size → result ≡ Err (Trouble.Unfit Fault.RingTooLarge) }
    ensures trouble { IfErr result (Stops (unless (nat_le size 500) Fault.RingTooLarge)) }
{
    let ring = Ring::new(size, crews, sites)?;
    Ok(both_plans(heap, &ring)?)
}
