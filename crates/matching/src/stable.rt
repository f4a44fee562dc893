// The stable call: the crew-best stable plan, by deferred acceptance.
ghost use Rattle.std.specs.Prelude.{◌≡◌, ℕ, suc, ◌<◌, length};
ghost use Rattle.lists.specs.Rankings.{size, ranks};
ghost use Rattle.matching.specs.Acceptance.{Asks, AskingIn, Turned, unrefused, chosen};
ghost use Rattle.matching.specs.Answers.{refusals_in, unasked};
ghost use Rattle.matching.specs.Stability.{StableCall};
ghost use Rattle.matching.specs.StableCalls.{Found};

use crate::checks::check_length;
use crate::plans::{number_written, write_each};
use crate::proposals::Proposals;
use lists::faults::Fault;
use lists::interface::Lists;
use lists::parties::{Party, Side};

// A crew asks the next site of its list: the answer is the crew that is refused and asks on, if any.
// The lists stand beside the state: a struct of both would have to say of every call that it leaves the lists.
fn ask_next<L: Lists>(lists: &L, state: &mut Proposals, asker: u16) -> Option<u16>
    requires { (n : ℕ) × Asks (L.Lists.meaning lists.now) state.old n asker }
    ensures { (n : ℕ) → Asks (L.Lists.meaning lists.now) state.old n asker → Turned (L.Lists.meaning lists.now) n (unrefused (L.Lists.meaning lists.now) state.old) state.new result }
{
    let site = lists.entry(Party::crew(asker), state.refusals[usize::from(asker)])?;
    let place = lists.place(Party::site(site), asker)?;
    state.ask(asker, site, place)
}

// Lets a crew begin to ask, and after it whoever is refused, until a site takes one or one has asked all.
#[tactic(auto, using(crate::proofs::Turns::begins))]
fn ask_on<L: Lists>(lists: &L, state: &mut Proposals, first: u16)
    requires within { first < size (L.Lists.meaning lists.now) Side.Crew }
    requires quiet { AskingIn (L.Lists.meaning lists.now) state.old first first }
    ensures { AskingIn (L.Lists.meaning lists.now) state.new (suc first) (suc first) }
{
    let mut asker = first;
    while let Some(refused) = ask_next(lists, state, asker) {
        asker = refused;
    }
}

// Lets every crew ask, one after the other; the state is lent, since one that is handed back is copied twice.
#[tactic(auto, using(crate::proofs::Turns::untouched))]
fn ask_all<L: Lists>(lists: &L, state: &mut Proposals)
    requires { state.old ≡ unasked }
    ensures { AskingIn (L.Lists.meaning lists.now) state.new (size (L.Lists.meaning lists.now) Side.Crew) (size (L.Lists.meaning lists.now) Side.Crew) }
{
    for first in 0..lists.count(Side::Crew) {
        ask_on(lists, state, first);
    }
}

// What is written for a crew, whose number the loop over the slots hands in: the entry that has not refused it.
#[tactic(auto, using(crate::proofs::Few::few_parties))]
fn final_number<L: Lists>(lists: &L, state: &Proposals, crew: u16) -> u16
    requires { crew < size (L.Lists.meaning lists.now) Side.Crew }
    ensures { result ≡ chosen (ranks (L.Lists.meaning lists.now) Side.Crew crew) (refusals_in state.now crew) }
{
    number_written(lists.entry(Party::crew(crew), state.refusals[usize::from(crew)]))
}

// Pairs the crews and writes down what they have.
#[tactic(auto, using(crate::proofs::Few::few_parties))]
pub(crate) fn pair<L: Lists>(lists: &L, plan: &mut [u16])
    requires { length plan.old ≡ size (L.Lists.meaning lists.now) Side.Crew }
    ensures { Found (L.Lists.meaning lists.now) plan.new }
{
    let mut state = Proposals::new();
    ask_all(lists, &mut state);
    write_each(plan, |crew| final_number(lists, &state, crew));
}

// Writes the crew-best stable plan as a caller in C reads it, a number for each crew: 0 for none, else the site's number plus 1.
pub fn stable_plan<L: Lists>(lists: &L, plan: &mut [u16]) -> Result<(), Fault>
    ensures call { StableCall (L.Lists.meaning lists.now) plan.old plan.new result }
    ensures found { length plan.old ≡ size (L.Lists.meaning lists.now) Side.Crew → Found (L.Lists.meaning lists.now) plan.new }
{
    check_length(lists, plan, Fault::BufferLength)?;
    pair(lists, plan);
    Ok(())
}
