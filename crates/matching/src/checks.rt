// Whether numbers are a plan on lists, and the first fault where they are not.
ghost use Rattle.std.specs.Prelude.{◌≡◌, ◌<◌, ◌≤◌, ◌==◌, false, length, replicate, slice_index};
ghost use Rattle.lists.specs.Order.{unless, earliest, granted};
ghost use Rattle.lists.specs.Rankings.{size};
ghost use Rattle.lists.specs.declared.parties.Side.TheVariants.{Crew};
ghost use Rattle.matching.specs.Plans.{number_written, site_written};
ghost use Rattle.matching.specs.Checks.{crew_fault, plan_fault, PassingIsBeingAPlan, TakenBelow, with_taken};

use crate::limits::MOST;
use crate::plans::site_written;
use lists::faults::{Fault, Which};
use lists::interface::Lists;
use lists::parties::{Party, Side};

// Which sites some crews have: a table of fixed size, since the check allocates nothing.
#[derive(Drop)]
struct Taken {
    sites: [bool; MOST],
}

impl Taken {
    // No site is taken; written out, since `false` says more than a default would.
    fn new() -> Taken
        ensures { result.sites ≡ replicate 500 false }
    {
        Taken {
            sites: [false; MOST],
        }
    }

    // A crew takes the site that is written for it, if any.
    fn take(&mut self, site: Option<u16>)
        requires { number_written site ≤ 500 }
        ensures { self.new.sites ≡ with_taken self.old.sites (number_written site) }
    {
        if let Some(site) = site {
            self.sites[usize::from(site)] = true;
        }
    }
}

// Checks that a buffer has one entry for each crew, and answers a fault where it has not.
pub(crate) fn check_length<L: Lists, T>(lists: &L, buffer: &[T], fault: Fault) -> Result<(), Fault>
    ensures { result ≡ granted (unless (length buffer.now == size (L.Lists.meaning lists.now) Side.Crew) fault) tt }
{
    if buffer.len() == usize::from(lists.count(Side::Crew)) {
        Ok(())
    } else {
        Err(fault)
    }
}

// Numbers that are checked to be a plan on lists, one for each crew.
#[derive(Drop)]
struct Checked<'a, L: Lists> {
    lists: L,
    plan: &'a [u16],
    which: Which,
    ghost whole: { length plan.now ≡ size (L.Lists.meaning lists) Crew },
}

impl<L: Lists> Checked<'_, L> {
    // The fault of what is written for one crew, where the crews before it have taken theirs.
    #[tactic(auto, using(crate::proofs::Few::few_parties))]
    fn check_crew(&self, taken: &Taken, crew: u16, site: Option<u16>) -> Result<(), Fault>
        requires within { crew < length self.now.plan.now }
        requires written { site ≡ site_written (slice_index self.now.plan.now crew) }
        requires before { TakenBelow self.now.plan.now crew taken.now.sites }
        ensures { result ≡ granted (crew_fault (L.Lists.meaning self.now.lists) self.now.plan.now self.now.which crew) tt }
    {
        let which = self.which;
        let Some(site) = site else {
            return Ok(());
        };
        if site >= self.lists.count(Side::Site) {
            return Err(Fault::NoSuchSite { which, crew });
        }
        if self.lists.place(Party::crew(crew), site).is_none() {
            return Err(Fault::PairNotListed { which, crew });
        }
        if taken.sites[usize::from(site)] {
            return Err(Fault::SiteTaken { which, crew });
        }
        Ok(())
    }

    // The first fault of what is written for the crews, one after the other.
    #[tactic(auto, using(crate::proofs::Few::few_parties))]
    fn check_crews(&self) -> Result<(), Fault>
        ensures { result ≡ granted (earliest (length self.now.plan.now) (crew_fault (L.Lists.meaning self.now.lists) self.now.plan.now self.now.which)) tt }
    {
        let mut taken = Taken::new();
        for (crew, number) in self.plan.iter().enumerate() {
            // `enumerate` counts in `usize`, and a second counter of 16 bits beside it would say no more.
            let site = site_written(*number);
            self.check_crew(&taken, crew as u16, site)?;
            taken.take(site);
        }
        Ok(())
    }
}

// Checks that numbers are a plan on lists, as a caller in C writes one.
#[tactic(auto, using(crate::proofs::Passing::passing_is_a_plan))]
pub fn check_plan<L: Lists>(lists: &L, plan: &[u16], which: Which) -> Result<(), Fault>
    ensures answer { result ≡ granted (plan_fault (L.Lists.meaning lists.now) plan.now which) tt }
    ensures meaning { PassingIsBeingAPlan }
{
    check_length(lists, plan, Fault::HandedLength { which })?;
    Checked { lists, plan, which }.check_crews()
}
