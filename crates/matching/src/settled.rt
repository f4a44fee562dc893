// The call that writes the settled plan with its levels.
ghost use Rattle.std.specs.Prelude.{◌≡◌, ◌*◌, ◌<◌, ◌≤◌, true, length};
ghost use Rattle.lists.specs.Order.{granted};
ghost use Rattle.lists.specs.Rankings.{size};
ghost use Rattle.lists.specs.declared.parties.Side.TheVariants.{Crew};
ghost use Rattle.matching.specs.Copies.{copy_number};
ghost use Rattle.matching.specs.Plans.{number_written};
ghost use Rattle.matching.specs.Settled.{copy_partner, real_site_of, site_by_copies, level_by_copies, settled_plan_of, settled_levels_of, settle_fault, SettleCall, SettledPlanIsDominant};
ghost use Rattle.matching.specs.TwoLevels.{fits_two_levels, two_levels_of};

use crate::checks::check_length;
use crate::copies::CrewCopy;
use crate::crews::CrewBelow;
use crate::limits::MOST;
use crate::plans::{number_written, site_written, write_each};
use crate::stable::pair;
use crate::two_levels::{TwoLevel, few_enough};
use lists::faults::{Fault, Which};
use lists::interface::Lists;
use lists::parties::Side;

// A plan on two-level lists, from which the site and the level of each crew below are read off.
#[derive(Drop)]
struct Copies<'a, L: Lists> {
    lists: L,
    doubled: &'a [u16],
    ghost whole: { length doubled.now ≡ 2 * size (L.Lists.meaning lists) Crew },
}

// A crew comes as its number, which the loop over the slots hands in, and goes out as the number or level that is written.
impl<L: Lists> Copies<'_, L> {
    // The partner of a crew's copy.
    #[tactic(auto, using(crate::proofs::Few::few_parties))]
    fn partner(&self, copy: CrewCopy) -> Option<u16>
        requires { copy_number copy < length self.now.doubled.now }
        ensures { result ≡ copy_partner self.now.doubled.now (copy_number copy) }
    {
        site_written(self.doubled[usize::from(copy.number())])
    }

    // Its partner, with nobody in the place of a stand-in.
    fn real_site(&self, copy: CrewCopy) -> Option<u16>
        requires { copy_number copy < length self.now.doubled.now }
        ensures { result ≡ real_site_of (L.Lists.meaning self.now.lists) (copy_partner self.now.doubled.now (copy_number copy)) }
    {
        let sites = self.lists.count(Side::Site);
        self.partner(copy).filter(|site| *site < sites)
    }

    // What a plan has for a crew: the site of its lower or else of its upper copy.
    fn site(&self, crew: u16) -> u16
        requires { crew < size (L.Lists.meaning self.now.lists) Side.Crew }
        ensures { result ≡ site_by_copies (L.Lists.meaning self.now.lists) self.now.doubled.now crew }
    {
        let lower = self.real_site(CrewCopy::Lower { crew });
        let upper = self.real_site(CrewCopy::Upper { crew });
        number_written(lower.or(upper))
    }

    // The level of a crew: 0 if its upper copy has the stand-in, and 1 if not.
    #[tactic(auto, using(crate::proofs::Few::few_parties))]
    fn level(&self, crew: u16) -> u8
        requires { crew < size (L.Lists.meaning self.now.lists) Side.Crew }
        ensures { result ≡ level_by_copies (L.Lists.meaning self.now.lists) self.now.doubled.now crew }
    {
        let stand_in = CrewBelow {
            lists: &self.lists,
            crew,
        }
        .stand_in();
        u8::from(self.partner(CrewCopy::Upper { crew }) != Some(stand_in))
    }
}

// Pairs the two-level lists and reads the plan and the levels off.
#[tactic(auto, using(crate::proofs::Few::few_parties))]
fn read_off<L: Lists>(lists: &L, doubled: &mut [u16], plan: &mut [u16], levels: &mut [u8])
    requires few { fits_two_levels (L.Lists.meaning lists.now) ≡ true }
    requires room { length doubled.old ≡ size (two_levels_of (L.Lists.meaning lists.now)) Side.Crew }
    requires sites { length plan.old ≡ size (L.Lists.meaning lists.now) Side.Crew }
    requires marks { length levels.old ≡ size (L.Lists.meaning lists.now) Side.Crew }
    ensures { (plan.new ≡ settled_plan_of (L.Lists.meaning lists.now)) × (levels.new ≡ settled_levels_of (L.Lists.meaning lists.now)) }
{
    pair(&TwoLevel { lists }, doubled);
    let copies = Copies { lists, doubled };
    write_each(plan, |crew| copies.site(crew));
    write_each(levels, |crew| copies.level(crew));
}

// Whether the lists are small enough and both buffers have one entry for each crew; they come apart, as the call is handed them.
fn check_room<L: Lists>(lists: &L, plan: &[u16], levels: &[u8]) -> Result<(), Fault>
    ensures { result ≡ granted (settle_fault (L.Lists.meaning lists.now) plan.now levels.now) tt }
{
    if !few_enough(lists) {
        return Err(Fault::ListsTooLarge);
    }
    let first = Fault::HandedLength {
        which: Which::First,
    };
    let second = Fault::HandedLength {
        which: Which::Second,
    };
    check_length(lists, plan, first)?;
    check_length(lists, levels, second)
}

// Writes the settled plan, a number for each crew as in any plan, and its levels, a byte for each, as a caller in C reads them.
#[tactic(auto, using(crate::proofs::Few::few_copies, crate::proofs::Settling::settled_well))]
pub fn settled_plan<L: Lists>(lists: &L, plan: &mut [u16], levels: &mut [u8]) -> Result<(), Fault>
    ensures call { SettleCall (L.Lists.meaning lists.now) plan.old levels.old plan.new levels.new result }
    ensures law { SettledPlanIsDominant }
{
    check_room(lists, plan, levels)?;
    // An array of the largest size, since the call allocates nothing.
    let mut doubled = [0; MOST];
    let crews = usize::from(TwoLevel { lists }.count(Side::Crew));
    read_off(lists, &mut doubled[0..crews], plan, levels);
    Ok(())
}
