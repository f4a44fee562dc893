// Reading a roster.
ghost use Rattle.std.specs.Prelude.{◌≡◌, Some, None, MatchResult};
ghost use Rattle.roster.specs.Layout.{shown};
ghost use Rattle.roster.specs.FirstFault.{length_fault, head_fault, blocks_fault, first_fault};
ghost use Rattle.roster.specs.Held.{both_of};
ghost use Rattle.roster.specs.LaidDown.{RostersAreListsLaidDown};

use crate::halves::Half;
use crate::heads::{Head, check_length};
use crate::returns::check_returns;
use crate::rosters::Roster;
use lists::faults::Fault;
use lists::parties::Side;

// The first fault of a roster, or its lists.
pub fn read(bytes: &[u8]) -> Result<Roster, Fault>
    ensures answer { MatchResult result
        (λ x. (first_fault bytes.now ≡ None) × (both_of x.crews x.sites ≡ shown bytes.now))
        (λ f. first_fault bytes.now ≡ Some f) }
    ensures law { RostersAreListsLaidDown }
{
    check_length(bytes)?;
    let head = Head::read(bytes)?;
    head.check_blocks()?;
    read_lists(&head)
}

// The lists behind block 0, begun only once that has passed, so that nothing is cleared for a roster refused before.
fn read_lists(head: &Head<'_>) -> Result<Roster, Fault>
    requires length { length_fault head.now.roster.now ≡ None }
    requires first { head_fault head.now.roster.now ≡ None }
    requires blocks { blocks_fault head.now.roster.now ≡ None }
    ensures { MatchResult result
        (λ x. (first_fault head.now.roster.now ≡ None) × (both_of x.crews x.sites ≡ shown head.now.roster.now))
        (λ f. first_fault head.now.roster.now ≡ Some f) }
{
    let crew_blocks = head.span(Side::Crew);
    let site_blocks = head.span(Side::Site);
    let mut crews = Half::default();
    let mut sites = Half::default();
    crew_blocks.read(&mut crews)?;
    site_blocks.read(&mut sites)?;
    check_returns(&crews, &sites, crew_blocks.first)?;
    check_returns(&sites, &crews, site_blocks.first)?;
    Ok(Roster { crews, sites })
}

#[cfg(test)]
mod tests {
    use super::read;
    use lists::faults::Fault;
    use lists::interface::Lists;
    use lists::parties::{Party, Side};
    use std::test::Fail;

    // One crew and one site that name each other.
    fn smallest() -> [u8; 1536] {
        let mut bytes = [0; 1536];
        bytes[0] = 1;
        bytes[5] = 1;
        bytes[7] = 1;
        bytes[511] = 15;
        bytes[512] = 2;
        bytes[517] = 1;
        bytes[1023] = 8;
        bytes[1024] = 3;
        bytes[1029] = 1;
        bytes[1535] = 9;
        bytes
    }

    #[test]
    fn the_smallest_roster(rt: HostRuntime) -> Result<(), Fail> {
        let roster = read(&smallest())?;
        assert_eq!(rt; roster.count(Side::Crew), 1);
        assert_eq!(rt; roster.count(Side::Site), 1);
        assert_eq!(rt; roster.length(Party::crew(0)), 1);
        assert_eq!(rt; roster.entry(Party::crew(0), 0), Some(0));
        assert_eq!(rt; roster.place(Party::site(0), 0), Some(0));
        assert_eq!(rt; roster.place(Party::site(0), 1), None);
        Ok(())
    }

    // No crews and no sites.
    #[test]
    fn a_single_block(rt: HostRuntime) -> Result<(), Fail> {
        let mut bytes = [0; 512];
        bytes[0] = 1;
        bytes[511] = 1;
        let roster = read(&bytes)?;
        assert_eq!(rt; roster.count(Side::Crew), 0);
        assert_eq!(rt; roster.count(Side::Site), 0);
        Ok(())
    }

    // A crew that names a site which does not name it back.
    #[test]
    fn not_returned(rt: HostRuntime) -> Result<(), Fail> {
        let mut bytes = smallest();
        bytes[1029] = 0;
        bytes[1535] = 3;
        match read(&bytes) {
            Ok(_) => Err(Fail::new("it was read")),
            Err(fault) => {
                assert_eq!(rt; fault, Fault::EntryUnreturned { block: 1, byte: 6 });
                Ok(())
            },
        }
    }
}
