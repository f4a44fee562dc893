// What the planner prints.
ghost use Rattle.std.specs.Prelude.{◌≡◌};
ghost use Rattle.lists.specs.Rankings.{size};
ghost use Rattle.planner.specs.Choices.{Tells, pad_to, line_text, counts_text, choice_text, left_numbers, left_text, left_line, left_lines, table_text, trial_text};
ghost use Rattle.planner.specs.Partners.{partners_of};

use crate::pairings::Pairing;
use lists::interface::Lists;
use lists::parties::{Party, Side};
use std::alloc::{AllocError, Global};
use std::fmt::Write;

pub const HELP: &str = "planner pairs the drive crews and radio sites of a trial.

  planner FILE          pair the trial in a roster file
  planner               pair the roster on standard input
  planner --ring N U W  pair a ring: N crews and N sites, at most 500, where crew i ranks
                        sites i+U, i+U+1, .. and site j ranks crews j+W, j+W+1, .. around N
  planner --help        print this text

In a stable plan no crew and site that are apart would both rather work with each
other than with those they have. Of all stable plans two are printed side by side:
crew-best gives every crew the best site it has in any stable plan, site-best gives
every site the best crew. For each party the line says with whom it works and which
of its choices that is, counted from 1. Below stand those who are left out.

A roster that cannot be used is refused: what is wrong is printed with the number
of the fault, its layer, and the block and byte where it lies. The program then
ends with status 1.
";

// A text with spaces after it, up to a width.
fn padded(heap: Global, text: &str, width: usize) -> Result<String, AllocError>
    ensures { Tells result (pad_to width text.now) }
{
    let spaces = " ".repeat(heap, width.saturating_sub(text.len()))?;
    format!(in heap; "{text}{spaces}")
}

// A trial as it is printed: the lists with their two plans.
#[derive(Clone, Copy)]
struct Report<'a, L> {
    heap: Global,
    lists: &'a L,
    crew_best: &'a Pairing,
    site_best: &'a Pairing,
}

impl<L: Lists> Report<'_, L> {
    // With whom a party works and which of its choices that is.
    fn choice(&self, pairing: &Pairing, party: Party) -> Result<String, AllocError>
        ensures { Tells result (choice_text (L.Lists.meaning self.now.lists.now) (partners_of pairing.now) party.side party.number) }
    {
        let Some(partner) = pairing.partner(party) else {
            return String::from_str(self.heap, "left out");
        };
        let Some(place) = self.lists.place(party, partner) else {
            return String::from_str(self.heap, "left out");
        };
        let partner = Party {
            side: party.side.opposite(),
            number: partner,
        };
        let rank = u32::from(place) + 1;
        let length = self.lists.length(party);
        format!(in self.heap; "{partner}, choice {rank} of {length}")
    }

    // A party with what it has in the two plans, as one line.
    fn line(&self, party: Party) -> Result<String, AllocError>
        ensures { Tells result (line_text (L.Lists.meaning self.now.lists.now) (partners_of self.now.crew_best.now) (partners_of self.now.site_best.now) party.side party.number) }
    {
        let name = party.to_string(self.heap)?;
        let name = padded(self.heap, name.as_str(), 12)?;
        let left = self.choice(self.crew_best, party)?;
        let left = padded(self.heap, left.as_str(), 31)?;
        let right = self.choice(self.site_best, party)?;
        format!(in self.heap; "{name}{left}{right}\n")
    }

    // The parties of a side, each with its partners in the two plans.
    fn table(&self, side: Side) -> Result<String, AllocError>
        ensures { Tells result (table_text (L.Lists.meaning self.now.lists.now) (partners_of self.now.crew_best.now) (partners_of self.now.site_best.now) side) }
    {
        let mut text = String::new(self.heap);
        for number in 0..self.lists.count(side) {
            let line = self.line(Party { side, number })?;
            text.push_str(line.as_str())?;
        }
        Ok(text)
    }

    // The numbers of those on a side whom a plan leaves out, each after a space.
    fn numbers_out(&self, pairing: &Pairing, side: Side) -> Result<String, AllocError>
        ensures { Tells result (left_numbers (partners_of pairing.now side) (size (L.Lists.meaning self.now.lists.now) side)) }
    {
        let mut text = String::new(self.heap);
        for number in 0..self.lists.count(side) {
            if pairing.partner(Party { side, number }).is_none() {
                write!(text, " {number}")?;
            }
        }
        Ok(text)
    }

    // Those on a side whom a plan leaves out.
    fn left_out(&self, pairing: &Pairing, side: Side) -> Result<String, AllocError>
        ensures { Tells result (left_text (partners_of pairing.now side) (size (L.Lists.meaning self.now.lists.now) side)) }
    {
        let numbers = self.numbers_out(pairing, side)?;
        if numbers.is_empty() {
            String::from_str(self.heap, " none")
        } else {
            Ok(numbers)
        }
    }

    // A line on those whom a plan leaves out.
    fn left_out_line(&self, name: &str, pairing: &Pairing) -> Result<String, AllocError>
        ensures { Tells result (left_line name.now (partners_of pairing.now) (size (L.Lists.meaning self.now.lists.now))) }
    {
        let crews = self.left_out(pairing, Side::Crew)?;
        let sites = self.left_out(pairing, Side::Site)?;
        format!(in self.heap; "left out, {name}: crews{crews}; sites{sites}\n")
    }

    // The two lines on those who are left out.
    fn left_out_lines(&self) -> Result<String, AllocError>
        ensures { Tells result (left_lines (size (L.Lists.meaning self.now.lists.now)) (partners_of self.now.crew_best.now) (partners_of self.now.site_best.now)) }
    {
        let first = self.left_out_line("crew-best", self.crew_best)?;
        let second = self.left_out_line("site-best", self.site_best)?;
        format!(in self.heap; "{first}{second}")
    }

    // How many crews and sites there are.
    fn counts(&self) -> Result<String, AllocError>
        ensures { Tells result (counts_text (size (L.Lists.meaning self.now.lists.now) Side.Crew) (size (L.Lists.meaning self.now.lists.now) Side.Site)) }
    {
        let crews = self.lists.count(Side::Crew);
        let sites = self.lists.count(Side::Site);
        format!(in self.heap; "crews: {crews}\nsites: {sites}\n")
    }

    // Counts, both plans for crews and sites, and who is left out.
    fn text(&self) -> Result<String, AllocError>
        ensures { Tells result (trial_text (L.Lists.meaning self.now.lists.now) (partners_of self.now.crew_best.now) (partners_of self.now.site_best.now)) }
    {
        let counts = self.counts()?;
        let crews = self.table(Side::Crew)?;
        let sites = self.table(Side::Site)?;
        let left_out = self.left_out_lines()?;
        format!(in self.heap;
            "{counts}\n            crew-best                      site-best\n{crews}\n{sites}\n{left_out}"
        )
    }
}

// The whole trial.
pub fn trial<L: Lists>(
    heap: Global,
    lists: &L,
    crew_best: &Pairing,
    site_best: &Pairing,
) -> Result<String, AllocError>
    ensures { Tells result (trial_text (L.Lists.meaning lists.now) (partners_of crew_best.now) (partners_of site_best.now)) }
{
    let report = Report {
        heap,
        lists,
        crew_best,
        site_best,
    };
    report.text()
}
