// The blocks of one side, and the lists in them.
ghost use Rattle.std.specs.Prelude.{◌≡◌, ◌+◌, ◌*◌, ◌<◌, ◌≤◌, [], length, IfOk, OnOk};
ghost use Rattle.std.specs.Result.{result_err};
ghost use Rattle.lists.specs.Sides.{other};
ghost use Rattle.roster.specs.Layout.{two_at, kind_of, count_on, first_on, block_of, list_in, lists_in};
ghost use Rattle.roster.specs.FirstFault.{fields_fault, party_fault, side_fault};

use crate::blocks::{Block, CHECKED};
use crate::halves::Half;
use crate::reading::{entry_byte, read_entries};
use crate::rows::Row;
use lists::faults::Fault;
use lists::parties::Side;

// One block a party, in the order of their numbers.
#[derive(Clone, Copy)]
pub(crate) struct Span<'a> {
    pub roster: &'a [u8],
    pub side: Side,
    // The block of party 0.
    pub first: u16,
    // How many parties the side has.
    pub count: u16,
    // How many parties the other side has.
    pub others: u16,
    ghost first_shown: { first ≡ first_on roster.now side },
    ghost count_shown: { count ≡ count_on roster.now side },
    ghost others_shown: { others ≡ count_on roster.now (other side) },
    ghost within: { 512 * (first + count) ≤ length roster.now },
    ghost few: { count ≤ 250 },
    ghost few_others: { others ≤ 250 },
    ghost low: { first ≤ 251 },
}

// Byte 0 of each block of a side, which the format has as a number.
fn kind(side: Side) -> u8
    ensures { result ≡ kind_of side }
{
    match side {
        Side::Crew => 2,
        Side::Site => 3,
    }
}

// A party comes as its number, which the loop over the side hands in.
impl<'a> Span<'a> {
    // The block of a party.
    fn block(&self, party: u16) -> Block<'a>
        requires { party < self.now.count }
        ensures { (result.roster.now ≡ self.now.roster.now) × (result.number ≡ self.now.first + party) }
    {
        Block {
            roster: self.roster,
            number: self.first + party,
        }
    }

    // The fields of a party's block; the answer is the length of its list.
    fn read_fields(&self, party: u16) -> Result<u16, Fault>
        requires { party < self.now.count }
        ensures fault { result_err result ≡ fields_fault self.now.roster.now self.now.side party }
        ensures value { IfOk result (λ n. (n ≡ two_at self.now.roster.now (self.now.first + party) 4) × (n ≤ 250)) }
    {
        let block = self.block(party);
        block.check_seal()?;
        block.check(0, kind(self.side))?;
        block.check(1, 0u8)?;
        block.check(2, party)?;
        let len = block.bounded(4, self.others)?;
        block.check_zeros(entry_byte(len)..CHECKED)?;
        Ok(len)
    }

    // One party's list.
    fn read_party(&self, party: u16) -> Result<Row, Fault>
        requires { party < self.now.count }
        ensures fault { result_err result ≡ party_fault self.now.roster.now self.now.side party }
        ensures value { IfOk result (λ row. row ≡ list_in self.now.roster.now (block_of self.now.roster.now self.now.side party)) }
    {
        let len = self.read_fields(party)?;
        read_entries(&self.block(party), self.others, len)
    }

    // The lists in order; they fill a half that is lent, since one that is handed back is copied.
    pub(crate) fn read(&self, half: &mut Half) -> Result<(), Fault>
        requires { half.old ≡ [] }
        ensures fault { result_err result ≡ side_fault self.now.roster.now self.now.side }
        ensures value { OnOk result (half.new ≡ lists_in self.now.roster.now self.now.side) }
    {
        for party in 0..self.count {
            half.push(self.read_party(party)?);
        }
        Ok(())
    }
}
