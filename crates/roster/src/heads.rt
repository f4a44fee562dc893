// A roster's length and its block 0.
ghost use Rattle.std.specs.Prelude.{◌≡◌, ◌+◌, ◌*◌, ◌≤◌, length, IfOk};
ghost use Rattle.std.specs.Result.{result_err};
ghost use Rattle.roster.specs.Layout.{two_at};
ghost use Rattle.roster.specs.FirstFault.{length_fault, head_fault, blocks_fault};

use crate::blocks::{BLOCK, Block, CHECKED};
use crate::rows::LIMIT;
use crate::spans::Span;
use lists::faults::Fault;
use lists::parties::Side;

// How many blocks a roster may have.
const MOST_BLOCKS: usize = 501;

// What block 0 of a roster tells: how many parties each side has.
#[derive(Clone, Copy)]
pub(crate) struct Head<'a> {
    roster: &'a [u8],
    crews: u16,
    sites: u16,
    ghost crews_shown: { crews ≡ two_at roster.now 0 4 },
    ghost sites_shown: { sites ≡ two_at roster.now 0 6 },
    ghost few_crews: { crews ≤ 250 },
    ghost few_sites: { sites ≤ 250 },
}

impl<'a> Head<'a> {
    // Block 0, field by field.
    pub(crate) fn read(roster: &'a [u8]) -> Result<Head<'a>, Fault>
        requires { 512 ≤ length roster.now }
        ensures fault { result_err result ≡ head_fault roster.now }
        ensures same { IfOk result (λ h. h.roster.now ≡ roster.now) }
    {
        let block = Block { roster, number: 0 };
        block.check_seal()?;
        block.check(0, 1u8)?;
        block.check_zeros(1..4)?;
        // The limit is a `usize`, since arrays have it; a second constant of 16 bits would say it again.
        let crews = block.bounded(4, LIMIT as u16)?;
        let sites = block.bounded(6, LIMIT as u16)?;
        block.check_zeros(8..CHECKED)?;
        Ok(Head {
            roster,
            crews,
            sites,
        })
    }

    // There is one block for block 0 and one for every party.
    pub(crate) fn check_blocks(&self) -> Result<(), Fault>
        ensures { result_err result ≡ blocks_fault self.now.roster.now }
    {
        let blocks = 1 + usize::from(self.crews) + usize::from(self.sites);
        if self.roster.len() == BLOCK * blocks {
            Ok(())
        } else {
            Err(Fault::RosterLength)
        }
    }

    // The blocks of one side.
    pub(crate) fn span(&self, side: Side) -> Span<'a>
        requires { length self.now.roster.now ≡ 512 * (1 + self.now.crews + self.now.sites) }
        ensures { (result.roster.now ≡ self.now.roster.now) × (result.side ≡ side) }
    {
        let (first, count, others) = match side {
            Side::Crew => (1, self.crews, self.sites),
            Side::Site => (1 + self.crews, self.sites, self.crews),
        };
        Span {
            roster: self.roster,
            side,
            first,
            count,
            others,
        }
    }
}

// A roster has whole blocks, at least one and at most 501.
pub(crate) fn check_length(bytes: &[u8]) -> Result<(), Fault>
    ensures { result_err result ≡ length_fault bytes.now }
{
    if !bytes.is_empty() && bytes.len() % BLOCK == 0 && bytes.len() <= BLOCK * MOST_BLOCKS {
        Ok(())
    } else {
        Err(Fault::RosterLength)
    }
}
