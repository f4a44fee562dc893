// Entries that are not returned.
ghost use Rattle.std.specs.Prelude.{◌≡◌, ◌≤◌, length};
ghost use Rattle.std.specs.Result.{result_err};
ghost use Rattle.lists.specs.Order.{earliest};
ghost use Rattle.roster.specs.FirstFault.{return_fault, returns_fault};

use crate::halves::Half;
use crate::reading::entry_byte;
use crate::rows::Row;
use lists::faults::Fault;

// Everybody whom a party names names it back.
fn check_row(row: &Row, back: &Half, block: u16, party: u16) -> Result<(), Fault>
    ensures { result_err result ≡ earliest (length row.now) (return_fault back.now block party row.now) }
{
    for (k, named) in row.entries().iter().enumerate() {
        if back.place(*named, party).is_none() {
            // `enumerate` counts in `usize`, and a second counter of 16 bits beside it would say no more.
            return Err(Fault::EntryUnreturned {
                block,
                byte: entry_byte(k as u16),
            });
        }
    }
    Ok(())
}

// Everybody whom a side names names it back; the blocks of that side begin at `first`.
pub(crate) fn check_returns(own: &Half, back: &Half, first: u16) -> Result<(), Fault>
    requires { first ≤ 251 }
    ensures { result_err result ≡ returns_fault own.now back.now first }
{
    for (i, row) in own.rows().iter().enumerate() {
        // Likewise for a party.
        let party = i as u16;
        check_row(row, back, first + party, party)?;
    }
    Ok(())
}
