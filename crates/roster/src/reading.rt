// The entries of one party's block.
ghost use Rattle.std.specs.Prelude.{◌≡◌, ◌+◌, ◌*◌, ◌<◌, ◌≤◌, length, IfOk, OnOk};
ghost use Rattle.std.specs.Result.{result_err};
ghost use Rattle.lists.specs.Order.{earliest};
ghost use Rattle.roster.specs.Layout.{entries as entries_in};
ghost use Rattle.roster.specs.FirstFault.{entry_fault};

use crate::blocks::Block;
use crate::fields::Field;
use crate::rows::Row;
use lists::faults::Fault;

// The byte at which an entry begins.
pub(crate) fn entry_byte(k: u16) -> u16
    requires { k ≤ 250 }
    ensures { result ≡ 6 + 2 * k }
{
    6 + 2 * k
}

// The next entry, behind those that the row holds.
fn read_entry(block: &Block<'_>, others: u16, row: &mut Row) -> Result<(), Fault>
    requires few { others ≤ 250 }
    requires room { length row.old < 250 }
    requires before { row.old ≡ entries_in block.now.roster.now block.now.number (length row.old) }
    ensures fault { result_err result ≡ entry_fault block.now.roster.now block.now.number others (length row.old) }
    ensures more { OnOk result (row.new ≡ entries_in block.now.roster.now block.now.number (length row.old + 1)) }
{
    let byte = entry_byte(row.len());
    let named = u16::from_block(block, byte);
    if named >= others {
        return Err(Fault::EntryTooHigh {
            block: block.number,
            byte,
        });
    }
    if row.place(named).is_some() {
        return Err(Fault::EntryRepeated {
            block: block.number,
            byte,
        });
    }
    row.push(named);
    Ok(())
}

// The entries in turn.
pub(crate) fn read_entries(block: &Block<'_>, others: u16, len: u16) -> Result<Row, Fault>
    requires { (others ≤ 250) × (len ≤ 250) }
    ensures fault { result_err result ≡ earliest len (entry_fault block.now.roster.now block.now.number others) }
    ensures value { IfOk result (λ row. row ≡ entries_in block.now.roster.now block.now.number len) }
{
    let mut row = Row::default();
    for _ in 0..len {
        read_entry(block, others, &mut row)?;
    }
    Ok(row)
}
