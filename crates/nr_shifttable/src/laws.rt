//! Laws about accepted tables, stated as contracts of empty functions.

ghost use Rattle.std.specs.Prelude.{◌≡◌, ◌<◌, All, length};
ghost use Rattle.nr_shifttable.specs.Accepted.{IsTable, OrderDoesNotMatter, TablesAreAccepted};
ghost use Rattle.nr_shifttable.specs.{Faults.CoreIsNamed, Faults.ExtensionIsNamed, Faults.MissingRowIsNamed, Listed.ListedAreKept};
ghost use Rattle.nr_shifttable.specs.{RecordOrder.RecordsMayMove, Written.ItemsAreWritten};

use crate::table::Table;

/// Law: every `Table` has been accepted. This gives what the type promises to a caller that only borrows a table.
pub fn tables_are_sound(table: &Table)
    ensures { IsTable table.now }
{
    table.is_sound();
}

/// Law: eight values of 16 bits are what their type says.
pub(crate) fn values_fit(values: [u16; 8])
    ensures eight { length values ≡ 8 }
    ensures short { All (λ v. v < 65536) values }
{}

/// Law: the items 0, 1 and so on that `Table::item` returns, in the form of `KeptEntry::of`, are accepted by
/// `Table::of_entries`, which makes the same table of them unless memory runs out.
pub fn listed_are_kept()
    ensures { ListedAreKept }
{}

/// Law: if each record has eleven fields and no two items have the same place, the items of a table file are exactly
/// those that the records after the header write, in their order. Otherwise the records have an error.
pub fn items_written()
    ensures { ItemsAreWritten }
{}

/// Law: the order of the records does not matter. Two files with the same records in different orders, neither of which
/// has an error, give the same table.
pub fn record_order()
    ensures { OrderDoesNotMatter }
{}

/// Law: of two files of at most 4,194,304 octets with the same records in different orders, and with the header, if
/// there is one, as the first record of both, one is accepted exactly if the other is, with the same table. If the
/// records of one have no error, those of the other have none either, and both have the same result.
pub fn records_may_move()
    ensures { RecordsMayMove }
{}

/// Law: entries that ascend and lie within their base graphs are accepted exactly if there is at least one, and each
/// base graph that has one has the parity columns of TS 38.212, 5.3.2, in each lifting-size set: row by row, the
/// literal lists of the columns and their values.
pub fn tables_accepted()
    ensures { TablesAreAccepted }
{}

/// Law: a table is rejected with `Core` for a base graph exactly if the base graph before it has no error, and rows 0
/// to 3 lack, in one of the eight lifting-size sets, the literal lists of columns and values of the core parity part
/// (TS 38.212, 5.3.2).
pub fn core_named()
    ensures { CoreIsNamed }
{}

/// Law: it is rejected with `Extension` exactly if these rows have them, and some row from 4 on that has an entry does
/// not have, past the columns of the core, its own column and no other, with 0 in each set (TS 38.212, 5.3.2).
pub fn extension_named()
    ensures { ExtensionIsNamed }
{}

/// Law: it is rejected with `MissingRow` exactly if the rows that have entries have their shape, and a row from 4 on
/// has no entry.
pub fn missing_row_named()
    ensures { MissingRowIsNamed }
{}
