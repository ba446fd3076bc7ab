// The rows of a table and their cells.
#![tactic(auto)]

ghost use Rattle.std.specs.Prelude.{◌≡◌, ◌<◌, length};
ghost use Rattle.refusal.specs.Order.{in_order};
ghost use Rattle.heap.specs.Shape.{Heap};
ghost use Rattle.columns.specs.Record.{row_size_of};
ghost use Rattle.columns.specs.Sound.{RecordSound, ColumnSound};
ghost use Rattle.table.specs.Context.{table_record, TableSound};
ghost use Rattle.cells.specs.Rows.{held_rules, Held, rows_named, row_bytes, rows_test, row_count, row_at, count_of};
ghost use Rattle.cells.specs.Cells.{exists, named_cell, cell_at, cell_in, cell_of};

use columns::Column;
use refusal::{Fault, Refusal, Verdict};
use table::Named;

// A cell's number, nothing, the number of the item or subnode that holds its value, or that its row has none.
#[derive(Clone, Copy, Debug, PartialEq, Eq)]
pub enum Cell {
    Number(u64),
    Empty,
    Item(u32),
    Subnode(u32),
    Missing,
}

// 19 for an item of rows that the heap has not, 23 for a rows' block that is too long.
#[tactic(auto, unfolding(crate::specs::Rows::held_rules, refusal::specs::Order::in_order, refusal::specs::Order::demand, refusal::specs::Order::after))]
fn check_held(block: &[u8], rows: &[u8], named: Named) -> Verdict
    requires { Heap block.now }
    ensures { result ≡ in_order (held_rules block.now rows.now named) }
{
    match named {
        Named::Nothing => Ok(()),
        Named::Item(item) => {
            if !heap::item_fits(block, item) {
                return refusal::refused_at(Fault::HeapItem, 0);
            }
            Ok(())
        }
        Named::Subnode(_) => {
            if 8180 < rows.len() {
                return refusal::refused_at(Fault::TableShape, 0);
            }
            Ok(())
        }
    }
}

// What names the rows of an accepted table.
fn rows_named(block: &[u8]) -> Named
    requires { TableSound block.now }
    ensures { result ≡ rows_named block.now }
{
    table::named_by(columns::rows_value(table::record_of(block)))
}

// The table, then what holds its rows.
pub fn test_rows(block: &[u8], rows: &[u8]) -> Verdict
    ensures { result ≡ rows_test block.now rows.now }
{
    table::test_table(block)?;
    check_held(block, rows, rows_named(block))
}

// The bytes of the rows, in the heap's block or in the caller's other one.
pub fn row_bytes<'a>(block: &'a [u8], rows: &'a [u8]) -> &'a [u8]
    requires { TableSound block.now × Held block.now rows.now (rows_named block.now) }
    ensures { result.now ≡ row_bytes block.now rows.now }
{
    match rows_named(block) {
        Named::Nothing => &rows[0..0],
        Named::Item(item) => heap::part_of(block, item),
        Named::Subnode(_) => rows,
    }
}

// How many whole rows the bytes hold.
pub fn row_count(block: &[u8], bytes: &[u8]) -> usize
    requires { TableSound block.now }
    ensures { result ≡ row_count (table_record block.now) bytes.now }
{
    bytes.len() / columns::row_size(table::record_of(block))
}

// How many rows the table has.
pub fn count_rows<'a>(block: &'a [u8], rows: &'a [u8]) -> Result<u64, Refusal>
    ensures { result ≡ count_of block.now rows.now }
{
    test_rows(block, rows)?;
    Ok(row_count(block, row_bytes(block, rows)) as u64)
}

// One of the whole rows.
pub fn row_at<'a>(block: &[u8], bytes: &'a [u8], row: usize) -> &'a [u8]
    requires { TableSound block.now × (row < row_count (table_record block.now) bytes.now) }
    ensures { result.now ≡ row_at (table_record block.now) bytes.now row }
{
    let size = columns::row_size(table::record_of(block));
    let start = row * size;
    &bytes[start..start + size]
}

// Whether the row has a cell in the column.
fn has_cell(table: &[u8], row: &[u8], column: Column) -> bool
    requires { RecordSound table.now × ColumnSound table.now column × (length row.now ≡ row_size_of table.now) × (column.bit < 256) }
    ensures { result ≡ exists table.now row.now column }
{
    let place = columns::existence_start(table) + column.bit / 8;
    let byte = le::byte_at(row, place);
    let step = (7 - column.bit % 8) as u8;
    (byte >> step) % 2 == 1
}

// What a reference says; 19 where it names no item of the heap.
fn named_cell(block: &[u8], named: Named) -> Result<Option<Cell>, Refusal>
    requires { Heap block.now }
    ensures { result ≡ named_cell block.now named }
{
    match named {
        Named::Nothing => Ok(Some(Cell::Empty)),
        Named::Subnode(subnode) => Ok(Some(Cell::Subnode(subnode))),
        Named::Item(item) => {
            if !heap::item_fits(block, item) {
                return refusal::refused_at(Fault::HeapItem, 0);
            }
            Ok(Some(Cell::Item(item)))
        }
    }
}

// The cell of a row in a column, of an accepted table with this record.
pub fn cell_at(
    block: &[u8],
    table: &[u8],
    row: &[u8],
    column: Column,
) -> Result<Option<Cell>, Refusal>
    requires { Heap block.now × RecordSound table.now × ColumnSound table.now column × (length row.now ≡ row_size_of table.now) × (column.bit < 256) }
    ensures { result ≡ cell_at block.now table.now row.now column }
{
    if !has_cell(table, row, column) {
        return Ok(Some(Cell::Missing));
    }
    let stored = le::field_of(row, column.offset, column.width);
    if columns::refers(column) {
        return named_cell(block, table::named_by(stored as u32));
    }
    Ok(Some(Cell::Number(stored)))
}

// The cell of an accepted table whose rows are these bytes.
fn cell_in(block: &[u8], bytes: &[u8], row: u32, tag: u32) -> Result<Option<Cell>, Refusal>
    requires { TableSound block.now }
    ensures { result ≡ cell_in block.now (table_record block.now) bytes.now row tag }
{
    let i = row as usize;
    if row_count(block, bytes) < i + 1 {
        return Ok(None);
    }
    let table = table::record_of(block);
    let Some(index) = columns::seat_of(table, tag) else {
        return Ok(None);
    };
    let column = columns::column_at(table, index);
    cell_at(block, table, row_at(block, bytes, i), column)
}

// A cell by row number and tag, of a block that need not hold a table.
pub fn cell_of<'a>(
    block: &'a [u8],
    rows: &'a [u8],
    row: u32,
    tag: u32,
) -> Result<Option<Cell>, Refusal>
    ensures { result ≡ cell_of block.now rows.now row tag }
{
    test_rows(block, rows)?;
    cell_in(block, row_bytes(block, rows), row, tag)
}
