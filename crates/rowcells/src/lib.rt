// All cells of a row of a table, in one call.
#![tactic(auto)]

ghost use Rattle.std.specs.Prelude.{◌≡◌, ◌*◌, ◌≤◌, ◌<◌, length};
ghost use Rattle.laws.specs.Front.{fronted};
ghost use Rattle.columns.specs.Record.{column_count};
ghost use Rattle.table.specs.Context.{table_record};
ghost use Rattle.cells.specs.Rows.{row_bytes, rows_test, row_count};
ghost use Rattle.rowcells.specs.RowCells.{cell_words, places_of, row_read, row_area};

use cells::Cell;
use refusal::{Fault, Refusal};

// An answer as the six words of a place.
#[tactic(auto, unfolding(crate::specs::RowCells::cell_words))]
fn words_of(cell: Result<Option<Cell>, Refusal>) -> [u64; 6]
    ensures { result ≡ cell_words cell }
{
    match cell {
        Ok(Some(Cell::Number(value))) => [0, 0, 0, 1, 0, value],
        Ok(Some(Cell::Empty)) => [0, 0, 0, 1, 1, 0],
        Ok(Some(Cell::Item(item))) => [0, 0, 0, 1, 2, item as u64],
        Ok(Some(Cell::Subnode(subnode))) => [0, 0, 0, 1, 3, subnode as u64],
        Ok(Some(Cell::Missing)) => [0, 0, 0, 1, 4, 0],
        Ok(None) => [0, 0, 0, 0, 0, 0],
        Err(refusal) => {
            let number = refusal::number_of(refusal.fault) as u64;
            [number, refusal.place, refusal.more, 0, 0, 0]
        }
    }
}

// Each column's cell into its place. The table is tested before, once.
fn fill<'a>(block: &'a [u8], rows: &'a [u8], row: usize, places: &mut [u64])
    requires { (rows_test block.now rows.now ≡ Ok tt) × (row < row_count (table_record block.now) (row_bytes block.now rows.now)) × (6 * column_count (table_record block.now) ≤ length places.old) }
    ensures { places.new ≡ fronted (places_of block.now rows.now row) places.old }
{
    let table = table::record_of(block);
    let bytes = cells::row_at(block, cells::row_bytes(block, rows), row);
    let count = columns::column_count(table);
    for i in 0..count {
        let column = columns::column_at(table, i);
        let words = words_of(cells::cell_at(block, table, bytes, column));
        let place = 6 * i;
        places[place..place + 6].copy_from_slice(&words);
    }
}

// The row of an accepted table: absent past the end, then 17, then its cells.
fn read_in<'a>(
    block: &'a [u8],
    rows: &'a [u8],
    row: u32,
    places: &mut [u64],
) -> Result<Option<u64>, Refusal>
    requires { rows_test block.now rows.now ≡ Ok tt }
    ensures answer { result ≡ row_read block.now rows.now row (length places.old) }
    ensures area { places.new ≡ row_area block.now rows.now row places.old }
{
    let i = row as usize;
    if cells::row_count(block, cells::row_bytes(block, rows)) < i + 1 {
        return Ok(None);
    }
    let count = columns::column_count(table::record_of(block));
    if places.len() / 6 < count {
        return refusal::refused_needing(Fault::ShortBuffer, count as u64);
    }
    fill(block, rows, i, places);
    Ok(Some(count as u64))
}

// All cells of a row, of a block that need not hold a table, each as the call for one cell answers it.
pub fn read_row<'a>(
    block: &'a [u8],
    rows: &'a [u8],
    row: u32,
    places: &mut [u64],
) -> Result<Option<u64>, Refusal>
    ensures answer { result ≡ row_read block.now rows.now row (length places.old) }
    ensures area { places.new ≡ row_area block.now rows.now row places.old }
{
    cells::test_rows(block, rows)?;
    read_in(block, rows, row, places)
}
