// The record of a table and its columns.
#![tactic(auto)]

ghost use Rattle.std.specs.Prelude.{◌≡◌, ◌+◌, ◌*◌, ◌≤◌, ◌<◌, length};
ghost use Rattle.le.specs.Bytes.{byte, field};
ghost use Rattle.columns.specs.Record.{column_count, existence_start, row_size_of, row_index_item, rows_value_of, record_fits};
ghost use Rattle.columns.specs.Columns.{column_at, reference, refers as refers_of, width_fits, column_fits, each_fits, seat_of};
ghost use Rattle.columns.specs.Sound.{RecordSound};

use keys::{Shape, Sought};

// Where a column's bytes stand in a row, and which existence bit is its own.
#[derive(Clone, Copy, Debug, PartialEq, Eq)]
pub struct Column {
    pub tag: u32,
    pub offset: usize,
    pub width: usize,
    pub bit: usize,
}

fn short_in(table: &[u8], place: usize) -> usize
    requires { place + 2 ≤ length table.now }
    ensures { (result ≡ field table.now place 2) × (result < 65536) }
{
    le::field2(table, place) as usize
}

fn byte_in(table: &[u8], place: usize) -> usize
    requires { place < length table.now }
    ensures { (result ≡ byte table.now place) × (result < 256) }
{
    le::byte_at(table, place) as usize
}

pub fn column_count(table: &[u8]) -> usize
    requires { 22 ≤ length table.now }
    ensures { (result ≡ column_count table.now) × (result < 256) }
{
    byte_in(table, 1)
}

// Where the existence bytes begin in a row.
pub fn existence_start(table: &[u8]) -> usize
    requires { 22 ≤ length table.now }
    ensures { (result ≡ existence_start table.now) × (result < 65536) }
{
    short_in(table, 6)
}

pub fn row_size(table: &[u8]) -> usize
    requires { 22 ≤ length table.now }
    ensures { (result ≡ row_size_of table.now) × (result < 65536) }
{
    short_in(table, 8)
}

// The number of the item from which the row index starts.
pub fn row_index_item(table: &[u8]) -> u32
    requires { 22 ≤ length table.now }
    ensures { result ≡ row_index_item table.now }
{
    le::field4(table, 10)
}

// What names the rows.
pub fn rows_value(table: &[u8]) -> u32
    requires { 22 ≤ length table.now }
    ensures { result ≡ rows_value_of table.now }
{
    le::field4(table, 14)
}

pub fn record_fits(table: &[u8]) -> bool
    ensures { result ≡ record_fits table.now }
{
    if table.len() < 22 {
        return false;
    }
    (table.len() == 22 + 8 * column_count(table))
        & (le::byte_at(table, 0) == 0x7C)
        & (1 <= row_size(table))
        & (existence_start(table) <= row_size(table))
}

// The i-th column, counted from 0.
pub fn column_at(table: &[u8], i: usize) -> Column
    requires { (30 + 8 * i ≤ length table.now) × (i < 65536) }
    ensures { (result ≡ column_at table.now i) × (result.offset < 65536) × (result.width < 256) × (result.bit < 256) }
{
    let tag = le::field4(table, 22 + 8 * i);
    let offset = short_in(table, 26 + 8 * i);
    let width = byte_in(table, 28 + 8 * i);
    let bit = byte_in(table, 29 + 8 * i);
    Column {
        tag,
        offset,
        width,
        bit,
    }
}

// The comparisons are joined by `|`, so that the compiler takes several columns at a time.
#[tactic(auto, unfolding(crate::specs::Columns::reference))]
fn is_reference(code: u32) -> bool
    ensures { result ≡ reference code }
{
    (code == 0x1F)
        | (code == 0x1E)
        | (code == 0x102)
        | (code == 0x0D)
        | (code == 0x48)
        | (code / 4096 % 2 == 1)
}

// Whether the column's cells hold what names their values, and not the values themselves.
pub fn refers(column: Column) -> bool
    ensures { result ≡ refers_of column }
{
    is_reference(column.tag % 65536)
}

#[tactic(auto, unfolding(crate::specs::Columns::width_fits))]
fn width_fits(column: Column) -> bool
    ensures { result ≡ width_fits column }
{
    if refers(column) {
        return column.width == 4;
    }
    matches!(column.width, 1 | 2 | 4 | 8)
}

fn column_fits(table: &[u8], column: Column) -> bool
    requires { RecordSound table.now × (column.offset < 65536) × (column.width < 256) × (column.bit < 256) }
    ensures { result ≡ column_fits table.now column }
{
    let start = existence_start(table);
    let bits = 8 * (row_size(table) - start);
    (column.offset + column.width <= start) & (column.bit + 1 <= bits) & width_fits(column)
}

// Whether each column has its place in a row.
pub fn each_fits(table: &[u8]) -> bool
    requires { RecordSound table.now }
    ensures { result ≡ each_fits table.now (column_count table.now) }
{
    let count = column_count(table);
    let mut fits = true;
    for i in 0..count {
        fits &= column_fits(table, column_at(table, i));
    }
    fits
}

// Where the column with the tag stands among the columns.
pub fn seat_of(table: &[u8], tag: u32) -> Option<usize>
    requires { RecordSound table.now }
    ensures { result ≡ seat_of table.now tag }
{
    let count = column_count(table);
    let end = 22 + 8 * count;
    let shape = Shape {
        size: 8,
        width: 4,
        reserved: false,
    };
    keys::first_that(&table[22..end], shape, count, Sought::Equal, tag as u64)
}
