// A table on a heap: its record, its columns and its row index.
#![tactic(auto)]

ghost use Rattle.std.specs.Prelude.{◌≡◌};
ghost use Rattle.refusal.specs.Order.{in_order};
ghost use Rattle.heap.specs.Shape.{Heap};
ghost use Rattle.heaptree.specs.Lookup.{from_root};
ghost use Rattle.heaptree.specs.Root.{Rooted};
ghost use Rattle.table.specs.Context.{table_record, context_rules, table_test, TableSound};
ghost use Rattle.table.specs.Says.{named_by, table_in, table_of, column_in, column_of};
ghost use Rattle.table.specs.RowIndex.{row_index_of, row_index, row_index32, FairIndex, row_from, index_root, index_test, row_of};

use columns::Column;
use heaptree::HeapTree;
use refusal::{Fault, Refusal, Verdict};

// What a value names: nothing, an item of the heap, or a subnode.
#[derive(Clone, Copy, Debug, PartialEq, Eq)]
pub enum Named {
    Nothing,
    Item(u32),
    Subnode(u32),
}

// How many columns a table has, the size of a row, where its existence bytes begin, and what holds the rows.
#[derive(Clone, Copy, Debug, PartialEq, Eq)]
pub struct Table {
    pub columns: u64,
    pub size: u64,
    pub existence: u64,
    pub rows: Named,
}

// 23 for the heap's client kind, 19 for the user root's number, then 23 for the record and for the columns.
fn check_context(block: &[u8]) -> Verdict
    requires { Heap block.now }
    ensures { result ≡ in_order (context_rules block.now) }
{
    if heap::client_kind(block) != 0x7C {
        return refusal::refused_at(Fault::TableShape, 0);
    }
    let root = heap::user_root(block);
    if !heap::item_fits(block, root) {
        return refusal::refused_at(Fault::HeapItem, 0);
    }
    let table = heap::part_of(block, root);
    if !columns::record_fits(table) {
        return refusal::refused_at(Fault::TableShape, 0);
    }
    if !apart::columns_fit(table) {
        return refusal::refused_at(Fault::TableShape, 0);
    }
    Ok(())
}

// All that is tested before what a call is about: 18, then the table's own rules.
pub fn test_table(block: &[u8]) -> Verdict
    ensures { result ≡ table_test block.now }
{
    heap::test_heap(block)?;
    check_context(block)
}

// The record of an accepted table.
pub fn record_of<'a>(block: &'a [u8]) -> &'a [u8]
    requires { TableSound block.now }
    ensures { result.now ≡ table_record block.now }
{
    heap::part_of(block, heap::user_root(block))
}

pub fn named_by(value: u32) -> Named
    ensures { result ≡ named_by value }
{
    if value == 0 {
        return Named::Nothing;
    }
    if value % 32 != 0 {
        return Named::Subnode(value);
    }
    Named::Item(value)
}

fn table_in(block: &[u8]) -> Table
    requires { TableSound block.now }
    ensures { result ≡ table_in (table_record block.now) }
{
    let table = record_of(block);
    Table {
        columns: columns::column_count(table) as u64,
        size: columns::row_size(table) as u64,
        existence: columns::existence_start(table) as u64,
        rows: named_by(columns::rows_value(table)),
    }
}

// What a table says, of a block that need not hold one.
pub fn table_of(block: &[u8]) -> Result<Table, Refusal>
    ensures { result ≡ table_of block.now }
{
    test_table(block)?;
    Ok(table_in(block))
}

fn column_in(block: &[u8], index: u32) -> Option<Column>
    requires { TableSound block.now }
    ensures { result ≡ column_in (table_record block.now) index }
{
    let table = record_of(block);
    let i = index as usize;
    if columns::column_count(table) < i + 1 {
        return None;
    }
    Some(columns::column_at(table, i))
}

// A column by its index, in stored order.
pub fn column_of(block: &[u8], index: u32) -> Result<Option<Column>, Refusal>
    ensures { result ≡ column_of block.now index }
{
    test_table(block)?;
    Ok(column_in(block, index))
}

// A row index whose entries have so many bytes: its keys are ids of rows, its entries row numbers.
fn row_index(entry: usize) -> HeapTree
    ensures { result ≡ row_index_of entry }
{
    HeapTree {
        key: 4,
        entry,
        fault: Fault::TableShape,
    }
}

// The table, then the record from which the row index starts.
fn test_index(block: &[u8], tree: HeapTree) -> Verdict
    ensures { result ≡ index_test tree block.now }
{
    test_table(block)?;
    let root = columns::row_index_item(record_of(block));
    heaptree::check_root(block, tree, root)
}

fn find_in_index(block: &[u8], tree: HeapTree, id: u32) -> Result<Option<u32>, Refusal>
    requires { TableSound block.now × FairIndex tree × Rooted tree block.now (index_root block.now) }
    ensures { result ≡ row_from tree (from_root tree block.now (index_root block.now) id) }
{
    let root = columns::row_index_item(record_of(block));
    let Some(place) = heaptree::find_from(block, tree, root, id as u64)? else {
        return Ok(None);
    };
    Ok(Some(le::field_of(block, place + tree.key, tree.entry) as u32))
}

// The number of the row with the id, by this row index.
fn find_row_in(block: &[u8], tree: HeapTree, id: u32) -> Result<Option<u32>, Refusal>
    requires { FairIndex tree }
    ensures { result ≡ row_of tree block.now id }
{
    test_index(block, tree)?;
    find_in_index(block, tree, id)
}

// The number of the row with the id, by the row index.
pub fn find_row(block: &[u8], id: u32) -> Result<Option<u32>, Refusal>
    ensures { result ≡ row_of row_index block.now id }
{
    find_row_in(block, row_index(4), id)
}

// The same of a 32-bit file's table.
pub fn find_row32(block: &[u8], id: u32) -> Result<Option<u32>, Refusal>
    ensures { result ≡ row_of row_index32 block.now id }
{
    find_row_in(block, row_index(2), id)
}
