// The public calls for C and other hosts, as include/rekwonuda.h documents them.
#![tactic(auto)]

ghost use Rattle.std.specs.Prelude.{◌≡◌, length};
ghost use Rattle.refusal.specs.Number.{number};
ghost use Rattle.crc.specs.Checksum.{checksum};
ghost use Rattle.coding.specs.Coding.{method_fits, encoded, decoded};
ghost use Rattle.header.specs.Header.{edition_of, nodes_of, blocks_of, header_of};
ghost use Rattle.page.specs.Page.{signature};
ghost use Rattle.tree.specs.Tree.{tree_fits};
ghost use Rattle.tree.specs.Answers.{node_of, block_of, next_node_of, next_block_of};
ghost use Rattle.nodelist.specs.Places.{list_fits, area_of};
ghost use Rattle.block.specs.Block.{room, room32, test_of, read_of, filled_of};
ghost use Rattle.node.specs.Content.{node_content, answer_to, filled_by};
ghost use Rattle.heap.specs.Shape.{heap_test};
ghost use Rattle.heap.specs.Items.{item_test, item_span};
ghost use Rattle.property.specs.Lookup.{property as property_in};
ghost use Rattle.table.specs.Says.{table_of, column_of};
ghost use Rattle.table.specs.RowIndex.{row_index, row_index32, row_of};
ghost use Rattle.cells.specs.Rows.{count_of};
ghost use Rattle.cells.specs.Cells.{cell_of};
ghost use Rattle.rowcells.specs.RowCells.{row_read, row_area};
ghost use Rattle.pst.specs.Meaning.{kind_of, number_of};
ghost use Rattle.rkw.specs.Tables.{table_answer, no_table, column_answer, no_column, count_answer, cell_answer, valued_cell, no_cell, row_answer, cells_answer};
ghost use Rattle.rkw.specs.Answers.{verdict_answer, header_answer, node_answer, block_answer, size_answer, length_answer, data_answer, item_answer, property_answer, no_node, no_block, valued_of, no_property};

use cells::Cell;
use columns::Column;
use header::Header;
use heap::Span;
use property::Property;
use refusal::{Refusal, Verdict};
use table::{Named, Table};
use tree::{Found, Listed, Node};

#[repr(C)]
#[derive(Clone, Copy)]
pub struct RkwVerdict {
    pub refusal: u64,
    pub place: u64,
    pub more: u64,
}

#[repr(C)]
#[derive(Clone, Copy)]
pub struct RkwHeader {
    pub refusal: u64,
    pub place: u64,
    pub more: u64,
    pub method: u64,
    pub nodes_number: u64,
    pub nodes_offset: u64,
    pub blocks_number: u64,
    pub blocks_offset: u64,
    pub end: u64,
    pub edition: u64,
}

#[repr(C)]
#[derive(Clone, Copy)]
pub struct RkwNode {
    pub refusal: u64,
    pub place: u64,
    pub more: u64,
    pub found: u64,
    pub pages: u64,
    pub node: u64,
    pub data: u64,
    pub subnode: u64,
    pub parent: u64,
}

#[repr(C)]
#[derive(Clone, Copy)]
pub struct RkwBlock {
    pub refusal: u64,
    pub place: u64,
    pub more: u64,
    pub found: u64,
    pub pages: u64,
    pub block: u64,
    pub offset: u64,
    pub size: u64,
    pub references: u64,
}

#[repr(C)]
#[derive(Clone, Copy)]
pub struct RkwSize {
    pub refusal: u64,
    pub place: u64,
    pub more: u64,
    pub size: u64,
}

#[repr(C)]
#[derive(Clone, Copy)]
pub struct RkwLength {
    pub refusal: u64,
    pub place: u64,
    pub more: u64,
    pub length: u64,
}

#[repr(C)]
#[derive(Clone, Copy)]
pub struct RkwData {
    pub refusal: u64,
    pub place: u64,
    pub more: u64,
    pub found: u64,
    pub length: u64,
}

#[repr(C)]
#[derive(Clone, Copy)]
pub struct RkwItem {
    pub refusal: u64,
    pub place: u64,
    pub more: u64,
    pub start: u64,
    pub length: u64,
}

// The property's type is called `type` in C.
#[repr(C)]
#[derive(Clone, Copy)]
pub struct RkwProperty {
    pub refusal: u64,
    pub place: u64,
    pub more: u64,
    pub found: u64,
    pub code: u64,
    pub kind: u64,
    pub value: u64,
}

#[repr(C)]
#[derive(Clone, Copy)]
pub struct RkwTable {
    pub refusal: u64,
    pub place: u64,
    pub more: u64,
    pub columns: u64,
    pub row_size: u64,
    pub existence: u64,
    pub rows_kind: u64,
    pub rows_value: u64,
}

#[repr(C)]
#[derive(Clone, Copy)]
pub struct RkwColumn {
    pub refusal: u64,
    pub place: u64,
    pub more: u64,
    pub found: u64,
    pub tag: u64,
    pub offset: u64,
    pub width: u64,
    pub bit: u64,
}

#[repr(C)]
#[derive(Clone, Copy)]
pub struct RkwCount {
    pub refusal: u64,
    pub place: u64,
    pub more: u64,
    pub rows: u64,
}

#[repr(C)]
#[derive(Clone, Copy)]
pub struct RkwCell {
    pub refusal: u64,
    pub place: u64,
    pub more: u64,
    pub found: u64,
    pub kind: u64,
    pub value: u64,
}

#[repr(C)]
#[derive(Clone, Copy)]
pub struct RkwRow {
    pub refusal: u64,
    pub place: u64,
    pub more: u64,
    pub found: u64,
    pub row: u64,
}

#[repr(C)]
#[derive(Clone, Copy)]
pub struct RkwCells {
    pub refusal: u64,
    pub place: u64,
    pub more: u64,
    pub found: u64,
    pub cells: u64,
}

fn number_in(refusal: Refusal) -> u64
    ensures { result ≡ number refusal.fault }
{
    let fault = refusal.fault;
    refusal::number_of(fault) as u64
}

impl From<Verdict> for RkwVerdict {
    ghost from_gives = { λ answer r. r ≡ verdict_answer answer };

    #[tactic(auto, unfolding(crate::specs::Answers::verdict_answer))]
    fn from(answer: Verdict) -> RkwVerdict {
        match answer {
            Ok(()) => RkwVerdict {
                refusal: 0,
                place: 0,
                more: 0,
            },
            Err(r) => RkwVerdict {
                refusal: number_in(r),
                place: r.place,
                more: r.more,
            },
        }
    }
}

impl From<Result<Header, Refusal>> for RkwHeader {
    ghost from_gives = { λ answer r. r ≡ header_answer answer };

    #[tactic(auto, unfolding(crate::specs::Answers::header_answer))]
    fn from(answer: Result<Header, Refusal>) -> RkwHeader {
        match answer {
            Ok(h) => RkwHeader {
                refusal: 0,
                place: 0,
                more: 0,
                method: h.method as u64,
                nodes_number: h.nodes.number,
                nodes_offset: h.nodes.offset,
                blocks_number: h.blocks.number,
                blocks_offset: h.blocks.offset,
                end: h.end,
                edition: h.edition,
            },
            Err(r) => RkwHeader {
                refusal: number_in(r),
                place: r.place,
                more: r.more,
                method: 0,
                nodes_number: 0,
                nodes_offset: 0,
                blocks_number: 0,
                blocks_offset: 0,
                end: 0,
                edition: 0,
            },
        }
    }
}

impl From<Result<Found<Node>, Refusal>> for RkwNode {
    ghost from_gives = { λ answer r. r ≡ node_answer answer };

    #[tactic(auto, unfolding(crate::specs::Answers::node_answer, nodelist::specs::Places::node_words))]
    fn from(answer: Result<Found<Node>, Refusal>) -> RkwNode {
        match answer {
            Ok(Found::Entry(n, pages)) => RkwNode {
                refusal: 0,
                place: 0,
                more: 0,
                found: 1,
                pages,
                node: n.node,
                data: n.block,
                subnode: n.subnode,
                parent: n.parent,
            },
            Ok(Found::Absent(pages)) => no_node(0, 0, 0, pages),
            Err(r) => no_node(number_in(r), r.place, r.more, 0),
        }
    }
}

fn no_node(refusal: u64, place: u64, more: u64, pages: u64) -> RkwNode
    ensures { result ≡ no_node refusal place more pages }
{
    RkwNode {
        refusal,
        place,
        more,
        found: 0,
        pages,
        node: 0,
        data: 0,
        subnode: 0,
        parent: 0,
    }
}

impl From<Result<Found<Listed>, Refusal>> for RkwBlock {
    ghost from_gives = { λ answer r. r ≡ block_answer answer };

    #[tactic(auto, unfolding(crate::specs::Answers::block_answer))]
    fn from(answer: Result<Found<Listed>, Refusal>) -> RkwBlock {
        match answer {
            Ok(Found::Entry(b, pages)) => RkwBlock {
                refusal: 0,
                place: 0,
                more: 0,
                found: 1,
                pages,
                block: b.block,
                offset: b.offset,
                size: b.size,
                references: b.references,
            },
            Ok(Found::Absent(pages)) => no_block(0, 0, 0, pages),
            Err(r) => no_block(number_in(r), r.place, r.more, 0),
        }
    }
}

fn no_block(refusal: u64, place: u64, more: u64, pages: u64) -> RkwBlock
    ensures { result ≡ no_block refusal place more pages }
{
    RkwBlock {
        refusal,
        place,
        more,
        found: 0,
        pages,
        block: 0,
        offset: 0,
        size: 0,
        references: 0,
    }
}

impl From<Result<u64, Refusal>> for RkwSize {
    ghost from_gives = { λ answer r. r ≡ size_answer answer };

    #[tactic(auto, unfolding(crate::specs::Answers::size_answer))]
    fn from(answer: Result<u64, Refusal>) -> RkwSize {
        match answer {
            Ok(size) => RkwSize {
                refusal: 0,
                place: 0,
                more: 0,
                size,
            },
            Err(r) => RkwSize {
                refusal: number_in(r),
                place: r.place,
                more: r.more,
                size: 0,
            },
        }
    }
}

impl From<Result<u64, Refusal>> for RkwLength {
    ghost from_gives = { λ answer r. r ≡ length_answer answer };

    #[tactic(auto, unfolding(crate::specs::Answers::length_answer))]
    fn from(answer: Result<u64, Refusal>) -> RkwLength {
        match answer {
            Ok(length) => RkwLength {
                refusal: 0,
                place: 0,
                more: 0,
                length,
            },
            Err(r) => RkwLength {
                refusal: number_in(r),
                place: r.place,
                more: r.more,
                length: 0,
            },
        }
    }
}

impl From<Result<Option<u64>, Refusal>> for RkwData {
    ghost from_gives = { λ answer r. r ≡ data_answer answer };

    #[tactic(auto, unfolding(crate::specs::Answers::data_answer))]
    fn from(answer: Result<Option<u64>, Refusal>) -> RkwData {
        match answer {
            Ok(Some(length)) => RkwData {
                refusal: 0,
                place: 0,
                more: 0,
                found: 1,
                length,
            },
            Ok(None) => RkwData {
                refusal: 0,
                place: 0,
                more: 0,
                found: 0,
                length: 0,
            },
            Err(r) => RkwData {
                refusal: number_in(r),
                place: r.place,
                more: r.more,
                found: 0,
                length: 0,
            },
        }
    }
}

impl From<Result<Span, Refusal>> for RkwItem {
    ghost from_gives = { λ answer r. r ≡ item_answer answer };

    #[tactic(auto, unfolding(crate::specs::Answers::item_answer))]
    fn from(answer: Result<Span, Refusal>) -> RkwItem {
        match answer {
            Ok(item) => RkwItem {
                refusal: 0,
                place: 0,
                more: 0,
                start: item.start as u64,
                length: item.length as u64,
            },
            Err(r) => RkwItem {
                refusal: number_in(r),
                place: r.place,
                more: r.more,
                start: 0,
                length: 0,
            },
        }
    }
}

// A property that is there: its type, the kind of its value, and the value.
fn valued(code: u16, kind: u64, value: u32) -> RkwProperty
    ensures { result ≡ valued_of code kind value }
{
    RkwProperty {
        refusal: 0,
        place: 0,
        more: 0,
        found: 1,
        code: code as u64,
        kind,
        value: value as u64,
    }
}

fn no_property(refusal: u64, place: u64, more: u64) -> RkwProperty
    ensures { result ≡ no_property refusal place more }
{
    RkwProperty {
        refusal,
        place,
        more,
        found: 0,
        code: 0,
        kind: 0,
        value: 0,
    }
}

impl From<Result<Option<Property>, Refusal>> for RkwProperty {
    ghost from_gives = { λ answer r. r ≡ property_answer answer };

    #[tactic(auto, unfolding(crate::specs::Answers::property_answer))]
    fn from(answer: Result<Option<Property>, Refusal>) -> RkwProperty {
        match answer {
            Ok(Some(Property::Number(code, value))) => valued(code, 0, value),
            Ok(Some(Property::Empty(code))) => valued(code, 1, 0),
            Ok(Some(Property::Item(code, item))) => valued(code, 2, item),
            Ok(Some(Property::Subnode(code, subnode))) => valued(code, 3, subnode),
            Ok(None) => no_property(0, 0, 0),
            Err(r) => no_property(number_in(r), r.place, r.more),
        }
    }
}

fn kind_of(named: Named) -> u64
    ensures { result ≡ kind_of named }
{
    match named {
        Named::Nothing => 1,
        Named::Item(_) => 2,
        Named::Subnode(_) => 3,
    }
}

fn number_of(named: Named) -> u64
    ensures { result ≡ number_of named }
{
    match named {
        Named::Nothing => 0,
        Named::Item(item) => item as u64,
        Named::Subnode(subnode) => subnode as u64,
    }
}

impl From<Result<Table, Refusal>> for RkwTable {
    ghost from_gives = { λ answer r. r ≡ table_answer answer };

    #[tactic(auto, unfolding(crate::specs::Tables::table_answer))]
    fn from(answer: Result<Table, Refusal>) -> RkwTable {
        match answer {
            Ok(t) => {
                let rows = t.rows;
                RkwTable {
                    refusal: 0,
                    place: 0,
                    more: 0,
                    columns: t.columns,
                    row_size: t.size,
                    existence: t.existence,
                    rows_kind: kind_of(rows),
                    rows_value: number_of(rows),
                }
            }
            Err(r) => no_table(number_in(r), r.place, r.more),
        }
    }
}

fn no_table(refusal: u64, place: u64, more: u64) -> RkwTable
    ensures { result ≡ no_table refusal place more }
{
    RkwTable {
        refusal,
        place,
        more,
        columns: 0,
        row_size: 0,
        existence: 0,
        rows_kind: 0,
        rows_value: 0,
    }
}

fn no_column(refusal: u64, place: u64, more: u64) -> RkwColumn
    ensures { result ≡ no_column refusal place more }
{
    RkwColumn {
        refusal,
        place,
        more,
        found: 0,
        tag: 0,
        offset: 0,
        width: 0,
        bit: 0,
    }
}

impl From<Result<Option<Column>, Refusal>> for RkwColumn {
    ghost from_gives = { λ answer r. r ≡ column_answer answer };

    #[tactic(auto, unfolding(crate::specs::Tables::column_answer))]
    fn from(answer: Result<Option<Column>, Refusal>) -> RkwColumn {
        match answer {
            Ok(Some(c)) => RkwColumn {
                refusal: 0,
                place: 0,
                more: 0,
                found: 1,
                tag: c.tag as u64,
                offset: c.offset as u64,
                width: c.width as u64,
                bit: c.bit as u64,
            },
            Ok(None) => no_column(0, 0, 0),
            Err(r) => no_column(number_in(r), r.place, r.more),
        }
    }
}

impl From<Result<u64, Refusal>> for RkwCount {
    ghost from_gives = { λ answer r. r ≡ count_answer answer };

    #[tactic(auto, unfolding(crate::specs::Tables::count_answer))]
    fn from(answer: Result<u64, Refusal>) -> RkwCount {
        match answer {
            Ok(rows) => RkwCount {
                refusal: 0,
                place: 0,
                more: 0,
                rows,
            },
            Err(r) => RkwCount {
                refusal: number_in(r),
                place: r.place,
                more: r.more,
                rows: 0,
            },
        }
    }
}

// A cell that is there, or missing in its row: its kind and its value.
fn valued_cell(kind: u64, value: u64) -> RkwCell
    ensures { result ≡ valued_cell kind value }
{
    RkwCell {
        refusal: 0,
        place: 0,
        more: 0,
        found: 1,
        kind,
        value,
    }
}

fn no_cell(refusal: u64, place: u64, more: u64) -> RkwCell
    ensures { result ≡ no_cell refusal place more }
{
    RkwCell {
        refusal,
        place,
        more,
        found: 0,
        kind: 0,
        value: 0,
    }
}

impl From<Result<Option<Cell>, Refusal>> for RkwCell {
    ghost from_gives = { λ answer r. r ≡ cell_answer answer };

    #[tactic(auto, unfolding(crate::specs::Tables::cell_answer, rowcells::specs::RowCells::cell_words))]
    fn from(answer: Result<Option<Cell>, Refusal>) -> RkwCell {
        match answer {
            Ok(Some(Cell::Number(value))) => valued_cell(0, value),
            Ok(Some(Cell::Empty)) => valued_cell(1, 0),
            Ok(Some(Cell::Item(item))) => valued_cell(2, item as u64),
            Ok(Some(Cell::Subnode(subnode))) => valued_cell(3, subnode as u64),
            Ok(Some(Cell::Missing)) => valued_cell(4, 0),
            Ok(None) => no_cell(0, 0, 0),
            Err(r) => no_cell(number_in(r), r.place, r.more),
        }
    }
}

impl From<Result<Option<u32>, Refusal>> for RkwRow {
    ghost from_gives = { λ answer r. r ≡ row_answer answer };

    #[tactic(auto, unfolding(crate::specs::Tables::row_answer))]
    fn from(answer: Result<Option<u32>, Refusal>) -> RkwRow {
        match answer {
            Ok(Some(row)) => RkwRow {
                refusal: 0,
                place: 0,
                more: 0,
                found: 1,
                row: row as u64,
            },
            Ok(None) => RkwRow {
                refusal: 0,
                place: 0,
                more: 0,
                found: 0,
                row: 0,
            },
            Err(r) => RkwRow {
                refusal: number_in(r),
                place: r.place,
                more: r.more,
                found: 0,
                row: 0,
            },
        }
    }
}

impl From<Result<Option<u64>, Refusal>> for RkwCells {
    ghost from_gives = { λ answer r. r ≡ cells_answer answer };

    #[tactic(auto, unfolding(crate::specs::Tables::cells_answer))]
    fn from(answer: Result<Option<u64>, Refusal>) -> RkwCells {
        match answer {
            Ok(Some(cells)) => RkwCells {
                refusal: 0,
                place: 0,
                more: 0,
                found: 1,
                cells,
            },
            Ok(None) => RkwCells {
                refusal: 0,
                place: 0,
                more: 0,
                found: 0,
                cells: 0,
            },
            Err(r) => RkwCells {
                refusal: number_in(r),
                place: r.place,
                more: r.more,
                found: 0,
                cells: 0,
            },
        }
    }
}

#[unsafe(no_mangle)]
pub extern "C" fn rkw_header(image: &[u8]) -> RkwHeader
    ensures { result ≡ header_answer (header_of image.now) }
{
    RkwHeader::from(pst::header(image))
}

#[unsafe(no_mangle)]
pub extern "C" fn rkw_check_nodes(image: &[u8]) -> RkwVerdict
    ensures { result ≡ verdict_answer (tree_fits (nodes_of image.now) image.now) }
{
    RkwVerdict::from(pst::check_nodes(image))
}

#[unsafe(no_mangle)]
pub extern "C" fn rkw_check_blocks(image: &[u8]) -> RkwVerdict
    ensures { result ≡ verdict_answer (tree_fits (blocks_of image.now) image.now) }
{
    RkwVerdict::from(pst::check_blocks(image))
}

#[unsafe(no_mangle)]
pub extern "C" fn rkw_find_node(image: &[u8], node: u64) -> RkwNode
    ensures { result ≡ node_answer (node_of (nodes_of image.now) image.now node) }
{
    RkwNode::from(pst::find_node(image, node))
}

#[unsafe(no_mangle)]
pub extern "C" fn rkw_find_nodes(image: &[u8], nodes: &[u64], places: &mut [u64]) -> RkwVerdict
    ensures answer { result ≡ verdict_answer (list_fits (length nodes.now) (length places.old)) }
    ensures area { places.new ≡ area_of (nodes_of image.now) image.now nodes.now places.old }
{
    RkwVerdict::from(pst::find_nodes(image, nodes, places))
}

#[unsafe(no_mangle)]
pub extern "C" fn rkw_find_block(image: &[u8], block: u64) -> RkwBlock
    ensures { result ≡ block_answer (block_of (blocks_of image.now) image.now block) }
{
    RkwBlock::from(pst::find_block(image, block))
}

#[unsafe(no_mangle)]
pub extern "C" fn rkw_next_node(image: &[u8], from: u64) -> RkwNode
    ensures { result ≡ node_answer (next_node_of (nodes_of image.now) image.now from) }
{
    RkwNode::from(pst::next_node(image, from))
}

#[unsafe(no_mangle)]
pub extern "C" fn rkw_next_block(image: &[u8], from: u64) -> RkwBlock
    ensures { result ≡ block_answer (next_block_of (blocks_of image.now) image.now from) }
{
    RkwBlock::from(pst::next_block(image, from))
}

#[unsafe(no_mangle)]
pub extern "C" fn rkw_test_block(image: &[u8], block: u64) -> RkwSize
    ensures { result ≡ size_answer (test_of (edition_of image.now) image.now block) }
{
    RkwSize::from(pst::test_block(image, block))
}

#[unsafe(no_mangle)]
pub extern "C" fn rkw_read_block(image: &[u8], block: u64, out: &mut [u8]) -> RkwLength
    ensures answer { result ≡ length_answer (read_of (edition_of image.now) image.now block (length out.old)) }
    ensures buffer { out.new ≡ filled_of (edition_of image.now) image.now block out.old }
{
    RkwLength::from(pst::read_block(image, block, out))
}

#[unsafe(no_mangle)]
pub extern "C" fn rkw_read_node(image: &[u8], node: u64, out: &mut [u8]) -> RkwData
    ensures answer { result ≡ data_answer (answer_to (node_content (edition_of image.now) image.now node) (length out.old)) }
    ensures buffer { out.new ≡ filled_by (node_content (edition_of image.now) image.now node) out.old }
{
    RkwData::from(pst::read_node(image, node, out))
}

#[unsafe(no_mangle)]
pub extern "C" fn rkw_encode(method: u8, block: u64, bytes: &mut [u8]) -> RkwVerdict
    ensures answer { result ≡ verdict_answer (method_fits method) }
    ensures buffer { bytes.new ≡ encoded method block bytes.old }
{
    RkwVerdict::from(pst::encode(method, block, bytes))
}

#[unsafe(no_mangle)]
pub extern "C" fn rkw_decode(method: u8, block: u64, bytes: &mut [u8]) -> RkwVerdict
    ensures answer { result ≡ verdict_answer (method_fits method) }
    ensures buffer { bytes.new ≡ decoded method block bytes.old }
{
    RkwVerdict::from(pst::decode(method, block, bytes))
}

#[unsafe(no_mangle)]
pub extern "C" fn rkw_test_heap(block: &[u8]) -> RkwVerdict
    ensures { result ≡ verdict_answer (heap_test block.now) }
{
    RkwVerdict::from(pst::test_heap(block))
}

#[unsafe(no_mangle)]
pub extern "C" fn rkw_test_item(block: &[u8], item: u32) -> RkwVerdict
    ensures { result ≡ verdict_answer (item_test block.now item) }
{
    RkwVerdict::from(pst::test_item(block, item))
}

#[unsafe(no_mangle)]
pub extern "C" fn rkw_item(block: &[u8], item: u32) -> RkwItem
    ensures { result ≡ item_answer (item_span block.now item) }
{
    RkwItem::from(pst::find_item(block, item))
}

#[unsafe(no_mangle)]
pub extern "C" fn rkw_find_property(block: &[u8], id: u16) -> RkwProperty
    ensures { result ≡ property_answer (property_in block.now id) }
{
    RkwProperty::from(pst::find_property(block, id))
}

#[unsafe(no_mangle)]
pub extern "C" fn rkw_table(block: &[u8]) -> RkwTable
    ensures { result ≡ table_answer (table_of block.now) }
{
    RkwTable::from(pst::table(block))
}

#[unsafe(no_mangle)]
pub extern "C" fn rkw_column(block: &[u8], index: u32) -> RkwColumn
    ensures { result ≡ column_answer (column_of block.now index) }
{
    RkwColumn::from(pst::column(block, index))
}

#[unsafe(no_mangle)]
pub extern "C" fn rkw_count_rows<'a>(block: &'a [u8], rows: &'a [u8]) -> RkwCount
    ensures { result ≡ count_answer (count_of block.now rows.now) }
{
    RkwCount::from(pst::count_rows(block, rows))
}

#[unsafe(no_mangle)]
pub extern "C" fn rkw_cell<'a>(block: &'a [u8], rows: &'a [u8], row: u32, tag: u32) -> RkwCell
    ensures { result ≡ cell_answer (cell_of block.now rows.now row tag) }
{
    RkwCell::from(pst::cell(block, rows, row, tag))
}

#[unsafe(no_mangle)]
pub extern "C" fn rkw_find_row(block: &[u8], id: u32) -> RkwRow
    ensures { result ≡ row_answer (row_of row_index block.now id) }
{
    RkwRow::from(pst::find_row(block, id))
}

#[unsafe(no_mangle)]
pub extern "C" fn rkw_find_row32(block: &[u8], id: u32) -> RkwRow
    ensures { result ≡ row_answer (row_of row_index32 block.now id) }
{
    RkwRow::from(pst::find_row32(block, id))
}

#[unsafe(no_mangle)]
pub extern "C" fn rkw_read_row<'a>(
    block: &'a [u8],
    rows: &'a [u8],
    row: u32,
    places: &mut [u64],
) -> RkwCells
    ensures answer { result ≡ cells_answer (row_read block.now rows.now row (length places.old)) }
    ensures area { places.new ≡ row_area block.now rows.now row places.old }
{
    RkwCells::from(pst::read_row(block, rows, row, places))
}

#[unsafe(no_mangle)]
pub extern "C" fn rkw_checksum(bytes: &[u8]) -> u64
    ensures { result ≡ checksum bytes.now }
{
    pst::checksum(bytes) as u64
}

#[unsafe(no_mangle)]
pub extern "C" fn rkw_signature(offset: u64, number: u64) -> u64
    ensures { result ≡ signature offset number }
{
    pst::signature(offset, number) as u64
}

#[unsafe(no_mangle)]
pub extern "C" fn rkw_room(size: u32) -> u64
    ensures { result ≡ room size }
{
    pst::room(size)
}

#[unsafe(no_mangle)]
pub extern "C" fn rkw_room32(size: u32) -> u64
    ensures { result ≡ room32 size }
{
    pst::room32(size)
}
