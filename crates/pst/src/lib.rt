// The public calls. None asks for anything beforehand: any bytes and any numbers may be given.
#![tactic(auto)]

ghost use Rattle.std.specs.Prelude.{◌≡◌};
ghost use Rattle.pst.specs.Meaning.{verdict_means, header_means, node_means, block_means, sized_means, data_means, span_means, property_means, table_means, column_means, count_means, cell_means, row_means, cells_means};
ghost use Rattle.pst.specs.Outcomes.{header_outcome, nodes_outcome, blocks_outcome, node_outcome, list_outcome, list_area, block_outcome, next_node_outcome, next_block_outcome, test_outcome, read_outcome, read_buffer, data_outcome, data_buffer, code_outcome, encode_buffer, decode_buffer, heap_outcome, test_item_outcome, item_outcome, span_outcome, property_outcome, table_outcome, column_outcome, count_outcome, cell_outcome, row_outcome, row32_outcome, read_row_outcome, read_row_area, checksum_outcome, signature_outcome, room_outcome, room32_outcome};

use cells::Cell;
use columns::Column;
use header::Header;
use heap::Span;
use property::Property;
use refusal::{Refusal, Verdict};
use table::Table;
use tree::{Found, Listed, Node};

// What the header says.
pub fn header(image: &[u8]) -> Result<Header, Refusal>
    ensures { header_means result ≡ header_outcome image.now }
{
    header::header_of(image)
}

// The whole-tree check of the node tree.
pub fn check_nodes(image: &[u8]) -> Verdict
    ensures { verdict_means result ≡ nodes_outcome image.now }
{
    tree::check_tree(image, header::nodes_of(image))
}

// The whole-tree check of the block tree.
pub fn check_blocks(image: &[u8]) -> Verdict
    ensures { verdict_means result ≡ blocks_outcome image.now }
{
    tree::check_tree(image, header::blocks_of(image))
}

// A node by the low four bytes of its number.
pub fn find_node(image: &[u8], node: u64) -> Result<Found<Node>, Refusal>
    ensures { node_means result ≡ node_outcome image.now node }
{
    tree::find(image, header::nodes_of(image), node)
}

// A list of at most 4,096 nodes, each as by `find_node`; of each answer the nine words go into its place.
pub fn find_nodes(image: &[u8], nodes: &[u64], places: &mut [u64]) -> Verdict
    ensures answer { verdict_means result ≡ list_outcome nodes.now places.old }
    ensures area { places.new ≡ list_area image.now nodes.now places.old }
{
    nodelist::find_nodes(image, header::nodes_of(image), nodes, places)
}

// A block by its number.
pub fn find_block(image: &[u8], block: u64) -> Result<Found<Listed>, Refusal>
    ensures { block_means result ≡ block_outcome image.now block }
{
    tree::find(image, header::blocks_of(image), block)
}

// The first node whose number is at least `from`, by the low four bytes of both.
pub fn next_node(image: &[u8], from: u64) -> Result<Found<Node>, Refusal>
    ensures { node_means result ≡ next_node_outcome image.now from }
{
    tree::next(image, header::nodes_of(image), from)
}

// The first block whose number, with bit 0 cleared, is at least `from` as given.
pub fn next_block(image: &[u8], from: u64) -> Result<Found<Listed>, Refusal>
    ensures { block_means result ≡ next_block_outcome image.now from }
{
    tree::next(image, header::blocks_of(image), from)
}

// A block's size, after its tests.
pub fn test_block(image: &[u8], block: u64) -> Result<u64, Refusal>
    ensures { sized_means result ≡ test_outcome image.now block }
{
    block::test_block(image, header::edition_of(image), block)
}

// A block's bytes at the front of `out`, decoded unless the block is internal.
pub fn read_block(image: &[u8], block: u64, out: &mut [u8]) -> Result<u64, Refusal>
    ensures answer { sized_means result ≡ read_outcome image.now block out.old }
    ensures buffer { out.new ≡ read_buffer image.now block out.old }
{
    block::read_block(image, header::edition_of(image), block, out)
}

// The data of a node at the front of `out`.
pub fn read_node(image: &[u8], node: u64, out: &mut [u8]) -> Result<Option<u64>, Refusal>
    ensures answer { data_means result ≡ data_outcome image.now node out.old }
    ensures buffer { out.new ≡ data_buffer image.now node out.old }
{
    node::read_node(image, header::edition_of(image), node, out)
}

// Encodes the bytes in place.
pub fn encode(method: u8, block: u64, bytes: &mut [u8]) -> Verdict
    ensures answer { verdict_means result ≡ code_outcome method }
    ensures buffer { bytes.new ≡ encode_buffer method block bytes.old }
{
    coding::encode(method, block, bytes)
}

// Decodes the bytes in place.
pub fn decode(method: u8, block: u64, bytes: &mut [u8]) -> Verdict
    ensures answer { verdict_means result ≡ code_outcome method }
    ensures buffer { bytes.new ≡ decode_buffer method block bytes.old }
{
    coding::decode(method, block, bytes)
}

// The shape of a heap on one decoded block.
pub fn test_heap(block: &[u8]) -> Verdict
    ensures { verdict_means result ≡ heap_outcome block.now }
{
    heap::test_heap(block)
}

// The shape of the heap, then the item's number.
pub fn test_item(block: &[u8], item: u32) -> Verdict
    ensures { verdict_means result ≡ test_item_outcome block.now item }
{
    heap::test_item(block, item)
}

// The item as a part of the caller's block; the empty part for whatever the test refuses.
pub fn item<'a>(block: &'a [u8], item: u32) -> &'a [u8]
    ensures { result.now ≡ item_outcome block.now item }
{
    heap::item_of(block, item)
}

// Where the item starts in the caller's block and how long it is.
pub fn find_item(block: &[u8], item: u32) -> Result<Span, Refusal>
    ensures { span_means result ≡ span_outcome block.now item }
{
    heap::find_item(block, item)
}

// A property of the heap on the block.
pub fn find_property(block: &[u8], id: u16) -> Result<Option<Property>, Refusal>
    ensures { property_means result ≡ property_outcome block.now id }
{
    property::find_property(block, id)
}

// What the record of a table on the heap says, after the tests of the table and its columns.
pub fn table(block: &[u8]) -> Result<Table, Refusal>
    ensures { table_means result ≡ table_outcome block.now }
{
    table::table_of(block)
}

// A column of the table by its index, from 0.
pub fn column(block: &[u8], index: u32) -> Result<Option<Column>, Refusal>
    ensures { column_means result ≡ column_outcome block.now index }
{
    table::column_of(block, index)
}

// How many rows the table has. `rows` is the block of the rows where they lie in a subnode.
pub fn count_rows<'a>(block: &'a [u8], rows: &'a [u8]) -> Result<u64, Refusal>
    ensures { count_means result ≡ count_outcome block.now rows.now }
{
    cells::count_rows(block, rows)
}

// The cell of a row in the column with the tag.
pub fn cell<'a>(
    block: &'a [u8],
    rows: &'a [u8],
    row: u32,
    tag: u32,
) -> Result<Option<Cell>, Refusal>
    ensures { cell_means result ≡ cell_outcome block.now rows.now row tag }
{
    cells::cell_of(block, rows, row, tag)
}

// The number of the row with the id, from the row index of the table.
pub fn find_row(block: &[u8], id: u32) -> Result<Option<u32>, Refusal>
    ensures { row_means result ≡ row_outcome block.now id }
{
    table::find_row(block, id)
}

// The same of a 32-bit file's table.
pub fn find_row32(block: &[u8], id: u32) -> Result<Option<u32>, Refusal>
    ensures { row_means result ≡ row32_outcome block.now id }
{
    table::find_row32(block, id)
}

// All cells of a row, each as by `cell`; of each answer the six words go into its place.
pub fn read_row<'a>(
    block: &'a [u8],
    rows: &'a [u8],
    row: u32,
    places: &mut [u64],
) -> Result<Option<u64>, Refusal>
    ensures answer { cells_means result ≡ read_row_outcome block.now rows.now row places.old }
    ensures area { places.new ≡ read_row_area block.now rows.now row places.old }
{
    rowcells::read_row(block, rows, row, places)
}

pub fn checksum(bytes: &[u8]) -> u32
    ensures { result ≡ checksum_outcome bytes.now }
{
    crc::checksum(bytes)
}

pub fn signature(offset: u64, number: u64) -> u16
    ensures { result ≡ signature_outcome offset number }
{
    page::signature(offset, number)
}

// The room of a block with so many bytes of data.
pub fn room(size: u32) -> u64
    ensures { result ≡ room_outcome size }
{
    block::room(size)
}

// The same in a 32-bit file.
pub fn room32(size: u32) -> u64
    ensures { result ≡ room32_outcome size }
{
    block::room32(size)
}
