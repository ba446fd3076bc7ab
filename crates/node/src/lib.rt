// Node data: one block, or a data tree of one level, into the lent buffer.
#![tactic(auto)]

ghost use Rattle.std.specs.Prelude.{◌≡◌, true, false, ◌+◌, ◌*◌, ◌≤◌, ◌<◌, length, Ok};
ghost use Rattle.keys.specs.Search.{joined};
ghost use Rattle.header.specs.Header.{header_fits};
ghost use Rattle.laws.specs.Front.{fronted};
ghost use Rattle.page.specs.Layout.{compared};
ghost use Rattle.tree.specs.Lookup.{lookup};
ghost use Rattle.tree.specs.Ways.{at_end, FromRoot};
ghost use Rattle.edition.specs.Fair.{FairRootBlock, FairEdition};
ghost use Rattle.block.specs.Block.{checked_block, block_bytes, internal};
ghost use Rattle.node.specs.Content.{number_at, numbers_from, none_internal, shape_fits, kids_of, tree_content, block_content, data_of, node_content, answer_to, filled_by};
ghost use Rattle.node.specs.Content.{bytes as bytes_of};
ghost use Rattle.node.specs.Steps.{measured_in, IsListed, AllListed, bytes_at};

use edition::{Edition, RootBlock};
use refusal::{Fault, Refusal};
use tree::{Found, Listed, Node, Way};

// The i-th number in a data tree's root block.
fn number_at(root: &[u8], d: RootBlock, i: usize) -> u64
    requires { FairRootBlock d × (8 + i * d.word + d.word ≤ length root.now) × (i ≤ 65535) }
    ensures { result ≡ number_at d root.now i }
{
    let width = d.word;
    le::field_of(root, 8 + i * width, width)
}

// Whether none of so many numbers is internal.
fn none_internal(root: &[u8], d: RootBlock, count: usize) -> bool
    requires { FairRootBlock d × (8 + count * d.word ≤ length root.now) × (count ≤ 65535) }
    ensures { result ≡ none_internal (numbers_from d root.now 0 count) }
{
    for i in 0..count {
        if block::is_internal(number_at(root, d, i)) {
            return false;
        }
    }
    true
}

// The shape of a data tree's root block.
fn shape_fits(root: &[u8], d: RootBlock) -> bool
    requires { FairRootBlock d }
    ensures { result ≡ shape_fits d root.now }
{
    let size = root.len();
    if size < 8 {
        return false;
    }
    let count = le::field2(root, 2) as usize;
    let whole = 8 + count * d.word;
    if size < whole {
        return false;
    }
    (8 <= size)
        & (root[0] == 1)
        & (root[1] == 1)
        & (1 <= count)
        & (count <= d.most)
        & (size == whole)
        & none_internal(root, d, count)
}

// The children of a data tree, each looked up and tested in turn. The root page is tested once; the way
// to a leaf page is taken again for the children behind that are listed there too.
fn measure(image: &[u8], e: Edition, root: &[u8], count: usize) -> Result<u64, Refusal>
    requires { FairEdition e × (8 + count * e.tree.word ≤ length root.now) × (count ≤ 65535) × (header_fits image.now ≡ Ok tt) }
    ensures { result ≡ measured_in (kids_of e image.now (numbers_from e.tree root.now 0 count)) }
{
    let start = tree::check_root(image, e.blocks);
    let mut way: Way = Ok(Found::Absent(0));
    let mut sum: u64 = 0;
    for i in 0..count {
        let number = number_at(root, e.tree, i);
        way = tree::way_to(image, e.blocks, start, way, number);
        sum += block::check_block_at(image, e, way, number)?.size;
    }
    Ok(sum)
}

// The block at the end of the way of a number whose tests have passed: a second lookup of the number
// finds the same block.
fn listed_at(image: &[u8], e: Edition, way: Way, number: u64) -> Listed
    requires { FairEdition e × IsListed e image.now number × FromRoot e.blocks image.now way × (at_end e.blocks image.now way (compared e.blocks number) ≡ lookup e.blocks image.now number) }
    ensures { checked_block e image.now number ≡ Ok result }
{
    let Ok(found) = tree::at(image, e.blocks, way, number) else {
        unreachable!();
    };
    let Found::Entry(b, _) = found else {
        unreachable!();
    };
    b
}

// The children's bytes, each right behind those of the child before.
fn gather(image: &[u8], e: Edition, root: &[u8], count: usize, out: &mut [u8])
    requires fair_edition { FairEdition e × (8 + count * e.tree.word ≤ length root.now) × (count ≤ 65535) × AllListed e image.now (numbers_from e.tree root.now 0 count) × (header_fits image.now ≡ Ok tt) }
    requires count_in_bounds { length (joined (bytes_at e image.now) (numbers_from e.tree root.now 0 count)) ≤ length out.old }
    ensures { out.new ≡ fronted (joined (bytes_at e image.now) (numbers_from e.tree root.now 0 count)) out.old }
{
    let start = tree::check_root(image, e.blocks);
    let mut way: Way = Ok(Found::Absent(0));
    let mut n: usize = 0;
    for i in 0..count {
        let child = number_at(root, e.tree, i);
        way = tree::way_to(image, e.blocks, start, way, child);
        let b = listed_at(image, e, way, child);
        block::block_into(image, b, &mut out[n..]);
        n += b.size as usize;
    }
}

// The data is one block: 17, then its bytes.
fn read_one(image: &[u8], b: Listed, out: &mut [u8]) -> Result<Option<u64>, Refusal>
    requires { (564 ≤ length image.now) × (b.offset + b.size ≤ length image.now) }
    ensures answer { result ≡ answer_to (bytes_of (block_bytes image.now b)) (length out.old) }
    ensures buffer { out.new ≡ filled_by (bytes_of (block_bytes image.now b)) out.old }
{
    let size = b.size;
    if (out.len() as u64) < size {
        return refusal::refused_needing(Fault::ShortBuffer, size);
    }
    block::block_into(image, b, out);
    Ok(Some(size))
}

// The data is a data tree with the root block's bytes as stored: its shape, its children in turn, the
// sum, 17, and then the bytes.
fn read_root(
    image: &[u8],
    e: Edition,
    root: &[u8],
    offset: u64,
    out: &mut [u8],
) -> Result<Option<u64>, Refusal>
    requires { FairEdition e × (header_fits image.now ≡ Ok tt) }
    ensures answer { result ≡ answer_to (tree_content e image.now offset root.now) (length out.old) }
    ensures buffer { out.new ≡ filled_by (tree_content e image.now offset root.now) out.old }
{
    if !shape_fits(root, e.tree) {
        return refusal::refused_at(Fault::DataTree, offset);
    }
    let count = le::field2(root, 2) as usize;
    let sum = measure(image, e, root, count)?;
    if sum != le::field4(root, 4) as u64 {
        return refusal::refused_at(Fault::DataTree, offset);
    }
    if (out.len() as u64) < sum {
        return refusal::refused_needing(Fault::ShortBuffer, sum);
    }
    gather(image, e, root, count, out);
    Ok(Some(sum))
}

// The data of a listed block that has passed its tests.
fn read_listed(image: &[u8], e: Edition, b: Listed, out: &mut [u8]) -> Result<Option<u64>, Refusal>
    requires { FairEdition e × (564 ≤ length image.now) × (b.offset + b.size ≤ length image.now) × (header_fits image.now ≡ Ok tt) }
    ensures answer { result ≡ answer_to (block_content e image.now b) (length out.old) }
    ensures buffer { out.new ≡ filled_by (block_content e image.now b) out.old }
{
    if block::is_internal(b.block) {
        let at = b.offset as usize;
        let size = b.size as usize;
        return read_root(image, e, &image[at..at + size], b.offset, out);
    }
    read_one(image, b, out)
}

// The data under a data block number: none under 0, and 1 counts as 0.
fn read_data(image: &[u8], e: Edition, number: u64, out: &mut [u8]) -> Result<Option<u64>, Refusal>
    requires { FairEdition e × (header_fits image.now ≡ Ok tt) }
    ensures answer { result ≡ answer_to (data_of e image.now number) (length out.old) }
    ensures buffer { out.new ≡ filled_by (data_of e image.now number) out.old }
{
    if keys::cleared(number) == 0 {
        return Ok(Some(0));
    }
    let b = block::check_block_in(image, e, number)?;
    read_listed(image, e, b, out)
}

// Node lookup, then its data block. The header is tested once, with the node. No byte is written before the last test has passed.
pub fn read_node(
    image: &[u8],
    e: Edition,
    node: u64,
    out: &mut [u8],
) -> Result<Option<u64>, Refusal>
    requires { FairEdition e }
    ensures answer { result ≡ answer_to (node_content e image.now node) (length out.old) }
    ensures buffer { out.new ≡ filled_by (node_content e image.now node) out.old }
{
    let Found::Entry(listed, _) = tree::find::<Node>(image, e.nodes, node)? else {
        return Ok(None);
    };
    read_data(image, e, listed.block, out)
}
