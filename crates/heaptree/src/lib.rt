// A search tree whose branches are items of a heap. What a tree is used for says the sizes of its records; the rest is here, once.
#![tactic(auto)]

ghost use Rattle.std.specs.Prelude.{◌≡◌, ◌+◌, ◌/◌, ◌%◌, ◌≤◌, ◌<◌, eqb};
ghost use Rattle.refusal.specs.Order.{in_order};
ghost use Rattle.keys.specs.Records.{key_of, RecordsIn};
ghost use Rattle.keys.specs.Search.{with_key};
ghost use Rattle.search.specs.Answer.{answer};
ghost use Rattle.search.specs.Descent.{descend};
ghost use Rattle.search.specs.Records.{child_at};
ghost use Rattle.heap.specs.Shape.{Heap};
ghost use Rattle.heap.specs.Items.{Numbered, item_part};
ghost use Rattle.heaptree.specs.Value.{FairTree, leaf_shape, index_shape, shape_at, record_key};
ghost use Rattle.heaptree.specs.Root.{root_fits, root_rules, Rooted};
ghost use Rattle.heaptree.specs.Branches.{record_count, records_fit, records_of, child_of, tree_on};
ghost use Rattle.heaptree.specs.Lookup.{from_root, Shows};
ghost use Rattle.heaptree.specs.Steps.{held_in, ChosenIs};

use keys::{Range, Shape, Sought};
use refusal::{Fault, Refusal, Verdict};

// What a tree on a heap is told by: how many bytes its keys and its entries have, and the fault of a wrong shape.
#[derive(Clone, Copy)]
pub struct HeapTree {
    pub key: usize,
    pub entry: usize,
    pub fault: Fault,
}

// An item of the tree as it is referred to, and the keys that may stand under it.
#[derive(Clone, Copy)]
pub struct Branch {
    pub item: u32,
    pub range: Range,
}

fn root_fits(tree: HeapTree, root: &[u8]) -> bool
    ensures { result ≡ root_fits tree root.now }
{
    if root.len() != 8 {
        return false;
    }
    (le::byte_at(root, 0) == 0xB5)
        & (le::byte_at(root, 1) as usize == tree.key)
        & (le::byte_at(root, 2) as usize == tree.entry)
        & (le::byte_at(root, 3) <= 3)
}

// The record from which a tree starts: 19 for the number of its item, then the tree's fault.
pub fn check_root(block: &[u8], tree: HeapTree, root: u32) -> Verdict
    requires { Heap block.now }
    ensures { result ≡ in_order (root_rules tree block.now root) }
{
    if !heap::item_fits(block, root) {
        return refusal::refused_at(Fault::HeapItem, 0);
    }
    if !root_fits(tree, heap::part_of(block, root)) {
        return refusal::refused_at(tree.fault, 0);
    }
    Ok(())
}

fn shape_at(tree: HeapTree, levels: usize) -> Shape
    requires { FairTree tree }
    ensures { result ≡ shape_at tree levels }
{
    if levels == 0 {
        return Shape {
            size: tree.key + tree.entry,
            width: tree.key,
            reserved: false,
        };
    }
    Shape {
        size: tree.key + 4,
        width: tree.key,
        reserved: false,
    }
}

// How many records of this size are whole. The sizes that properties have are said as numbers: the
// compiler needs no division for those.
fn whole_records(length: usize, size: usize) -> usize
    requires { 0 < size }
    ensures { result ≡ length / size }
{
    if size == 8 {
        return length / 8;
    }
    if size == 6 {
        return length / 6;
    }
    length / size
}

// Whether nothing is left behind them.
fn nothing_left(length: usize, size: usize, count: usize) -> bool
    requires { count ≡ length / size }
    ensures { result ≡ eqb (length % size) 0 }
{
    count * size == length
}

// Whether an item, which holds so many records of this shape, is whole, and their keys ascend in the range.
fn records_fit(bytes: &[u8], shape: Shape, count: usize, range: Range) -> bool
    requires { (0 < shape.size) × (shape.width ≤ shape.size) × (shape.width ≤ 8) × (count ≡ record_count shape bytes.now) }
    ensures { result ≡ records_fit shape range bytes.now }
{
    let order = keys::check_keys(bytes, shape, count, range);
    (1 <= bytes.len()) & nothing_left(bytes.len(), shape.size, count) & keys::is_climbing(order)
}

// An item of the tree: 19 for its number, then the tree's fault for its shape.
fn check_branch(
    block: &[u8],
    tree: HeapTree,
    levels: usize,
    branch: Branch,
) -> Result<usize, Refusal>
    requires { Heap block.now × FairTree tree }
    ensures { result ≡ held_in tree block.now levels branch }
{
    if !heap::item_fits(block, branch.item) {
        return refusal::refused_at(Fault::HeapItem, 0);
    }
    let records = heap::part_of(block, branch.item);
    let shape = shape_at(tree, levels);
    let count = whole_records(records.len(), shape.size);
    if !records_fit(records, shape, count, branch.range) {
        return refusal::refused_at(tree.fault, 0);
    }
    Ok(count)
}

// Where the leaf record with the key stands, in an accepted leaf item of so many records.
fn find_in_leaf(
    block: &[u8],
    tree: HeapTree,
    key: u64,
    item: u32,
    count: usize,
) -> Result<Option<usize>, Refusal>
    requires { Heap block.now × Numbered block.now item × FairTree tree × (count ≡ record_count (leaf_shape tree) (item_part block.now item)) }
    ensures { Shows tree block.now result (answer (with_key (record_key tree) key (records_of (leaf_shape tree) (item_part block.now item))) 1) }
{
    let records = heap::part_of(block, item);
    let shape = Shape {
        size: tree.key + tree.entry,
        width: tree.key,
        reserved: false,
    };
    let Some(i) = keys::first_that(records, shape, count, Sought::Equal, key) else {
        return Ok(None);
    };
    Ok(Some(heap::item_start(block, item) + i * shape.size))
}

// The child of the i-th of so many index records.
fn child_at(records: &[u8], shape: Shape, count: usize, i: usize, to: Option<u64>) -> Branch
    requires { RecordsIn shape count records.now × (shape.width + 4 ≤ shape.size) × (i < count) }
    ensures { result ≡ child_at (key_of shape) (child_of shape.width) to shape count records.now i }
{
    let item = le::field4(records, i * shape.size + shape.width);
    let range = keys::range_at(records, shape, count, i, to);
    Branch { item, range }
}

// The child of an accepted index item of so many records under which the key must stand.
fn choose_child(
    block: &[u8],
    tree: HeapTree,
    key: u64,
    branch: Branch,
    count: usize,
) -> Option<Branch>
    requires { Heap block.now × Numbered block.now branch.item × FairTree tree × (count ≡ record_count (index_shape tree) (item_part block.now branch.item)) }
    ensures { ChosenIs tree block.now key branch result }
{
    let records = heap::part_of(block, branch.item);
    let shape = Shape {
        size: tree.key + 4,
        width: tree.key,
        reserved: false,
    };
    let i = keys::last_at_most(records, shape, count, key)?;
    Some(child_at(records, shape, count, i, branch.range.to))
}

// The descent from an item so many index levels above the leaves.
fn find_under(
    block: &[u8],
    tree: HeapTree,
    key: u64,
    levels: usize,
    branch: Branch,
) -> Result<Option<usize>, Refusal>
    requires { Heap block.now × FairTree tree }
    ensures { Shows tree block.now result (descend (tree_on tree block.now) Sought.Equal key levels branch) }
{
    let count = check_branch(block, tree, levels, branch)?;
    if levels == 0 {
        return find_in_leaf(block, tree, key, branch.item, count);
    }
    let Some(child) = choose_child(block, tree, key, branch, count) else {
        return Ok(None);
    };
    find_under(block, tree, key, levels - 1, child)
}

// The leaf record with the key, of the tree that starts from an accepted root record.
pub fn find_from(
    block: &[u8],
    tree: HeapTree,
    root: u32,
    key: u64,
) -> Result<Option<usize>, Refusal>
    requires { Heap block.now × FairTree tree × Rooted tree block.now root }
    ensures { Shows tree block.now result (from_root tree block.now root key) }
{
    let record = heap::part_of(block, root);
    let item = le::field4(record, 4);
    if item == 0 {
        return Ok(None);
    }
    let levels = le::byte_at(record, 3) as usize;
    let range = Range { from: 0, to: None };
    find_under(block, tree, key, levels, Branch { item, range })
}
