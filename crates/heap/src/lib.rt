// A heap on one decoded block: its shape, and its items as parts of the block.
#![tactic(auto)]

ghost use Rattle.std.specs.Prelude.{◌≡◌, ◌+◌, ◌*◌, ◌≤◌, ◌<◌, leb, length};
ghost use Rattle.le.specs.Bytes.{field};
ghost use Rattle.heap.specs.Shape.{map_offset, client_kind, user_root, item_count, offset, map_end, never_fall, offsets_fit, heap_test, Heap};
ghost use Rattle.heap.specs.Items.{item_index, item_fits, Numbered, item_test, item_start, item_end, item_length, item_part, item_or, item_span};

use refusal::{Fault, Refusal, Verdict};
use std::ops::Range;

// Where an item starts and how long it is.
#[derive(Clone, Copy, Debug, PartialEq, Eq)]
pub struct Span {
    pub start: usize,
    pub length: usize,
}

fn offset_in(block: &[u8], place: usize) -> usize
    requires { place + 2 ≤ length block.now }
    ensures { (result ≡ field block.now place 2) × (result < 65536) }
{
    le::field2(block, place) as usize
}

fn map_offset(block: &[u8]) -> usize
    requires { 12 ≤ length block.now }
    ensures { (result ≡ map_offset block.now) × (result < 65536) }
{
    offset_in(block, 0)
}

fn item_count(block: &[u8]) -> usize
    requires { (12 ≤ length block.now) × (map_offset block.now + 2 ≤ length block.now) }
    ensures { (result ≡ item_count block.now) × (result < 65536) }
{
    offset_in(block, map_offset(block))
}

// The i-th offset of the map, counted from 1.
fn offset_at(block: &[u8], i: usize) -> usize
    requires { (12 ≤ length block.now) × (map_offset block.now + 4 + 2 * i ≤ length block.now) × (i ≤ 65536) }
    ensures { (result ≡ offset block.now i) × (result < 65536) }
{
    offset_in(block, map_offset(block) + 2 + 2 * i)
}

fn map_fits(block: &[u8]) -> bool
    requires { 12 ≤ length block.now }
    ensures { result ≡ leb (map_end block.now) (length block.now) }
{
    let map = map_offset(block);
    if block.len() < map + 2 {
        return false;
    }
    map + 4 + 2 * (item_count(block) + 1) <= block.len()
}

// All offsets are looked at, whatever is found: so the compiler compares several at once.
fn order_fits(block: &[u8]) -> bool
    requires { (12 ≤ length block.now) × (map_end block.now ≤ length block.now) }
    ensures { result ≡ never_fall block.now (item_count block.now) }
{
    let count = item_count(block);
    let mut fits = true;
    for i in 0..count {
        let last = offset_at(block, i + 1);
        let next = offset_at(block, i + 2);
        fits &= last <= next;
    }
    fits
}

fn offsets_fit(block: &[u8]) -> bool
    requires { (12 ≤ length block.now) × (map_end block.now ≤ length block.now) }
    ensures { result ≡ offsets_fit block.now }
{
    let count = item_count(block);
    order_fits(block)
        & (12 <= offset_at(block, 1))
        & (offset_at(block, count + 1) <= map_offset(block))
}

// Whether the block is a heap: 18 where it is not.
pub fn test_heap(block: &[u8]) -> Verdict
    ensures { result ≡ heap_test block.now }
{
    let wrong = refusal::refused_at(Fault::HeapShape, 0);
    if block.len() < 12 {
        return wrong;
    }
    if 8180 < block.len() {
        return wrong;
    }
    if le::byte_at(block, 2) != 0xEC {
        return wrong;
    }
    if map_offset(block) < 12 {
        return wrong;
    }
    if !map_fits(block) {
        return wrong;
    }
    if 2047 < item_count(block) {
        return wrong;
    }
    if !offsets_fit(block) {
        return wrong;
    }
    Ok(())
}

// What the heap is used for.
pub fn client_kind(block: &[u8]) -> u8
    requires { 12 ≤ length block.now }
    ensures { result ≡ client_kind block.now }
{
    le::byte_at(block, 3)
}

// The number of the item from which the heap's user starts.
pub fn user_root(block: &[u8]) -> u32
    requires { 12 ≤ length block.now }
    ensures { result ≡ user_root block.now }
{
    le::field4(block, 4)
}

fn item_index(item: u32) -> usize
    ensures { (result ≡ item_index item) × (result < 2048) }
{
    (item / 32 % 2048) as usize
}

// Whether the number names an item of this heap.
pub fn item_fits(block: &[u8], item: u32) -> bool
    requires { Heap block.now }
    ensures { result ≡ item_fits block.now item }
{
    let index = item_index(item);
    let count = item_count(block);
    (item % 32 == 0) & (item / 65536 == 0) & (1 <= index) & (index <= count)
}

// Whether the block is a heap and has this item: 18 or 19 where not.
pub fn test_item(block: &[u8], item: u32) -> Verdict
    ensures { result ≡ item_test block.now item }
{
    test_heap(block)?;
    if !item_fits(block, item) {
        return refusal::refused_at(Fault::HeapItem, 0);
    }
    Ok(())
}

// The offsets at which an item of this heap starts, and at which the next begins.
fn bounds_of(block: &[u8], item: u32) -> Range<usize>
    requires { Heap block.now × Numbered block.now item }
    ensures { (result.start ≡ item_start block.now item) × (result.end ≡ item_end block.now item) × (result.start ≤ result.end) × (result.end ≤ length block.now) }
{
    let index = item_index(item);
    offset_at(block, index)..offset_at(block, index + 1)
}

// Where an item of this heap starts in the block.
pub fn item_start(block: &[u8], item: u32) -> usize
    requires { Heap block.now × Numbered block.now item }
    ensures { result ≡ item_start block.now item }
{
    bounds_of(block, item).start
}

// The item, between two offsets of the map, where the test has accepted it.
pub fn part_of<'a>(block: &'a [u8], item: u32) -> &'a [u8]
    requires { Heap block.now × Numbered block.now item }
    ensures { result.now ≡ item_part block.now item }
{
    &block[bounds_of(block, item)]
}

// The item as a part of the caller's block; the empty part for whatever the test refuses.
pub fn item_of<'a>(block: &'a [u8], item: u32) -> &'a [u8]
    ensures { result.now ≡ item_or block.now item }
{
    match test_item(block, item) {
        Ok(()) => part_of(block, item),
        Err(_) => &block[0..0],
    }
}

// Where the item starts and how long it is, for callers that cannot be handed a part.
pub fn find_item(block: &[u8], item: u32) -> Result<Span, Refusal>
    ensures { result ≡ item_span block.now item }
{
    test_item(block, item)?;
    Ok(span_of(block, item))
}

fn span_of(block: &[u8], item: u32) -> Span
    requires { Heap block.now × Numbered block.now item }
    ensures { (result.start ≡ item_start block.now item) × (result.length ≡ item_length block.now item) }
{
    let bounds = bounds_of(block, item);
    Span {
        start: bounds.start,
        length: bounds.end - bounds.start,
    }
}
