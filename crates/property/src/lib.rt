// The properties that a heap holds, looked up by their id in a tree of heap items.
#![tactic(auto)]

ghost use Rattle.std.specs.Prelude.{◌≡◌};
ghost use Rattle.refusal.specs.Order.{in_order};
ghost use Rattle.heap.specs.Shape.{user_root, Heap};
ghost use Rattle.heaptree.specs.Lookup.{from_root};
ghost use Rattle.property.specs.Context.{properties, context_rules, context_test, Context};
ghost use Rattle.property.specs.Lookup.{in_place, value_of, property_from, property};

use heaptree::HeapTree;
use refusal::{Fault, Refusal, Verdict};

// A property's type, with its number in place, nothing, or the number of the item or subnode that holds its value.
#[derive(Clone, Copy, Debug, PartialEq, Eq)]
pub enum Property {
    Number(u16, u32),
    Empty(u16),
    Item(u16, u32),
    Subnode(u16, u32),
}

// The property tree: its keys are ids, its entries a type and a value.
fn properties() -> HeapTree
    ensures { result ≡ properties }
{
    HeapTree {
        key: 2,
        entry: 6,
        fault: Fault::PropertyTree,
    }
}

// 20 for the heap's client kind, then 19 and 20 for the tree's root record, the user root.
fn check_context(block: &[u8]) -> Verdict
    requires { Heap block.now }
    ensures { result ≡ in_order (context_rules block.now) }
{
    if heap::client_kind(block) != 0xBC {
        return refusal::refused_at(Fault::PropertyTree, 0);
    }
    heaptree::check_root(block, properties(), heap::user_root(block))
}

// All that comes before the tree: 18, then the client kind and the user root.
fn test_context(block: &[u8]) -> Verdict
    ensures { result ≡ context_test block.now }
{
    heap::test_heap(block)?;
    check_context(block)
}

#[tactic(auto, unfolding(crate::specs::Lookup::in_place))]
fn in_place(code: u16) -> bool
    ensures { result ≡ in_place code }
{
    matches!(code, 2 | 3 | 4 | 0xA | 0xB)
}

// What a leaf record's type code and value say; 19 where the value names no item of the heap.
fn value_of(block: &[u8], code: u16, value: u32) -> Result<Option<Property>, Refusal>
    requires { Heap block.now }
    ensures { result ≡ value_of block.now code value }
{
    if in_place(code) {
        return Ok(Some(Property::Number(code, value)));
    }
    if value == 0 {
        return Ok(Some(Property::Empty(code)));
    }
    if value % 32 != 0 {
        return Ok(Some(Property::Subnode(code, value)));
    }
    if !heap::item_fits(block, value) {
        return refusal::refused_at(Fault::HeapItem, 0);
    }
    Ok(Some(Property::Item(code, value)))
}

// What the leaf record with the id says, in an accepted property context.
fn find_in_context(block: &[u8], id: u16) -> Result<Option<Property>, Refusal>
    requires { Heap block.now × Context block.now }
    ensures { result ≡ property_from block.now (from_root properties block.now (user_root block.now) id) }
{
    let root = heap::user_root(block);
    let Some(place) = heaptree::find_from(block, properties(), root, id as u64)? else {
        return Ok(None);
    };
    let code = le::field2(block, place + 2);
    let value = le::field4(block, place + 4);
    value_of(block, code, value)
}

// The property with the id, of a block that need not be a heap.
pub fn find_property(block: &[u8], id: u16) -> Result<Option<Property>, Refusal>
    ensures { result ≡ property block.now id }
{
    test_context(block)?;
    find_in_context(block, id)
}
