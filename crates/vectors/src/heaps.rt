// 003, 3.8 to 3.11: the heap of a message store's properties and that of a table, their items and properties.
use heap::Span;
use listed::Hex;
use refusal::Refusal;
use said::Refused;
use shown::PropertyWords;
use std::io;
use std::rt::Files;

fn say_span(rt: &impl Print, span: Result<Span, Refusal>) -> io::Result<()> {
    match span {
        Ok(Span { start, length }) => println!(rt; "{length} bytes at {start}"),
        Err(wrong) => println!(rt; "{}", Refused(wrong)),
    }
}

fn say_part(rt: &impl Print, part: &[u8]) -> io::Result<()> {
    if part.is_empty() {
        println!(rt; "no bytes")
    } else {
        println!(rt; "{}", Hex(part))
    }
}

fn heap_line(rt: &impl Print, section: &str, block: &[u8]) -> io::Result<()> {
    let tested = shown::verdict(heap::test_heap(block));
    println!(rt; "{section} test_heap of {} bytes: {tested}", block.len())
}

fn test_line(rt: &impl Print, section: &str, block: &[u8], item: u32) -> io::Result<()> {
    let tested = shown::verdict(heap::test_item(block, item));
    println!(rt; "{section} test_item {item:08x}: {tested}")
}

// The three calls on an item of 3.8.
fn item_lines(rt: &impl Print, block: &[u8], item: u32) -> io::Result<()> {
    test_line(rt, "3.8", block, item)?;
    print!(rt; "3.8 find_item {item:08x}: ")?;
    say_span(rt, heap::find_item(block, item))?;
    print!(rt; "3.8 item_of {item:08x}: ")?;
    say_part(rt, heap::item_of(block, item))
}

fn property_line(rt: &impl Print, section: &str, block: &[u8], id: u16) -> io::Result<()> {
    print!(rt; "{section} find_property {id:04x}: ")?;
    match property::find_property(block, id) {
        Ok(Some(property)) => println!(rt; "{}", PropertyWords(property)),
        Ok(None) => println!(rt; "absent"),
        Err(wrong) => println!(rt; "{}", Refused(wrong)),
    }
}

// 3.8: eight items, and two numbers that name none.
const STORE_ITEMS: [u32; 10] = [0x20, 0x40, 0x60, 0x80, 0xA0, 0xC0, 0xE0, 0x100, 0x120, 0];

// 3.10: eleven properties, and an id that none has.
const STORE_IDS: [u16; 12] = [
    0x0E34, 0x0E38, 0x0FF9, 0x3001, 0x35DF, 0x35E0, 0x35E3, 0x35E7, 0x6633, 0x66FA, 0x67FF, 0x3002,
];

fn store(rt: &impl Print, block: &[u8]) -> io::Result<()> {
    heap_line(rt, "3.8", block)?;
    for item in STORE_ITEMS {
        item_lines(rt, block, item)?;
    }
    for id in STORE_IDS {
        property_line(rt, "3.10", block, id)?;
    }
    Ok(())
}

// 3.11: a heap of seven items, which holds a table and so no properties.
const TABLE_ITEMS: [u32; 8] = [0x20, 0x40, 0x60, 0x80, 0xA0, 0xC0, 0xE0, 0x100];

fn table(rt: &impl Print, block: &[u8]) -> io::Result<()> {
    heap_line(rt, "3.11", block)?;
    for item in TABLE_ITEMS {
        test_line(rt, "3.11", block, item)?;
    }
    property_line(rt, "3.11", block, 0x3001)
}

pub fn store_heap(rt: &(impl Files + Print + Eprint)) -> io::Result<()> {
    listed::with_hex(
        rt,
        "3.8_heap_pc.hex",
        &mut [0u8; 512],
        |block| store(rt, block),
    )
}

pub fn table_heap(rt: &(impl Files + Print + Eprint)) -> io::Result<()> {
    listed::with_hex(rt, "3.11_tc.hex", &mut [0u8; 512], |block| table(rt, block))
}
