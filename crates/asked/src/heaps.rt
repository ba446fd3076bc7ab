// A node's data taken as a heap, and the properties on it.
use crate::answers;
use crate::text::Summed;
use property::Property;
use said::Answer;
use shown::PropertyWords;
use std::io;

// Whether the property is there or refused, and so has a line.
fn property_line(rt: &impl Print, block: &[u8], id: u16) -> io::Result<bool> {
    let Some(answer) = pst::find_property(block, id).transpose() else {
        return Ok(false);
    };
    print!(rt;
        "find_property {id:04x}: {}",
        Answer(answer.map(PropertyWords))
    )?;
    if let Ok(Property::Item(_, item)) = answer {
        print!(rt; " of {}", Summed(pst::item(block, item)))?;
    }
    println!(rt)?;
    Ok(true)
}

// Every id, until 16 have had a line.
fn property_lines(rt: &impl Print, block: &[u8]) -> io::Result<()> {
    let mut shown: u32 = 0;
    let mut below: u32 = 0x1_0000;
    for id in 0..=u16::MAX {
        if property_line(rt, block, id)? {
            shown += 1;
        }
        if shown == 16 {
            below = u32::from(id) + 1;
            break;
        }
    }
    println!(rt; "find_property below {below:x}: not absent {shown}")
}

// Nothing of data that no block can hold.
pub fn heap_lines(rt: &impl Print, block: &[u8]) -> io::Result<()> {
    if !(1..=8180).contains(&block.len()) {
        return Ok(());
    }
    let tested = pst::test_heap(block);
    println!(rt; "test_heap: {}", answers::verdict(tested))?;
    if tested.is_ok() {
        return property_lines(rt, block);
    }
    property_line(rt, block, 0x3001)?;
    Ok(())
}
