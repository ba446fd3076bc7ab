// The block tree, listed from its first block on, and each block's bytes.
use crate::answers;
use crate::text::{Summed, front};
use said::Answer;
use shown::trees::{go_through, number_found};
use std::io;

fn test_line(rt: &impl Print, image: &[u8], block: u64) -> io::Result<()> {
    print!(rt; "test_block {block:x}: ")?;
    match pst::test_block(image, block) {
        Ok(size) => println!(rt; "size {size}"),
        Err(wrong) => println!(rt; "{wrong}"),
    }
}

// The bytes read, and the whole buffer after the call.
fn read_line(rt: &impl Print, image: &[u8], block: u64, out: &mut [u8]) -> io::Result<()> {
    let read = pst::read_block(image, block, out).map(|size| Summed(front(size, out)));
    println!(rt;
        "read_block {block:x}: {}; buffer of {}",
        Answer(read),
        Summed(out)
    )
}

// Each read twice, first into a buffer that few data fit.
fn block_lines(rt: &impl Print, image: &[u8], block: u64, out: &mut [u8]) -> io::Result<()> {
    let found = answers::found(pst::find_block(image, block));
    println!(rt; "find_block {block:x}: {found}")?;
    test_line(rt, image, block)?;
    read_line(rt, image, block, &mut [0xA5; 16])?;
    read_line(rt, image, block, out)
}

// Where the listing ends, the number that it ended at is asked for.
pub fn list_blocks(rt: &impl Print, image: &[u8], out: &mut [u8]) -> io::Result<()> {
    let next = |from| pst::next_block(image, from);
    go_through(next, |from, found| {
        println!(rt; "next_block {from:x}: {}", answers::found(found))?;
        block_lines(rt, image, number_found(found).unwrap_or(from), out)
    })
}
