// 003, 3.2 to 3.7 and 3.13: what the header says, and the checksums, signatures and rooms of the pages
// and blocks that stand there. Pages of different states of a file are not put together as one tree.
use header::Reference;
use shown::pages;
use std::io;
use std::rt::Files;

fn header_checksums(rt: &(impl Files + Print + Eprint)) -> io::Result<()> {
    listed::with_hex(rt, "3.2_header.hex", &mut [0u8; 564], |header| {
        pages::header_line(rt, "3.2", header)?;
        pages::header_sum_line(rt, "3.2", header, 471, 4)?;
        pages::header_sum_line(rt, "3.2", header, 516, 524)
    })
}

// A block's checksum and signature stand in the last 16 bytes of its room.
fn trailer_lines(
    rt: &impl Print,
    section: &str,
    room: &[u8],
    data: usize,
    reference: Reference,
) -> io::Result<()> {
    let Some(trailer) = room.len().checked_sub(16) else {
        return Ok(());
    };
    pages::checksum_line(rt, section, room, data, trailer + 4)?;
    pages::signature_line(rt, section, room, trailer + 2, reference)
}

fn block_lines(
    rt: &(impl Files + Print + Eprint),
    section: &str,
    name: &str,
    data: u32,
    reference: Reference,
) -> io::Result<()> {
    pages::room_line(rt, section, data, pst::room(data))?;
    listed::with_hex(rt, name, &mut [0u8; 448], |room| {
        trailer_lines(rt, section, room, data as usize, reference)
    })
}

// 3.2 as it is, and with its end-of-file number set to where the dump ends, and sealed anew.
pub fn worked_header(rt: &(impl Files + Print + Eprint)) -> io::Result<()> {
    header_checksums(rt)?;
    pages::header_lines(rt, "3.2 ended", "3.2_header_ended.hex")
}

pub fn worked_pages(rt: &(impl Files + Print + Eprint)) -> io::Result<()> {
    let index = Reference {
        number: 0x206,
        offset: 0x8200,
    };
    pages::page_lines(rt, "3.3", "3.3_nbt_index_page.hex", 496, 500, index)?;
    let leaf = Reference {
        number: 0x6B,
        offset: 0x7000,
    };
    pages::page_lines(rt, "3.4", "3.4_nbt_leaf_page.hex", 496, 500, leaf)?;
    let block_page = Reference {
        number: 0x246,
        offset: 0x900200,
    };
    pages::bare_signature_line(rt, "3.5", block_page)?;
    let xblock = Reference {
        number: 0x162,
        offset: 0x5A6600,
    };
    block_lines(rt, "3.6", "3.6_xblock.hex", 432, xblock)?;
    let slblock = Reference {
        number: 0x1386,
        offset: 0x994D40,
    };
    block_lines(rt, "3.7", "3.7_slblock.hex", 32, slblock)?;
    pages::room_line(rt, "3.13", 4092, pst::room(4092))?;
    pages::room_line(rt, "3.13", 1272, pst::room(1272))?;
    let block = Reference {
        number: 0x1518,
        offset: 0x908A00,
    };
    pages::bare_signature_line(rt, "3.13", block)
}
