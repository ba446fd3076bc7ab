// Runs a real file's header and pages of the 32-bit edition, from the files of data/. Each line says the part,
// the call and the answer; where the bytes hold the answer too, whether it is that one.
#![tactic(auto)]

use header::Reference;
use shown::{pages, trees};
use std::io;
use std::rt::Files;

// Below all keys of the root page, then the first key, the one before the second, the second and the last.
const NODES_AT_ROOT: [u64; 5] = [0x20, 0x21, 0x207863, 0x207864, 0xFFFF_FFFF];

// The same, and a number that no 32-bit file can hold.
const BLOCKS_AT_ROOT: [u64; 6] = [0x3, 0x4, 0x32757, 0x32758, 0xFFFF_FFFF, 0x1_0000_0000];

// Listed nodes; then one below all, one between two, one above all, and one with another high half.
const NODES: [u64; 20] = [
    0x21,
    0x61,
    0x122,
    0x12D,
    0x12E,
    0x12F,
    0x1E1,
    0x201,
    0x261,
    0x60D,
    0x60E,
    0x60F,
    0x610,
    0x62B,
    0x64C,
    0x671,
    0x20,
    0x22,
    0x672,
    0x1_0000_0021,
];

// Listed blocks; then one with bit 0 set, and numbers as among the nodes.
const BLOCKS: [u64; 36] = [
    0x4,
    0x8,
    0xC,
    0x10,
    0x14,
    0x18,
    0x1C,
    0x50,
    0x74,
    0x7C,
    0x84,
    0x88,
    0x90,
    0xCC,
    0xE0,
    0xF4,
    0x18C,
    0x1EA,
    0x1EC,
    0x1F0,
    0x1FA,
    0x200,
    0x21C,
    0x222,
    0x224,
    0x240,
    0x246,
    0x248,
    0x264,
    0x26A,
    0x26C,
    0x5,
    0x3,
    0x20,
    0x26E,
    0x1_0000_0004,
];

// The dump, which has fewer bytes than an image must have; the same with zeros behind; and with its
// end-of-file number set to where these end, and sealed anew.
fn header_lines(rt: &(impl Files + Print + Eprint)) -> io::Result<()> {
    let mut header = [0u8; 564];
    let Some(size) = listed::load_hex(rt, "real_header_32bit.hex", &mut header)? else {
        return Ok(());
    };
    pages::header_line(rt, "32-bit", &header[..size])?;
    pages::header_sum_line(rt, "32-bit", &header[..size], 471, 4)?;
    pages::header_line(rt, "32-bit padded", &header)?;
    pages::header_lines(rt, "32-bit ended", "real_header_ended_32bit.hex")
}

fn page_lines(
    rt: &(impl Files + Print + Eprint),
    section: &str,
    name: &str,
    offset: u64,
    number: u64,
) -> io::Result<()> {
    let reference = Reference { number, offset };
    pages::page_lines(rt, section, name, 500, 508, reference)
}

// The offsets of the leaf pages are known by their signatures alone.
fn real_pages(rt: &(impl Files + Print + Eprint)) -> io::Result<()> {
    page_lines(
        rt,
        "32-bit BBT root",
        "real_bbt_root_32bit.hex",
        0x5400,
        0x21EB4,
    )?;
    page_lines(
        rt,
        "32-bit BBT leaf",
        "real_bbt_leaf_32bit.hex",
        0xD400,
        0x1675A,
    )?;
    page_lines(
        rt,
        "32-bit NBT root",
        "real_nbt_root_32bit.hex",
        0xC7E00,
        0x21EBC,
    )?;
    page_lines(
        rt,
        "32-bit NBT leaf",
        "real_nbt_leaf_32bit.hex",
        0xC8400,
        0x21EAE,
    )
}

// The header, sealed anew, with the two root pages, which lead to pages that are not in the image; and with
// the two leaf pages in their place. Those of the block tree stand at their true offsets. Those of the node
// tree would stand behind what the programs work on: they stand lower, signed for where they stand.
fn real_images(rt: &(impl Files + Print + Eprint)) -> io::Result<()> {
    trees::image_lines(
        rt,
        "roots",
        "real_roots_32bit.img",
        &NODES_AT_ROOT,
        &BLOCKS_AT_ROOT,
    )?;
    trees::image_lines(rt, "leaves", "real_leaves_32bit.img", &NODES, &BLOCKS)
}

// The file's data tree of two children, which is dumped without its trailer, and its largest listed block.
fn rooms(rt: &impl Print) -> io::Result<()> {
    pages::room_line(rt, "32-bit", 16, pst::room32(16))?;
    pages::room_line(rt, "32-bit", 8180, pst::room32(8180))
}

fn main(rt: HostRuntime) -> io::Result<()> {
    header_lines(&rt)?;
    real_pages(&rt)?;
    rooms(&rt)?;
    real_images(&rt)
}
