// Real pages of one file, put together at their true offsets: a header, the two roots, and one leaf of each tree.

use std::io;
use std::rt::Files;

// Listed nodes, then one below all, one between two, and two under leaves that are not in the image.
const NODES: [u64; 18] = [
    0x21, 0x61, 0x122, 0x12D, 0x12E, 0x12F, 0x1E1, 0x201, 0x261, 0x60D, 0x60E, 0x60F, 0x610, 0x62B,
    0x20, 0x611, 0x64C, 0x804F,
];

const BLOCKS: [u64; 19] = [
    0x4, 0x8, 0xC, 0x10, 0x14, 0x18, 0x1C, 0x24, 0x34, 0x38, 0x40, 0x4C, 0x5C, 0x64, 0x6C, 0x70,
    0x3, 0x20, 0x74,
];

fn image_lines(rt: &(impl Files + Print + Eprint), name: &str) -> io::Result<()> {
    shown::trees::image_lines(rt, "mini", name, &NODES, &BLOCKS)
}

fn whole_file_line(rt: &(impl Files + Print + Eprint), name: &str) -> io::Result<()> {
    said::with_file(rt, name, &mut [0u8; 65536], |image| {
        shown::pages::header_line(rt, "mini as cut", image)
    })
}

// The first says where the whole file ended; the second, with its header sealed anew, that it ends where
// it was cut. The third has zeros behind the first, to one byte more than the programs work on.
pub fn real_pages(rt: &(impl Files + Print + Eprint)) -> io::Result<()> {
    whole_file_line(rt, "real_mini_64bit.img")?;
    image_lines(rt, "real_mini_ended.img")?;
    image_lines(rt, "real_mini_65537.img")
}
