// Every call that an image can be asked, and the answers in words: one line for a call.
#![tactic(auto)]

mod answers;
mod blocks;
mod heaps;
mod lists;
mod nodes;
mod text;

use std::convert::AsSlice;
use std::io;
use std::rt::Files;
use text::Summed;

fn all_lines(rt: &impl Print, name: &[u8], image: &[u8]) -> io::Result<()> {
    let mut out = [0u8; 65536];
    rt.write_all(name)?;
    println!(rt; ": {}", Summed(image))?;
    answers::whole_lines(rt, image)?;
    nodes::list_nodes(rt, image, &mut out)?;
    lists::list_lines(rt, image)?;
    blocks::list_blocks(rt, image, &mut out)
}

// An image in a file.
pub fn image_lines(
    rt: &(impl Files + Print + Eprint),
    name: impl AsSlice<u8> + Drop,
) -> io::Result<()> {
    let name = name.as_slice();
    said::with_file(rt, name, &mut [0u8; 65536], |image| {
        all_lines(rt, name, image)
    })
}
