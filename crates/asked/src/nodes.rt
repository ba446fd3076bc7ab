// The node tree, listed from its first node on, and each node's data.
ghost use Rattle.pst.specs.Outcomes.{data_buffer};
ghost use Rattle.std.specs.Prelude.{◌≡◌, length, take, IfOk};

use crate::text::{Summed, front};
use crate::{answers, heaps};
use shown::trees::{go_through, number_found};
use std::io;

// The data read, which are handed out, and the whole buffer after the call.
fn read_line<'a>(
    rt: &impl Print,
    image: &[u8],
    node: u64,
    out: &'a mut [u8],
) -> io::Result<&'a [u8]>
    ensures { IfOk result (λ bytes. bytes.now ≡ take (length bytes.now) (data_buffer image.now node out.old)) }
{
    print!(rt; "read_node {node:x}: ")?;
    let read = pst::read_node(image, node, out);
    let data = front(read.ok().flatten().unwrap_or(0), out);
    said::say_answer(rt, read, |_| print!(rt; "{}", Summed(data)))?;
    println!(rt; "; buffer of {}", Summed(out))?;
    Ok(data)
}

// Each read twice, first into a buffer that few data fit.
fn node_lines(rt: &impl Print, image: &[u8], node: u64, out: &mut [u8]) -> io::Result<()> {
    let found = answers::found(pst::find_node(image, node));
    println!(rt; "find_node {node:x}: {found}")?;
    read_line(rt, image, node, &mut [0xA5; 16])?;
    heaps::heap_lines(rt, read_line(rt, image, node, out)?)
}

// Where the listing ends, the number that it ended at is asked for.
pub fn list_nodes(rt: &impl Print, image: &[u8], out: &mut [u8]) -> io::Result<()> {
    let next = |from| pst::next_node(image, from);
    go_through(next, |from, found| {
        println!(rt; "next_node {from:x}: {}", answers::found(found))?;
        node_lines(rt, image, number_found(found).unwrap_or(from), out)
    })
}
