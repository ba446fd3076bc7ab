// The first nodes as a list, looked up in one call.
ghost use Rattle.std.specs.Prelude.{◌≤◌, length};

use crate::answers;
use std::io;
use tree::Found;

// One call, and the whole area after it.
fn list_line(rt: &impl Print, image: &[u8], nodes: &[u64], area: &mut [u64]) -> io::Result<()> {
    let words = area.len();
    print!(rt; "find_nodes of {} in {words} words: ", nodes.len())?;
    print!(rt; "{}", answers::verdict(pst::find_nodes(image, nodes, area)))?;
    println!(rt;
        "; area of {words} words, checksum {:08x}",
        said::sum_of(area)
    )
}

// The same with a fresh area of so many words.
fn fresh_line(rt: &impl Print, image: &[u8], nodes: &[u64], words: usize) -> io::Result<()>
    requires { words ≤ 140 }
{
    let mut area = [0xA5A5_A5A5_A5A5_A5A5u64; 140];
    list_line(rt, image, nodes, &mut area[..words])
}

// The first nodes, as many as the list has places: how many there are.
fn first_nodes(image: &[u8], list: &mut [u64]) -> usize
    ensures { result ≤ length list.old }
{
    let mut from: u64 = 0;
    for (count, place) in list.iter_mut().enumerate() {
        let Ok(Found::Entry(node, _)) = pst::next_node(image, from) else {
            return count;
        };
        *place = node.node;
        let Some(above) = said::above(node.node, 0xFFFF_FFFF) else {
            return count + 1;
        };
        from = above;
    }
    list.len()
}

// The first nodes, twelve at most, or 0 where there is none; the first once more, and with another high half;
// and the highest number.
fn full_list<'a>(image: &[u8], list: &'a mut [u64; 15]) -> &'a [u64]
    ensures { length result.now ≤ 15 }
{
    let count = first_nodes(image, &mut list[..12]).max(1);
    let first = list[0];
    let others = [first, first & 0xFFFF_FFFF | 0x1_0000_0000, 0xFFFF_FFFF];
    list[count..count + 3].copy_from_slice(&others);
    &list[..count + 3]
}

// An area of just these places, one word short, and with words to spare; then no list.
fn area_lines(rt: &impl Print, image: &[u8], nodes: &[u64]) -> io::Result<()>
    requires { length nodes.now ≤ 15 }
{
    let words = 9 * nodes.len();
    fresh_line(rt, image, nodes, words)?;
    if words > 0 {
        fresh_line(rt, image, nodes, words - 1)?;
    }
    fresh_line(rt, image, nodes, words + 5)?;
    fresh_line(rt, image, &[], 5)
}

pub fn list_lines(rt: &impl Print, image: &[u8]) -> io::Result<()> {
    area_lines(rt, image, full_list(image, &mut [0; 15]))
}
