// The two trees of an image: their checks, entries looked up by their numbers, and the entries listed.
use refusal::Refusal;
use said::{Answer, Refused};
use std::convert::AsSlice;
use std::rt::Files;
use std::{fmt, io};
use tree::{Found, Listed, Node};

// An entry of a tree: its number, the highest that an entry can have, and what it says of itself.
pub trait Entry {
    const LAST: u64;

    fn number(&self) -> u64;

    fn say<W: fmt::Write>(&self, f: &mut fmt::Formatter<W>) -> fmt::Result;
}

impl Entry for Node {
    const LAST: u64 = 0xFFFF_FFFF;

    fn number(&self) -> u64 {
        self.node
    }

    fn say<W: fmt::Write>(&self, f: &mut fmt::Formatter<W>) -> fmt::Result {
        let Node {
            node,
            block,
            subnode,
            parent,
        } = *self;
        write!(f, "node {node:x}, data block {block:x}")?;
        write!(f, ", subnode block {subnode:x}, parent {parent:x}")
    }
}

impl Entry for Listed {
    const LAST: u64 = 0xFFFF_FFFF_FFFF_FFFF;

    fn number(&self) -> u64 {
        self.block
    }

    fn say<W: fmt::Write>(&self, f: &mut fmt::Formatter<W>) -> fmt::Result {
        let Listed {
            block,
            offset,
            size,
            references,
        } = *self;
        write!(f, "block {block:x}, offset {offset:x}")?;
        write!(f, ", size {size}, references {references}")
    }
}

// What a call finds in a tree, or that it finds nothing; beside it how many pages were read.
#[derive(Clone, Copy)]
pub struct FoundWords<T>(pub Found<T>);

impl<T: Entry> fmt::Display for FoundWords<T> {
    fn fmt<W: fmt::Write>(&self, f: &mut fmt::Formatter<W>) -> fmt::Result {
        match &self.0 {
            Found::Entry(entry, pages) => {
                write!(f, "found, pages {pages}, ")?;
                entry.say(f)
            }
            Found::Absent(pages) => write!(f, "absent, pages {pages}"),
        }
    }
}

// The number of the entry found.
pub fn number_found<T: Entry + Copy>(found: Result<Found<T>, Refusal>) -> Option<u64> {
    match found {
        Ok(Found::Entry(entry, _)) => Some(entry.number()),
        _ => None,
    }
}

// Goes through a tree from 0 on, each time from one above the number found: at most 60 entries, which is more
// than a leaf page has. Each answer is handed on, the last one too, behind the number that was asked for.
pub fn go_through<
    T: Entry + Copy,
    F: Fn(u64) -> Result<Found<T>, Refusal>,
    L: FnMut(u64, Result<Found<T>, Refusal>) -> io::Result<()>,
>(next: F, mut lines: L) -> io::Result<()>
    requires asked { F.IsAlwaysCallable next }
    requires said { L.IsAlwaysCallable lines }
{
    let mut from: u64 = 0;
    for _ in 0..60 {
        let found = next(from);
        lines(from, found)?;
        let Some(number) = number_found(found) else {
            return Ok(());
        };
        let Some(above) = said::above(number, T::LAST) else {
            return Ok(());
        };
        from = above;
    }
    Ok(())
}

fn found_line<T: Entry + Copy>(
    rt: &impl Print,
    section: &[u8],
    call: &str,
    number: u64,
    found: Result<Found<T>, Refusal>,
) -> io::Result<()> {
    let found = found.map(FoundWords).map_err(Refused);
    rt.write_all(section)?;
    println!(rt; " {call} {number:x}: {}", Answer(found))
}

// One call on each number, and one on each entry in turn.
fn lookup_lines<T: Entry + Copy, F: Fn(u64) -> Result<Found<T>, Refusal>>(
    rt: &impl Print,
    section: &[u8],
    call: &str,
    numbers: &[u64],
    find: F,
) -> io::Result<()>
    requires { F.IsAlwaysCallable find }
{
    for number in numbers {
        found_line(rt, section, call, *number, find(*number))?;
    }
    Ok(())
}

fn list_lines<T: Entry + Copy, F: Fn(u64) -> Result<Found<T>, Refusal>>(
    rt: &impl Print,
    section: &[u8],
    call: &str,
    next: F,
) -> io::Result<()>
    requires { F.IsAlwaysCallable next }
{
    go_through(
        next,
        |from, found| found_line(rt, section, call, from, found),
    )
}

fn check_lines(rt: &impl Print, section: &[u8], image: &[u8]) -> io::Result<()> {
    let nodes = crate::verdict(pst::check_nodes(image));
    rt.write_all(section)?;
    println!(rt; " check_nodes: {nodes}")?;
    let blocks = crate::verdict(pst::check_blocks(image));
    rt.write_all(section)?;
    println!(rt; " check_blocks: {blocks}")
}

fn tree_lines(
    rt: &impl Print,
    section: &[u8],
    image: &[u8],
    nodes: &[u64],
    blocks: &[u64],
) -> io::Result<()> {
    crate::pages::header_line(rt, section, image)?;
    check_lines(rt, section, image)?;
    lookup_lines(rt, section, "find_node", nodes, |node| {
        pst::find_node(image, node)
    })?;
    lookup_lines(rt, section, "find_block", blocks, |block| {
        pst::find_block(image, block)
    })?;
    list_lines(rt, section, "next_node", |from| {
        pst::next_node(image, from)
    })?;
    list_lines(rt, section, "next_block", |from| {
        pst::next_block(image, from)
    })
}

// An image in a file, in which these nodes and blocks are looked up.
pub fn image_lines(
    rt: &(impl Files + Print + Eprint),
    section: impl AsSlice<u8> + Drop,
    name: impl AsSlice<u8> + Drop,
    nodes: &[u64],
    blocks: &[u64],
) -> io::Result<()> {
    let section = section.as_slice();
    said::with_file(rt, name, &mut [0u8; 65536], |image| {
        tree_lines(rt, section, image, nodes, blocks)
    })
}
