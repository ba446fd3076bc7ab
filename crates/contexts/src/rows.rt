// Whole rows, read in one call, and rows found by their ids.
use crate::Context;
use cells::Cell;
use refusal::Refusal;
use std::io;

// One call, and the whole area after it.
fn read_line(rt: &impl Print, context: Context<'_>, row: u32, area: &mut [u64]) -> io::Result<()> {
    let Context { heap, rows } = context;
    let words = area.len();
    print!(rt; "read_row {row} in {words} words: ")?;
    let read = pst::read_row(heap, rows, row, area);
    said::say_answer(rt, read, |count| print!(rt; "cells {count}"))?;
    println!(rt;
        "; area of {words} words, checksum {:08x}",
        said::sum_of(area)
    )
}

// A place for each column that a table can have, and words to spare; then one place and five words.
pub fn read_lines(rt: &impl Print, context: Context<'_>) -> io::Result<()> {
    read_line(rt, context, 0, &mut [0xA5A5_A5A5_A5A5_A5A5; 1533])?;
    read_line(rt, context, 0, &mut [0xA5A5_A5A5_A5A5_A5A5; 11])?;
    read_line(rt, context, 0xFFFF_FFFF, &mut [0xA5A5_A5A5_A5A5_A5A5; 11])
}

fn say_found(rt: &impl Print, answer: Result<Option<u32>, Refusal>) -> io::Result<()> {
    said::say_answer(rt, answer, |row| print!(rt; "row {row}"))?;
    println!(rt)
}

// The id by the row index, and by that of a 32-bit file.
fn find_line(rt: &impl Print, heap: &[u8], id: u32) -> io::Result<()> {
    print!(rt; "find_row {id:08x}: ")?;
    say_found(rt, pst::find_row(heap, id))?;
    print!(rt; "find_row32 {id:08x}: ")?;
    say_found(rt, pst::find_row32(heap, id))
}

// The id that the row itself holds, where it holds one.
fn own_line(rt: &impl Print, context: Context<'_>, row: u32) -> io::Result<()> {
    let Context { heap, rows } = context;
    match pst::cell(heap, rows, row, 0x67F2_0003) {
        Ok(Some(Cell::Number(id))) => find_line(rt, heap, (id & 0xFFFF_FFFF) as u32),
        _ => Ok(()),
    }
}

pub fn find_lines(rt: &impl Print, context: Context<'_>) -> io::Result<()> {
    find_line(rt, context.heap, 0)?;
    for row in 0..3 {
        own_line(rt, context, row)?;
    }
    find_line(rt, context.heap, 0xFFFF_FFFF)
}
