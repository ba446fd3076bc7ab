// Cells, each asked for by its row and its tag.
use crate::Context;
use cells::Cell;
use std::io;

fn say_cell(rt: &impl Print, cell: Cell) -> io::Result<()> {
    match cell {
        Cell::Number(value) => print!(rt; "number {value}"),
        Cell::Empty => print!(rt; "empty"),
        Cell::Item(item) => print!(rt; "item {item:08x}"),
        Cell::Subnode(subnode) => print!(rt; "subnode {subnode:08x}"),
        Cell::Missing => print!(rt; "missing"),
    }
}

fn cell_line(rt: &impl Print, context: Context<'_>, row: u32, tag: u32) -> io::Result<()> {
    let Context { heap, rows } = context;
    print!(rt; "cell {row} {tag:08x}: ")?;
    said::say_answer(
        rt,
        pst::cell(heap, rows, row, tag),
        |cell| say_cell(rt, cell),
    )?;
    println!(rt)
}

// The cells of the first six columns, as far as there are such.
fn column_cells(rt: &impl Print, context: Context<'_>, row: u32) -> io::Result<()> {
    for index in 0..6 {
        let Ok(Some(column)) = pst::column(context.heap, index) else {
            return Ok(());
        };
        cell_line(rt, context, row, column.tag)?;
    }
    Ok(())
}

// Of each row the first cells, and then a tag that no column of data/ has.
pub fn cell_lines(rt: &impl Print, context: Context<'_>) -> io::Result<()> {
    for row in [0, 1, 2, 0xFFFF_FFFF] {
        column_cells(rt, context, row)?;
        cell_line(rt, context, row, 0)?;
    }
    Ok(())
}
