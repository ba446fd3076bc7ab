// What the table says of itself, its first columns, and how many rows it has.
use crate::Context;
use columns::Column;
use said::Answer;
use std::{fmt, io};
use table::{Named, Table};

// What a table says of itself.
#[derive(Clone, Copy)]
struct TableWords(Table);

impl fmt::Display for TableWords {
    fn fmt<W: fmt::Write>(&self, f: &mut fmt::Formatter<W>) -> fmt::Result {
        let TableWords(table) = *self;
        write!(f, "columns {}, row size {}", table.columns, table.size)?;
        write!(f, ", existence {}, rows ", table.existence)?;
        match table.rows {
            Named::Nothing => write!(f, "none"),
            Named::Item(item) => write!(f, "item {item:08x}"),
            Named::Subnode(subnode) => write!(f, "subnode {subnode:08x}"),
        }
    }
}

fn table_line(rt: &impl Print, heap: &[u8]) -> io::Result<()> {
    println!(rt; "table: {}", Answer(pst::table(heap).map(TableWords)))
}

fn say_column(rt: &impl Print, column: Column) -> io::Result<()> {
    let Column {
        tag,
        offset,
        width,
        bit,
    } = column;
    print!(rt; "tag {tag:08x}, offset {offset}, width {width}, bit {bit}")
}

// Eight columns, or as far as the first that is absent or refused.
fn column_lines(rt: &impl Print, heap: &[u8]) -> io::Result<()> {
    for index in 0..8 {
        print!(rt; "column {index}: ")?;
        let answer = pst::column(heap, index);
        said::say_answer(rt, answer, |column| say_column(rt, column))?;
        println!(rt)?;
        let Ok(Some(_)) = answer else {
            return Ok(());
        };
    }
    Ok(())
}

fn count_line(rt: &impl Print, context: Context<'_>) -> io::Result<()> {
    let count = Answer(pst::count_rows(context.heap, context.rows));
    println!(rt; "count_rows: {count}")
}

pub fn table_lines(rt: &impl Print, context: Context<'_>) -> io::Result<()> {
    table_line(rt, context.heap)?;
    column_lines(rt, context.heap)?;
    count_line(rt, context)
}
