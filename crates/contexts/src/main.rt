// Reads the heaps and rows of data/, each built by the second program, and says every answer about the
// table on them: one line for a call.
#![tactic(auto)]

mod rows;
mod tables;
mod values;

use std::io;
use std::rt::Files;

// Rows in an item, in a subnode or nowhere, and row indexes of each height.
const VALID_TABLES: [(&str, Option<&str>); 13] = [
    ("01-no-columns.heap", None),
    ("02-one-column.heap", None),
    ("03-worked-example.heap", None),
    ("04-30-columns.heap", Some("04-30-columns.rows")),
    ("05-255-columns.heap", None),
    ("06-rows-none.heap", None),
    ("07-left-over.heap", Some("07-left-over.rows")),
    ("08-index-level-1.heap", None),
    ("09-index-level-2.heap", None),
    ("10-index-level-3.heap", None),
    ("11-cells.heap", None),
    ("12-unsorted.heap", None),
    ("13-odd.heap", Some("13-odd.rows")),
];

// 18 for the heap, 23 for its client kind, 19 for its user root, and 23 for the table's record.
const RECORD_TABLES: [(&str, Option<&str>); 10] = [
    ("14-refusal-18-mapend.heap", None),
    ("15-refusal-23-clientkind.heap", None),
    ("16-refusal-19-userroot.heap", None),
    ("17-refusal-23-recordmark.heap", None),
    ("18-refusal-23-recordlonger.heap", None),
    ("19-refusal-23-recordshorter.heap", None),
    ("20-refusal-23-recordhead.heap", None),
    ("21-refusal-23-columncount.heap", None),
    ("22-refusal-23-existencepastrow.heap", None),
    ("23-refusal-23-emptyrow.heap", None),
];

// 23 for a column, and for two columns that share a tag, a byte or an existence bit: neighbours, and
// the first and the last.
const COLUMN_TABLES: [(&str, Option<&str>); 11] = [
    ("24-refusal-23-columnpastrow.heap", None),
    ("25-refusal-23-bitpastrow.heap", None),
    ("26-refusal-23-numberwidth.heap", None),
    ("27-refusal-23-referencewidth.heap", None),
    ("28-refusal-23-referencetype.heap", None),
    ("29-refusal-23-tagneighbours.heap", None),
    ("30-refusal-23-tagends.heap", None),
    ("31-refusal-23-byteneighbours.heap", None),
    ("32-refusal-23-byteends.heap", None),
    ("33-refusal-23-bitneighbours.heap", None),
    ("34-refusal-23-bitends.heap", None),
];

// 19 for the item of the rows, and for the item of a cell.
const ROW_TABLES: [(&str, Option<&str>); 2] = [
    ("35-refusal-19-rowsitem.heap", None),
    ("36-refusal-19-cellitem.heap", None),
];

// 19 and 23 for the row index.
const INDEX_TABLES: [(&str, Option<&str>); 14] = [
    ("37-refusal-19-indexitem.heap", None),
    ("38-refusal-23-indexrecordlength.heap", None),
    ("39-refusal-23-indexmark.heap", None),
    ("40-refusal-23-indexkeysize.heap", None),
    ("41-refusal-23-indexentrysize.heap", None),
    ("42-refusal-23-indexlevels.heap", None),
    ("43-refusal-19-indexroot.heap", None),
    ("44-refusal-19-indexchild.heap", None),
    ("45-refusal-23-indexnorecords.heap", None),
    ("46-refusal-23-indexpartrecord.heap", None),
    ("47-refusal-23-indexkeyequal.heap", None),
    ("48-refusal-23-indexkeyfalling.heap", None),
    ("49-refusal-23-indexkeybelow.heap", None),
    ("50-refusal-23-indexkeyatend.heap", None),
];

// Request 7/13: tables of the 32-bit edition, whose row index has entries of two bytes.
const OLDER_TABLES: [(&str, Option<&str>); 6] = [
    ("51-bits32-cells.heap", None),
    (
        "52-bits32-30-columns.heap",
        Some("52-bits32-30-columns.rows"),
    ),
    ("53-bits32-rows-none.heap", None),
    ("54-bits32-index-level-1.heap", None),
    ("55-bits32-index-level-2.heap", None),
    ("56-bits32-index-level-3.heap", None),
];

// 19 and 23 for such a row index.
const OLDER_INDEX_TABLES: [(&str, Option<&str>); 5] = [
    ("57-bits32-refusal-19-indexchild.heap", None),
    ("58-bits32-refusal-23-indexentrysize.heap", None),
    ("59-bits32-refusal-23-indexpartrecord.heap", None),
    ("60-bits32-refusal-23-indexkeyequal.heap", None),
    ("61-bits32-refusal-23-indexkeyatend.heap", None),
];

// The most bytes of a heap and of rows, and one more.
const BOUND_TABLES: [(&str, Option<&str>); 6] = [
    ("62-heap-8177.heap", None),
    ("63-bits32-heap-8180.heap", None),
    ("64-refusal-18-heap-8181.heap", None),
    ("65-rows-8180.heap", Some("65-rows-8180.rows")),
    ("66-bits32-rows-8177.heap", Some("66-bits32-rows-8177.rows")),
    (
        "67-refusal-23-rows-8181.heap",
        Some("67-refusal-23-rows-8181.rows"),
    ),
];

// A table's heap, and its block of rows, which is empty where there is none.
#[derive(Clone, Copy)]
struct Context<'a> {
    heap: &'a [u8],
    rows: &'a [u8],
}

fn context_lines(rt: &impl Print, path: &str, context: Context<'_>) -> io::Result<()> {
    let Context { heap, rows } = context;
    let name = path.strip_suffix(".heap").unwrap_or(path);
    println!(rt; "{name}: {} bytes, rows {} bytes", heap.len(), rows.len())?;
    tables::table_lines(rt, context)?;
    values::cell_lines(rt, context)?;
    rows::read_lines(rt, context)?;
    rows::find_lines(rt, context)
}

fn heap_lines(
    rt: &(impl Files + Print + Eprint),
    path: &str,
    rows_path: Option<&str>,
) -> io::Result<()> {
    let mut heap = [0u8; 65536];
    let size = said::load(rt, path, &mut heap)?;
    let mut rows = [0u8; 65536];
    let rows_size = match rows_path {
        Some(rows_path) => said::load(rt, rows_path, &mut rows)?,
        None => Some(0),
    };
    let (Some(size), Some(rows_size)) = (size, rows_size) else {
        return Ok(());
    };
    let context = Context {
        heap: &heap[..size],
        rows: &rows[..rows_size],
    };
    context_lines(rt, path, context)
}

fn lines(rt: &(impl Files + Print + Eprint), tables: &[(&str, Option<&str>)]) -> io::Result<()> {
    for (path, rows_path) in tables {
        heap_lines(rt, path, *rows_path)?;
    }
    Ok(())
}

fn main(rt: HostRuntime) -> io::Result<()> {
    lines(&rt, &VALID_TABLES)?;
    lines(&rt, &RECORD_TABLES)?;
    lines(&rt, &COLUMN_TABLES)?;
    lines(&rt, &ROW_TABLES)?;
    lines(&rt, &INDEX_TABLES)?;
    lines(&rt, &OLDER_TABLES)?;
    lines(&rt, &OLDER_INDEX_TABLES)?;
    lines(&rt, &BOUND_TABLES)
}
