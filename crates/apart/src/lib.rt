// That no two columns of a table share a tag, a byte or an existence bit.
#![tactic(auto)]

ghost use Rattle.std.specs.Prelude.{◌≡◌, true, ◌+◌, ◌*◌, ◌≤◌, ◌<◌, length};
ghost use Rattle.columns.specs.Record.{column_count, existence_start};
ghost use Rattle.columns.specs.Columns.{apart, apart_from, all_apart, columns_fit, each_fits};
ghost use Rattle.columns.specs.Sound.{RecordSound};
ghost use Rattle.apart.specs.Steps.{marked, Free, New, Differ};

use columns::Column;
use keys::{Range, Shape};

fn are_apart(one: Column, other: Column) -> bool
    requires { (one.offset < 65536) × (one.width < 256) × (other.offset < 65536) × (other.width < 256) }
    ensures { result ≡ apart one other }
{
    (one.tag != other.tag)
        & ((one.offset + one.width <= other.offset) | (other.offset + other.width <= one.offset))
        & (one.bit != other.bit)
}

// Whether the column shares nothing with each of the first n.
fn apart_from(table: &[u8], column: Column, n: usize) -> bool
    requires { (22 + 8 * n ≤ length table.now) × (n < 256) × (column.offset < 65536) × (column.width < 256) }
    ensures { result ≡ apart_from table.now column n }
{
    let mut fits = true;
    for i in 0..n {
        fits &= are_apart(columns::column_at(table, i), column);
    }
    fits
}

// Any two columns, one pair after the other.
fn apart_by_pairs(table: &[u8]) -> bool
    requires { RecordSound table.now }
    ensures { result ≡ all_apart table.now (column_count table.now) }
{
    let count = columns::column_count(table);
    let mut fits = true;
    for i in 0..count {
        fits &= apart_from(table, columns::column_at(table, i), i);
    }
    fits
}

// Marks so many places from one on, and tells whether none of them had a mark.
fn claim(marks: &mut [u8], from: usize, count: usize) -> bool
    requires { from + count ≤ length marks.old }
    ensures free { result ≡ true → Free marks.old from count }
    ensures marks { marks.new ≡ marked marks.old from count }
{
    let mut free = true;
    for i in 0..count {
        free &= marks[from + i] == 0;
        marks[from + i] = 1;
    }
    free
}

// The same for a column's bytes. Its width is said once more as a number, for which the compiler needs no
// loop.
fn claim_bytes(marks: &mut [u8], from: usize, width: usize) -> bool
    requires { from + width ≤ length marks.old }
    ensures free { result ≡ true → Free marks.old from width }
    ensures marks { marks.new ≡ marked marks.old from width }
{
    if width == 4 {
        return claim(marks, from, 4);
    }
    if width == 8 {
        return claim(marks, from, 8);
    }
    claim(marks, from, width)
}

// Whether the tags ascend, as they do in a usual table. Where it says no, nothing is known.
fn tags_climb(table: &[u8]) -> bool
    requires { RecordSound table.now }
    ensures { result ≡ true → Differ table.now (column_count table.now) }
{
    let count = columns::column_count(table);
    let end = 22 + 8 * count;
    let shape = Shape {
        size: 8,
        width: 4,
        reserved: false,
    };
    let range = Range { from: 0, to: None };
    keys::is_climbing(keys::check_keys(&table[22..end], shape, count, range))
}

// Whether the tag is none of the first n. All of them are looked at, whatever is found: so the compiler
// compares several at once.
fn is_new(tags: &[u32; 256], n: usize, tag: u32) -> bool
    requires { n ≤ 256 }
    ensures { result ≡ true → New tags.now n tag }
{
    let mut new = true;
    for other in &tags[..n] {
        new &= *other != tag;
    }
    new
}

// Whether no two tags are one, in whatever order they come. Where it says no, nothing is known.
fn tags_differ(table: &[u8]) -> bool
    requires { RecordSound table.now }
    ensures { result ≡ true → Differ table.now (column_count table.now) }
{
    let count = columns::column_count(table);
    let mut tags = [0u32; 256];
    let mut differ = true;
    for i in 0..count {
        let column = columns::column_at(table, i);
        differ &= is_new(&tags, i, column.tag);
        tags[i] = column.tag;
    }
    differ
}

// A quick pass over columns of different tags: each marks its bytes and its bit. Where it says no, nothing
// is known.
fn apart_by_marks(table: &[u8], bytes: &mut [u8]) -> bool
    requires { RecordSound table.now × (each_fits table.now (column_count table.now) ≡ true) × (existence_start table.now ≤ length bytes.old) × Differ table.now (column_count table.now) }
    ensures { result ≡ true → all_apart table.now (column_count table.now) ≡ true }
{
    let count = columns::column_count(table);
    let mut bits = [0u8; 256];
    let mut sure = true;
    for i in 0..count {
        let column = columns::column_at(table, i);
        let bytes_free = claim_bytes(bytes, column.offset, column.width);
        let bit_free = claim(&mut bits, column.bit, 1);
        sure &= bytes_free & bit_free;
    }
    sure
}

// The quick pass, with as many marks as the row may need: 255 columns side by side take 2,040 bytes at
// most, and usual tables far fewer.
fn apart_surely(table: &[u8]) -> bool
    requires { RecordSound table.now × (each_fits table.now (column_count table.now) ≡ true) × Differ table.now (column_count table.now) }
    ensures { result ≡ true → all_apart table.now (column_count table.now) ≡ true }
{
    let start = columns::existence_start(table);
    if start <= 512 {
        let mut few = [0u8; 512];
        return apart_by_marks(table, &mut few);
    }
    if start <= 2048 {
        let mut many = [0u8; 2048];
        return apart_by_marks(table, &mut many);
    }
    false
}

// Different tags first, then the quick pass over bytes and bits. Where it says no, nothing is known.
fn apart_quickly(table: &[u8]) -> bool
    requires { RecordSound table.now × (each_fits table.now (column_count table.now) ≡ true) }
    ensures { result ≡ true → all_apart table.now (column_count table.now) ≡ true }
{
    if tags_climb(table) {
        return apart_surely(table);
    }
    if tags_differ(table) {
        return apart_surely(table);
    }
    false
}

// Whether each column has its place in a row, and no two share anything.
pub fn columns_fit(table: &[u8]) -> bool
    requires { RecordSound table.now }
    ensures { result ≡ columns_fit table.now }
{
    if !columns::each_fits(table) {
        return false;
    }
    if apart_quickly(table) {
        return true;
    }
    apart_by_pairs(table)
}
