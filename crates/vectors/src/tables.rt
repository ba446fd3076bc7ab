// 003, 5.3: the numbers of its eight tables that can be read there, beside the library's.
use listed::Words;
use std::io;
use std::rt::Files;
use tables32::{offset32, offset40};
use tables48::{offset48, offset56};
use tables64::{offset64, offset72};
use tables80::{offset80, offset88};

// The next words of the text, one for each byte: a table's number, or a dash where it cannot be read.
fn table_line<F: Fn(u8) -> u32>(
    rt: &impl Print,
    words: &mut Words<'_>,
    offset: u8,
    entry: F,
) -> io::Result<()>
    requires { F.IsAlwaysCallable entry }
{
    let mut numbers: u32 = 0;
    let mut right = true;
    for byte in 0..=u8::MAX {
        let mut bytes = [0u8; 4];
        if words.next_bytes(&mut bytes) == 4 {
            numbers += 1;
            right &= u32::from_be_bytes(bytes) == entry(byte);
        }
    }
    print!(rt; "5.3 CrcTableOffset{offset}: numbers that can be read: {numbers}")?;
    println!(rt; "{}", listed::whether(right))
}

fn all_lines(rt: &impl Print, text: &[u8]) -> io::Result<()> {
    let mut words = Words::new(text);
    table_line(rt, &mut words, 32, offset32)?;
    table_line(rt, &mut words, 40, offset40)?;
    table_line(rt, &mut words, 48, offset48)?;
    table_line(rt, &mut words, 56, offset56)?;
    table_line(rt, &mut words, 64, offset64)?;
    table_line(rt, &mut words, 72, offset72)?;
    table_line(rt, &mut words, 80, offset80)?;
    table_line(rt, &mut words, 88, offset88)
}

pub fn table_lines(rt: &(impl Files + Print + Eprint)) -> io::Result<()> {
    said::with_file(rt, "5.3_tables.txt", &mut [0u8; 65536], |text| {
        all_lines(rt, text)
    })
}
