// Runs the worked examples of 003, and others of its formats, from the files of data/. Each line says
// the section, the call and the answer; where the file lists the answer too, whether it is that one.
#![tactic(auto)]

mod heaps;
mod mini;
mod pages;
mod tables;

use coding::{decode, encode};
use listed::{Hex, Words};
use refusal::Verdict;
use std::io;
use std::rt::Files;

// The bytes, what a call makes of them by a method and under a block's number, and whether that is listed.
fn coding_line<F: FnOnce(u8, u64, &mut [u8]) -> Verdict>(
    rt: &impl Print,
    call: &str,
    code: F,
    method: u8,
    block: u64,
    bytes: &mut [u8],
    coded: &[u8],
) -> io::Result<()>
    requires { F.IsAlwaysCallable code }
{
    print!(rt;
        "{call} method {method} block {block:08x} bytes {}: ",
        Hex(bytes)
    )?;
    let _ = code(method, block, bytes);
    println!(rt; "{}{}", Hex(bytes), listed::whether(&*bytes == coded))
}

// 5.2: a block number, bytes, and what the cyclic steps make of them, both ways.
fn cyclic_lines(rt: &impl Print, words: &mut Words<'_>) -> io::Result<()> {
    let mut number = [0u8; 4];
    words.next_bytes(&mut number);
    let block = u64::from(u32::from_be_bytes(number));
    let mut plain = [0u8; 64];
    let plain_size = words.next_bytes(&mut plain);
    let mut coded = [0u8; 64];
    let coded_size = words.next_bytes(&mut coded);
    let mut work = plain;
    let bytes = &mut work[..plain_size];
    coding_line(
        rt,
        "5.2 encode",
        encode,
        2,
        block,
        bytes,
        &coded[..coded_size],
    )?;
    let mut work = coded;
    let bytes = &mut work[..coded_size];
    coding_line(
        rt,
        "5.2 decode",
        decode,
        2,
        block,
        bytes,
        &plain[..plain_size],
    )
}

// 5.1: bytes, what R makes of them, and what I makes of them.
fn permute_lines(rt: &impl Print, words: &mut Words<'_>) -> io::Result<()> {
    let mut plain = [0u8; 64];
    let size = words.next_bytes(&mut plain);
    let mut by_r = [0u8; 64];
    let r_size = words.next_bytes(&mut by_r);
    let mut by_i = [0u8; 64];
    let i_size = words.next_bytes(&mut by_i);
    let mut work = plain;
    coding_line(
        rt,
        "5.1 encode",
        encode,
        1,
        0,
        &mut work[..size],
        &by_r[..r_size],
    )?;
    let mut work = plain;
    coding_line(
        rt,
        "5.1 decode",
        decode,
        1,
        0,
        &mut work[..size],
        &by_i[..i_size],
    )
}

// Six lines of 5.2 and then one of 5.1.
fn coding_lines(rt: &impl Print, text: &[u8]) -> io::Result<()> {
    let mut words = Words::new(text);
    for _ in 0..6 {
        cyclic_lines(rt, &mut words)?;
    }
    permute_lines(rt, &mut words)
}

fn coding_vectors(rt: &(impl Files + Print + Eprint)) -> io::Result<()> {
    said::with_file(rt, "5.2_cyclic_vectors.txt", &mut [0u8; 4096], |text| {
        coding_lines(rt, text)
    })
}

fn main(rt: HostRuntime) -> io::Result<()> {
    pages::worked_header(&rt)?;
    pages::worked_pages(&rt)?;
    coding_vectors(&rt)?;
    tables::table_lines(&rt)?;
    heaps::store_heap(&rt)?;
    heaps::table_heap(&rt)?;
    mini::real_pages(&rt)
}
