// Files of hexadecimal text that list what is expected, and words that say whether it is so.
#![tactic(auto)]

ghost use Rattle.std.specs.Counts.{IsPrefixLen};
ghost use Rattle.std.specs.Iterator.{at_most};
ghost use Rattle.std.specs.Prelude.{◌≡◌, ◌≤◌, ◌<◌, length, IfOk, IfSome, OnErr};

use std::convert::AsSlice;
use std::rt::Files;
use std::{fmt, io};

// What a hexadecimal digit in lower case stands for.
fn digit(character: u8) -> Option<u8>
    ensures { IfSome result (λ d. d < 16) }
{
    match character {
        b'0'..=b'9' => Some(character - b'0'),
        b'a'..=b'f' => Some(character - b'a' + 10),
        _ => None,
    }
}

// The bytes that pairs of digits stand for, at the front of `out`: how many. What is no digit is passed over,
// and behind a digit counts as 0.
pub fn unhex(text: &[u8], out: &mut [u8]) -> usize
    ensures { IsPrefixLen result out.new }
{
    let mut characters = text.iter();
    for (count, byte) in out.iter_mut().enumerate() {
        let Some(high) = characters.find_map(|character| digit(*character)) else {
            return count;
        };
        let Some(low) = characters.next() else {
            return count;
        };
        *byte = high << 4 | digit(*low).unwrap_or(0);
    }
    out.len()
}

// The bytes that a file of digits stands for, at the front of `out`: how many.
pub fn load_hex(
    rt: &(impl Files + Print + Eprint),
    name: impl AsSlice<u8> + Drop,
    out: &mut [u8],
) -> io::Result<Option<usize>>
    ensures loaded { IfOk result (λ loaded. IfSome loaded (λ size. IsPrefixLen size out.new)) }
    ensures unwritten { OnErr result (out.new ≡ out.old) }
{
    let mut letters = [0u8; 4096];
    let Some(size) = said::load(rt, name, &mut letters)? else {
        return Ok(None);
    };
    Ok(Some(unhex(&letters[..size], out)))
}

// Hands on the bytes that a file of digits stands for, by way of the buffer; where it is not read, why not is
// said, and nothing is handed on.
pub fn with_hex<F: FnOnce(&[u8]) -> io::Result<()>>(
    rt: &(impl Files + Print + Eprint),
    name: impl AsSlice<u8> + Drop,
    bytes: &mut [u8],
    lines: F,
) -> io::Result<()>
    requires { F.IsAlwaysCallable lines }
{
    match load_hex(rt, name, bytes)? {
        Some(size) => lines(&bytes[..size]),
        None => Ok(()),
    }
}

fn is_blank(character: u8) -> bool {
    matches!(character, b' ' | b'\n')
}

// The text from its next word on: blanks and lines that begin with '#' are passed over.
fn from_word(text: &[u8]) -> &[u8]
    ensures { length result.now ≤ length text.now }
{
    let mut in_comment = false;
    for (start, character) in text.iter().enumerate() {
        if in_comment {
            in_comment = *character != b'\n';
        } else if *character == b'#' {
            in_comment = true;
        } else if !is_blank(*character) {
            return &text[start..];
        }
    }
    &text[text.len()..]
}

// The words of a text, behind which blanks stand.
#[derive(Clone, Copy)]
pub struct Words<'a> {
    rest: &'a [u8],
}

impl<'a> Words<'a> {
    pub fn new(text: &'a [u8]) -> Words<'a> {
        Words { rest: text }
    }

    // The bytes that the next word stands for, at the front of `out`: how many. There are none behind the last.
    pub fn next_bytes(&mut self, out: &mut [u8]) -> usize
        ensures { IsPrefixLen result out.new }
    {
        unhex(self.next().unwrap_or_default(), out)
    }
}

impl<'a> Iterator for Words<'a> {
    type Item = &'a [u8];

    ghost remaining = { λ words. at_most (length words.rest.now) };

    fn next(&mut self) -> Option<&'a [u8]> {
        let text = from_word(self.rest);
        // What was passed over is not gone through again, behind the last word neither.
        self.rest = text;
        let (_, behind) = text.split_first()?;
        let end = behind
            .iter()
            .position(|character| is_blank(*character))
            .unwrap_or(behind.len());
        let (word, rest) = text.split_at(1 + end);
        self.rest = rest;
        Some(word)
    }
}

// Bytes as pairs of hexadecimal digits.
#[derive(Clone, Copy)]
pub struct Hex<'a>(pub &'a [u8]);

impl fmt::Display for Hex<'_> {
    fn fmt<W: fmt::Write>(&self, f: &mut fmt::Formatter<W>) -> fmt::Result {
        for byte in self.0 {
            write!(f, "{byte:02x}")?;
        }
        Ok(())
    }
}

// Whether an answer is the one in the file, at a line's end.
pub fn whether(right: bool) -> &'static str {
    if right {
        ", as listed"
    } else {
        ", NOT as listed"
    }
}
