// What the programs share: a file loaded, refusals in words, areas summed up, and where a listing goes on.
#![tactic(auto)]

ghost use Rattle.std.specs.Counts.{IsPrefixLen};
ghost use Rattle.std.specs.Prelude.{◌≡◌, length, IfOk, IfSome};

use refusal::Refusal;
use std::convert::AsSlice;
use std::io::{Read, Seek, SeekFrom};
use std::rt::Files;
use std::{fmt, fs, io};

// Why nothing of a file is handed out: it is longer than so many bytes, or it was not read to its end.
#[derive(Clone, Copy)]
enum Unread {
    Over(usize),
    CutOff,
}

impl fmt::Display for Unread {
    fn fmt<W: fmt::Write>(&self, f: &mut fmt::Formatter<W>) -> fmt::Result {
        match self {
            Unread::Over(size) => write!(f, "over {size} bytes, nothing of it is read"),
            Unread::CutOff => write!(f, "not read to its end"),
        }
    }
}

// How many bytes the file has, 0 where that cannot be told. It is then read from its start.
fn length_of(file: &mut impl Seek) -> u64 {
    let end = file.seek(SeekFrom::End(0));
    let _ = file.rewind();
    end.unwrap_or(0)
}

// Reads until the buffer is full, the input ends or a read fails: how many bytes stand at the buffer's front.
fn read_full(file: &mut impl Read, buffer: &mut [u8]) -> usize
    ensures { IsPrefixLen result buffer.new }
{
    let mut done: usize = 0;
    while done < buffer.len() {
        match file.read(&mut buffer[done..]) {
            Ok(0) | Err(_) => return done,
            Ok(n) => done += n,
        }
    }
    done
}

// How many bytes stand at the buffer's front, which are all of the file. Nothing of a longer file is read.
fn read_whole(file: &mut (impl Read + Seek), buffer: &mut [u8]) -> Result<usize, Unread>
    ensures loaded { IfOk result (λ size. IsPrefixLen size buffer.new) }
    ensures kept { length buffer.new ≡ length buffer.old }
{
    let length = length_of(file);
    if length > buffer.len() as u64 {
        return Err(Unread::Over(buffer.len()));
    }
    let size = read_full(file, buffer);
    if size as u64 != length {
        return Err(Unread::CutOff);
    }
    Ok(size)
}

// Reads a file of the program's folder: how many bytes of it, all of them, stand at the buffer's front. Where it
// does not, as where the path is no text, it says why. An error is one of printing; it leaves a buffer of the same
// length, whose bytes may be those read so far.
pub fn load(
    rt: &(impl Files + Print + Eprint),
    path: impl AsSlice<u8> + Drop,
    buffer: &mut [u8],
) -> io::Result<Option<usize>>
    ensures loaded { IfOk result (λ loaded. IfSome loaded (λ size. IsPrefixLen size buffer.new)) }
    ensures kept { length buffer.new ≡ length buffer.old }
{
    let path = path.as_slice();
    let Ok(name) = str::from_utf8(path) else {
        eprintln!(rt; "{}: the name is no text", path.escape_ascii())?;
        return Ok(None);
    };
    let mut file = match fs::open(rt, name) {
        Ok(file) => file,
        Err(error) => {
            eprintln!(rt; "{name}: {error}")?;
            return Ok(None);
        }
    };
    match read_whole(&mut file, buffer) {
        Ok(size) => Ok(Some(size)),
        Err(unread) => {
            println!(rt; "{name}: {unread}")?;
            Ok(None)
        }
    }
}

// Hands on the bytes of a file of the program's folder, by way of the buffer; where it is not read, why not is
// said, and nothing is handed on.
pub fn with_file<F: FnOnce(&[u8]) -> io::Result<()>>(
    rt: &(impl Files + Print + Eprint),
    path: impl AsSlice<u8> + Drop,
    buffer: &mut [u8],
    lines: F,
) -> io::Result<()>
    requires { F.IsAlwaysCallable lines }
{
    match load(rt, path, buffer)? {
        Some(size) => lines(&buffer[..size]),
        None => Ok(()),
    }
}

// Where a listing goes on: one above the number found, unless that is the last.
pub fn above(number: u64, last: u64) -> Option<u64> {
    (number < last).then(|| number + 1)
}

// What a call gives, in words, or its refusal.
#[derive(Clone, Copy)]
pub struct Answer<T, R>(pub Result<T, R>);

impl<T: fmt::Display, R: fmt::Display> fmt::Display for Answer<T, R> {
    fn fmt<W: fmt::Write>(&self, f: &mut fmt::Formatter<W>) -> fmt::Result {
        match &self.0 {
            Ok(given) => write!(f, "{given}"),
            Err(wrong) => write!(f, "{wrong}"),
        }
    }
}

// What a call finds, said by `found`, or that it finds nothing, or its refusal; without the line's end.
pub fn say_answer<T, F: FnOnce(T) -> io::Result<()>>(
    rt: &impl Print,
    answer: Result<Option<T>, Refusal>,
    found: F,
) -> io::Result<()>
    requires { F.IsAlwaysCallable found }
{
    match answer {
        Ok(Some(answer)) => found(answer),
        Ok(None) => print!(rt; "absent"),
        Err(wrong) => print!(rt; "{wrong}"),
    }
}

// A refusal by its number and place, without what more it says.
#[derive(Clone, Copy)]
pub struct Refused(pub Refusal);

impl fmt::Display for Refused {
    fn fmt<W: fmt::Write>(&self, f: &mut fmt::Formatter<W>) -> fmt::Result {
        let Refused(wrong) = *self;
        let number = refusal::number_of(wrong.fault);
        write!(f, "refused {number} at place {}", wrong.place)
    }
}

// The checksum of an area's words, the lowest byte of each first.
pub fn sum_of(area: &[u64]) -> u32 {
    area.iter().fold(0, |sum, word| crc::checksum_from(sum, &word.to_le_bytes()))
}
