// The header's answer, and checksums and signatures of headers, pages and blocks, beside those that stand in
// their bytes. A section may be any bytes, which are written as they are.
use crate::HeaderWords;
use header::Reference;
use said::{Answer, Refused};
use std::convert::AsSlice;
use std::io;
use std::rt::Files;

pub fn header_line(
    rt: &impl Print,
    section: impl AsSlice<u8> + Drop,
    image: &[u8],
) -> io::Result<()> {
    let answer = pst::header(image).map(HeaderWords).map_err(Refused);
    rt.write_all(section.as_slice())?;
    println!(rt; " header: {}", Answer(answer))
}

// A header in a file of digits.
pub fn header_lines(
    rt: &(impl Files + Print + Eprint),
    section: impl AsSlice<u8> + Drop,
    name: impl AsSlice<u8> + Drop,
) -> io::Result<()> {
    let section = section.as_slice();
    listed::with_hex(rt, name, &mut [0u8; 564], |header| {
        header_line(rt, section, header)
    })
}

// The bytes of a number that stands at `place`, where it does.
fn number_at<const N: usize>(bytes: &[u8], place: usize) -> Option<[u8; N]> {
    bytes.get(place..)?.first_chunk().copied()
}

fn four_at(bytes: &[u8], place: usize) -> Option<u32> {
    number_at(bytes, place).map(u32::from_le_bytes)
}

fn two_at(bytes: &[u8], place: usize) -> Option<u16> {
    number_at(bytes, place).map(u16::from_le_bytes)
}

// The checksum of so many bytes of a header from 8, and the one that stands at `place`.
pub fn header_sum_line(
    rt: &impl Print,
    section: impl AsSlice<u8> + Drop,
    header: &[u8],
    size: usize,
    place: usize,
) -> io::Result<()> {
    let summed = header.get(8..).and_then(|rest| rest.get(..size));
    let (Some(summed), Some(stated)) = (summed, four_at(header, place)) else {
        return Ok(());
    };
    let sum = pst::checksum(summed);
    rt.write_all(section.as_slice())?;
    print!(rt; " checksum of {size} bytes at 8: {sum:08x}")?;
    println!(rt; "{}", listed::whether(sum == stated))
}

// The checksum of the bytes to `end`, and the one that stands behind them at `place`.
pub fn checksum_line(
    rt: &impl Print,
    section: impl AsSlice<u8> + Drop,
    bytes: &[u8],
    end: usize,
    place: usize,
) -> io::Result<()> {
    let (Some(summed), Some(stated)) = (bytes.get(..end), four_at(bytes, place)) else {
        return Ok(());
    };
    let sum = pst::checksum(summed);
    rt.write_all(section.as_slice())?;
    print!(rt; " checksum of {end} bytes: {sum:08x}")?;
    println!(rt; "{}", listed::whether(sum == stated))
}

// The signature of an offset and a number, without the line's end.
pub fn say_signature(
    rt: &impl Print,
    section: impl AsSlice<u8> + Drop,
    reference: Reference,
) -> io::Result<u16> {
    let Reference { number, offset } = reference;
    let signed = pst::signature(offset, number);
    rt.write_all(section.as_slice())?;
    print!(rt; " signature of {offset:x} and {number:x}: {signed:04x}")?;
    Ok(signed)
}

pub fn bare_signature_line(
    rt: &impl Print,
    section: impl AsSlice<u8> + Drop,
    reference: Reference,
) -> io::Result<()> {
    say_signature(rt, section, reference)?;
    println!(rt)
}

// The signature of an offset and a number, and the one that stands at `place`.
pub fn signature_line(
    rt: &impl Print,
    section: impl AsSlice<u8> + Drop,
    bytes: &[u8],
    place: usize,
    reference: Reference,
) -> io::Result<()> {
    let Some(stated) = two_at(bytes, place) else {
        return Ok(());
    };
    let signed = say_signature(rt, section, reference)?;
    println!(rt; "{}", listed::whether(signed == stated))
}

// A page in a file of digits: its checksum goes to `end`, behind which stand its kind and its signature.
pub fn page_lines(
    rt: &(impl Files + Print + Eprint),
    section: impl AsSlice<u8> + Drop,
    name: impl AsSlice<u8> + Drop,
    end: usize,
    checksum: usize,
    reference: Reference,
) -> io::Result<()> {
    if 508 < end {
        return Ok(());
    }
    let section = section.as_slice();
    listed::with_hex(rt, name, &mut [0u8; 512], |page| {
        checksum_line(rt, section, page, end, checksum)?;
        signature_line(rt, section, page, end + 2, reference)
    })
}

// The room of a block with so many bytes of data.
pub fn room_line(
    rt: &impl Print,
    section: impl AsSlice<u8> + Drop,
    size: u32,
    room: u64,
) -> io::Result<()> {
    rt.write_all(section.as_slice())?;
    println!(rt; " room of {size}: {room}")
}
