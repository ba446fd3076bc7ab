// Blocks: their room, their tests 12 to 15, and their bytes decoded.
#![tactic(auto)]

ghost use Rattle.std.specs.Prelude.{◌≡◌, ◌+◌, ◌≤◌, length, Ok};
ghost use Rattle.refusal.specs.Order.{in_order};
ghost use Rattle.header.specs.Header.{header_fits};
ghost use Rattle.page.specs.Layout.{compared};
ghost use Rattle.tree.specs.Lookup.{lookup};
ghost use Rattle.tree.specs.Ways.{at_end, FromRoot};
ghost use Rattle.edition.specs.Fair.{FairTrailer, FairEdition};
ghost use Rattle.laws.specs.Front.{fronted};
ghost use Rattle.block.specs.Block.{room_for, room as room_of, room32 as room32Of, place_fits, trailer_fits, sum_fits, trailer_rules, block_fits, tested_by, checked_block, test_of, internal, plain, block_bytes, read_of, filled_of};

use edition::{Edition, Trailer};
use refusal::{Fault, Refusal, Verdict};
use tree::{Found, Listed, Way};

fn room_for(t: Trailer, size: u64) -> u64
    requires { (size ≤ 4294967295) × (t.length ≤ 64) }
    ensures { result ≡ room_for t size }
{
    (size + t.length + 63) / 64 * 64
}

pub fn room(size: u32) -> u64
    ensures { result ≡ room_of size }
{
    room_for(edition::trailer_64(), size as u64)
}

pub fn room32(size: u32) -> u64
    ensures { result ≡ room32Of size }
{
    room_for(edition::trailer_32(), size as u64)
}

// Test 13. The size is tested first, so that the room is a small number.
fn place_fits(image: &[u8], t: Trailer, b: Listed) -> bool
    requires { FairTrailer t }
    ensures { result ≡ place_fits t image.now b }
{
    let size = b.size;
    let offset = b.offset;
    if t.most < size {
        return false;
    }
    (1 <= size)
        & (size <= t.most)
        & (offset % 64 == 0)
        & (17408 <= offset)
        & page::ends_by(offset, room_for(t, size), header::file_end(image))
}

// Test 14, of the trailer's bytes.
fn trailer_fits(t: Trailer, b: Listed, trailer: &[u8]) -> bool
    requires { FairTrailer t × (length trailer.now ≡ t.length) }
    ensures { result ≡ trailer_fits t b trailer.now }
{
    let size = le::field2(trailer, 0) as u64;
    let stated = le::field_of(trailer, t.number, t.word);
    let number = b.block;
    (size == b.size)
        & (keys::cleared(stated) == keys::cleared(number))
        & (le::field2(trailer, 2) == page::signature(b.offset, number))
}

// Test 15, before decoding.
fn sum_fits(t: Trailer, trailer: &[u8], body: &[u8]) -> bool
    requires { FairTrailer t × (length trailer.now ≡ t.length) }
    ensures { result ≡ sum_fits t trailer.now body.now }
{
    le::field4(trailer, t.checksum) == crc::checksum(body)
}

// Tests 14 and 15, of the trailer's bytes and the block's.
fn test_bytes(t: Trailer, b: Listed, trailer: &[u8], body: &[u8]) -> Verdict
    requires { FairTrailer t × (length trailer.now ≡ t.length) }
    ensures { result ≡ in_order (trailer_rules t b trailer.now body.now) }
{
    let offset = b.offset;
    if !trailer_fits(t, b, trailer) {
        return refusal::refused_at(Fault::BlockTrailer, offset);
    }
    if !sum_fits(t, trailer, body) {
        return refusal::refused_at(Fault::BlockChecksum, offset);
    }
    Ok(())
}

// Tests 13 to 15 of a listed block.
fn test_listed(image: &[u8], t: Trailer, b: Listed) -> Verdict
    requires { FairTrailer t }
    ensures { result ≡ block_fits t image.now b }
{
    let offset = b.offset;
    if !place_fits(image, t, b) {
        return refusal::refused_at(Fault::BlockOffset, offset);
    }
    let at = offset as usize;
    let size = b.size as usize;
    let length = t.length as usize;
    let start = at + (room_for(t, b.size) as usize - length);
    test_bytes(t, b, &image[start..start + length], &image[at..at + size])
}

// What a lookup found, tested: 12 to 15 after what the lookup refuses.
fn test_found(
    image: &[u8],
    t: Trailer,
    found: Result<Found<Listed>, Refusal>,
) -> Result<Listed, Refusal>
    requires { FairTrailer t }
    ensures { result ≡ tested_by (block_fits t image.now) found }
{
    let Found::Entry(b, _) = found? else {
        return refusal::refused_at(Fault::BlockUnlisted, 0);
    };
    test_listed(image, t, b)?;
    Ok(b)
}

// A block that is looked up and tested.
pub fn check_block(image: &[u8], e: Edition, block: u64) -> Result<Listed, Refusal>
    requires { FairEdition e }
    ensures { result ≡ checked_block e image.now block }
{
    test_found(image, e.trailer, tree::find(image, e.blocks, block))
}

// The same in an image whose header is accepted.
pub fn check_block_in(image: &[u8], e: Edition, block: u64) -> Result<Listed, Refusal>
    requires { FairEdition e × (header_fits image.now ≡ Ok tt) }
    ensures { result ≡ checked_block e image.now block }
{
    test_found(image, e.trailer, tree::find_in(image, e.blocks, block))
}

// The same at the end of the block's way.
pub fn check_block_at(image: &[u8], e: Edition, way: Way, block: u64) -> Result<Listed, Refusal>
    requires { FairEdition e × FromRoot e.blocks image.now way × (at_end e.blocks image.now way (compared e.blocks block) ≡ lookup e.blocks image.now block) }
    ensures { result ≡ checked_block e image.now block }
{
    test_found(image, e.trailer, tree::at(image, e.blocks, way, block))
}

pub fn test_block(image: &[u8], e: Edition, block: u64) -> Result<u64, Refusal>
    requires { FairEdition e }
    ensures { result ≡ test_of e image.now block }
{
    Ok(check_block(image, e, block)?.size)
}

pub fn is_internal(block: u64) -> bool
    ensures { result ≡ internal block }
{
    block / 2 % 2 == 1
}

// Copies the bytes; both are of one length. The library's method would ask the C library for memmove.
fn copy(out: &mut [u8], bytes: &[u8])
    requires { length out.old ≡ length bytes.now }
    ensures { out.new ≡ bytes.now }
{
    for (i, byte) in bytes.iter().enumerate() {
        out[i] = *byte;
    }
}

// The bytes of a block, in place: decoded by the method unless the block is internal.
fn make_plain(method: u8, block: u64, bytes: &mut [u8])
    ensures { bytes.new ≡ plain method block bytes.old }
{
    if is_internal(block) {
        return;
    }
    let _ = coding::decode(method, block, bytes);
}

// The bytes of a block as stored come to stand, decoded, at the front of `out`.
fn decode_into(method: u8, block: u64, bytes: &[u8], out: &mut [u8])
    requires { length bytes.now ≤ length out.old }
    ensures { out.new ≡ fronted (plain method block bytes.now) out.old }
{
    let n = bytes.len();
    copy(&mut out[0..n], bytes);
    make_plain(method, block, &mut out[0..n]);
}

// The bytes of a listed block that has passed its tests, at the front of `out`.
pub fn block_into(image: &[u8], b: Listed, out: &mut [u8])
    requires { (564 ≤ length image.now) × (b.offset + b.size ≤ length image.now) × (b.size ≤ length out.old) }
    ensures { out.new ≡ fronted (block_bytes image.now b) out.old }
{
    let at = b.offset as usize;
    let size = b.size as usize;
    let method = header::method_of(image);
    decode_into(method, b.block, &image[at..at + size], out);
}

// The tests, then 17, then the bytes.
pub fn read_block(image: &[u8], e: Edition, block: u64, out: &mut [u8]) -> Result<u64, Refusal>
    requires { FairEdition e }
    ensures answer { result ≡ read_of e image.now block (length out.old) }
    ensures buffer { out.new ≡ filled_of e image.now block out.old }
{
    let b = check_block(image, e, block)?;
    let size = b.size;
    if (out.len() as u64) < size {
        return refusal::refused_needing(Fault::ShortBuffer, size);
    }
    block_into(image, b, out);
    Ok(size)
}
