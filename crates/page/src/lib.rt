// One page: its tests 6 to 11 and 21, and its entries, over a layout.
#![tactic(auto)]

ghost use Rattle.std.specs.Prelude.{◌≡◌, true, ◌++◌, ◌+◌, ◌*◌, ◌%◌, ◌^◌, ◌≤◌, ◌<◌, leb, length};
ghost use Rattle.le.specs.Bytes.{byte};
ghost use Rattle.refusal.specs.Order.{in_order};
ghost use Rattle.page.specs.Layout.{as_given, compared as compared_of, entry_size, most_room, shape};
ghost use Rattle.edition.specs.Fair.{FairLayout};
ghost use Rattle.page.specs.Page.{signature as signature_of, count_of, level_of, offset_fits, kind_fits, number_fits, checksum_fits, level_fits, may_be_empty, counts_fit, bytes_rules, keys_in, key_rules, page_fits};

use edition::Layout;
use keys::{Disorder, Range, Shape};
use refusal::{Fault, Verdict};

// The level that a page must have.
#[derive(Clone, Copy, Debug, PartialEq, Eq)]
pub enum Level {
    AtRoot,
    Exactly(usize),
}

// A page as it is referred to.
#[derive(Clone, Copy)]
pub struct Link {
    pub number: u64,
    pub offset: u64,
    pub level: Level,
    pub range: Range,
}

// A number that a call is given, on the bytes that count.
pub fn as_given(l: Layout, number: u64) -> u64
    requires { FairLayout l }
    ensures { result ≡ as_given l number }
{
    if l.sought == 8 {
        return number;
    }
    number % 4294967296
}

// What is compared of a key sought.
pub fn compared(l: Layout, key: u64) -> u64
    requires { FairLayout l }
    ensures { result ≡ compared_of l key }
{
    keys::significant(l.reserved, as_given(l, key))
}

// A byte as a count.
fn count_at(page: &[u8], place: usize) -> usize
    requires { place < length page.now }
    ensures { (result ≡ byte page.now place) × (result < 256) }
{
    page[place] as usize
}

pub fn signature(offset: u64, number: u64) -> u16
    ensures { result ≡ signature_of offset number }
{
    let x = offset ^ number;
    ((x % 65536) as u16) ^ ((x / 65536 % 65536) as u16)
}

// Whether so many bytes from the offset end at `end` at the latest, as a sum that never wraps.
pub fn ends_by(offset: u64, size: u64, end: u64) -> bool
    ensures { result ≡ leb (offset + size) end }
{
    offset <= end && size <= end - offset
}

// Test 6.
pub fn offset_fits(image: &[u8], offset: u64) -> bool
    ensures { result ≡ offset_fits image.now offset }
{
    (offset % 64 == 0) & (17408 <= offset) & ends_by(offset, 512, header::file_end(image))
}

// Test 7.
fn kind_fits(l: Layout, page: &[u8]) -> bool
    requires { FairLayout l × (length page.now ≡ 512) }
    ensures { result ≡ kind_fits l page.now }
{
    let place = l.trailer;
    (le::byte_at(page, place) == l.kind) & (le::byte_at(page, place + 1) == l.kind)
}

// Test 8.
fn number_fits(l: Layout, p: Link, page: &[u8]) -> bool
    requires { FairLayout l × (length page.now ≡ 512) }
    ensures { result ≡ number_fits l p page.now }
{
    (le::field_of(page, l.number, l.word) == p.number)
        & (le::field2(page, l.trailer + 2) == signature(p.offset, p.number))
}

// Test 9.
fn checksum_fits(l: Layout, page: &[u8]) -> bool
    requires { FairLayout l × (length page.now ≡ 512) }
    ensures { result ≡ checksum_fits l page.now }
{
    le::field4(page, l.checksum) == crc::checksum(&page[..l.trailer])
}

fn level_fits(want: Level, level: usize) -> bool
    ensures { result ≡ level_fits want level }
{
    match want {
        Level::AtRoot => level <= 7,
        Level::Exactly(exact) => level == exact,
    }
}

fn may_be_empty(want: Level, level: usize) -> bool
    ensures { result ≡ may_be_empty want level }
{
    match want {
        Level::AtRoot => level == 0,
        Level::Exactly(_) => false,
    }
}

pub fn entry_size(l: Layout, level: usize) -> usize
    ensures { result ≡ entry_size l level }
{
    if level == 0 { l.leafsize } else { l.indexsize }
}

fn most_room(l: Layout, level: usize) -> usize
    ensures { result ≡ most_room l level }
{
    if level == 0 { l.leafroom } else { l.indexroom }
}

// The shape of the entries of a page of this level.
pub fn shape_of(l: Layout, level: usize) -> Shape
    ensures { result ≡ shape l level }
{
    Shape {
        size: entry_size(l, level),
        width: l.key,
        reserved: l.reserved,
    }
}

// How many entries a page has, its level, and the shape of its entries.
pub fn count_of(l: Layout, page: &[u8]) -> usize
    requires { FairLayout l × (length page.now ≡ 512) }
    ensures { (result ≡ count_of l page.now) × (result < 256) }
{
    count_at(page, l.counts)
}

pub fn level_of(l: Layout, page: &[u8]) -> usize
    requires { FairLayout l × (length page.now ≡ 512) }
    ensures { (result ≡ level_of l page.now) × (result < 256) }
{
    count_at(page, l.counts + 3)
}

pub fn shape_in(l: Layout, page: &[u8]) -> Shape
    requires { FairLayout l × (length page.now ≡ 512) }
    ensures { result ≡ shape l (level_of l page.now) }
{
    shape_of(l, level_of(l, page))
}

// Test 10.
fn counts_fit(l: Layout, p: Link, page: &[u8]) -> bool
    requires { FairLayout l × (length page.now ≡ 512) }
    ensures { result ≡ counts_fit l p page.now }
{
    let place = l.counts;
    let count = count_at(page, place);
    let room = count_at(page, place + 1);
    let size = count_at(page, place + 2);
    let level = count_at(page, place + 3);
    level_fits(p.level, level)
        & (size == entry_size(l, level))
        & (room <= most_room(l, level))
        & (count <= room)
        & ((1 <= count) | may_be_empty(p.level, level))
}

// Tests 11 and 21.
fn check_keys(l: Layout, p: Link, page: &[u8]) -> Verdict
    requires { FairLayout l × (length page.now ≡ 512) × (counts_fit l p page.now ≡ true) }
    ensures { result ≡ in_order (key_rules p (keys_in l page.now)) }
{
    match keys::check_keys(page, shape_in(l, page), count_of(l, page), p.range) {
        Ok(()) => Ok(()),
        Err(Disorder::Unordered(i)) => refusal::refused_entry(Fault::KeyOrder, p.offset, i as u64),
        Err(Disorder::Outside(i)) => refusal::refused_entry(Fault::KeyRange, p.offset, i as u64),
    }
}

// The tests from 7 on, of a page's bytes.
fn check_bytes(l: Layout, p: Link, page: &[u8]) -> Verdict
    requires { FairLayout l × (length page.now ≡ 512) }
    ensures { result ≡ in_order (bytes_rules l p page.now ++ key_rules p (keys_in l page.now)) }
{
    let offset = p.offset;
    if !kind_fits(l, page) {
        return refusal::refused_at(Fault::PageKind, offset);
    }
    if !number_fits(l, p, page) {
        return refusal::refused_at(Fault::PageNumber, offset);
    }
    if !checksum_fits(l, page) {
        return refusal::refused_at(Fault::PageChecksum, offset);
    }
    if !counts_fit(l, p, page) {
        return refusal::refused_at(Fault::PageCounts, offset);
    }
    check_keys(l, p, page)
}

// The page check: test 6, and the others of the part of the image from the offset for 512 bytes.
pub fn check_page(image: &[u8], l: Layout, p: Link) -> Verdict
    requires { FairLayout l }
    ensures { result ≡ page_fits l image.now p }
{
    let offset = p.offset;
    if !offset_fits(image, offset) {
        return refusal::refused_at(Fault::PageOffset, offset);
    }
    let at = offset as usize;
    check_bytes(l, p, &image[at..at + 512])
}
