// The header's tests, and what it says.
#![tactic(auto)]

ghost use Rattle.std.specs.Prelude.{◌≡◌, ◌++◌, ◌+◌, ◌≤◌, ◌<◌, eqb, length};
ghost use Rattle.le.specs.Bytes.{part, field};
ghost use Rattle.crc.specs.Checksum.{checksum};
ghost use Rattle.refusal.specs.Order.{in_order};
ghost use Rattle.edition.specs.Fair.{FairLayout};
ghost use Rattle.header.specs.Header.{length_fits, magic_fits, client_fits, version_of, older, version_fits, edition_of, places_of, nodes_of, blocks_of, whole_fits, sentinel_fits, method_of, encoding_fits, stated_end, end_fits, mark_rules, seal_rules, last_rules, header_fits, root_at, header_of, file_end};

use edition::{Edition, HeaderPlaces, Layout};
use refusal::{Fault, Refusal, Verdict};

// A page as the header refers to it.
#[derive(Clone, Copy, Debug, PartialEq, Eq)]
pub struct Reference {
    pub number: u64,
    pub offset: u64,
}

#[derive(Clone, Copy, Debug, PartialEq, Eq)]
pub struct Header {
    pub method: u8,
    pub nodes: Reference,
    pub blocks: Reference,
    pub end: u64,
    pub edition: u64,
}

fn length_fits(image: &[u8]) -> bool
    ensures { result ≡ length_fits image.now }
{
    (564 <= image.len()) & (image.len() <= 1073741824)
}

fn magic_fits(image: &[u8]) -> bool
    requires { 564 ≤ length image.now }
    ensures { result ≡ magic_fits image.now }
{
    (image[0] == 0x21) & (image[1] == 0x42) & (image[2] == 0x44) & (image[3] == 0x4E)
}

fn client_fits(image: &[u8]) -> bool
    requires { 564 ≤ length image.now }
    ensures { result ≡ client_fits image.now }
{
    (image[8] == 0x53) & (image[9] == 0x4D)
}

// A field of the image; of one that the image's end cuts, what the image holds of it.
fn field_held(image: &[u8], place: usize, width: usize) -> u64
    requires { width ≤ 8 }
    ensures { result ≡ field image.now place width }
{
    if image.len() < place {
        return 0;
    }
    let held = image.len() - place;
    if held < width {
        return le::field_of(image, place, held);
    }
    le::field_of(image, place, width)
}

fn version_of(image: &[u8]) -> u64
    ensures { result ≡ version_of image.now }
{
    field_held(image, 10, 2)
}

// Whether the image is of a version of the 32-bit edition.
fn is_older(image: &[u8]) -> bool
    ensures { result ≡ older image.now }
{
    let version = version_of(image);
    (version == 14) | (version == 15)
}

fn version_fits(image: &[u8]) -> bool
    ensures { result ≡ version_fits image.now }
{
    (version_of(image) == 23) | is_older(image)
}

// The edition of the image, and of its parts those that a call needs alone.
pub fn edition_of(image: &[u8]) -> Edition
    ensures { result ≡ edition_of image.now }
{
    if is_older(image) {
        edition::edition_32()
    } else {
        edition::edition_64()
    }
}

fn bits_of(image: &[u8]) -> u64
    ensures { result ≡ (edition_of image.now).bits }
{
    if is_older(image) { 32 } else { 64 }
}

fn places_of(image: &[u8]) -> HeaderPlaces
    ensures { result ≡ places_of image.now }
{
    if is_older(image) {
        edition::places_32()
    } else {
        edition::places_64()
    }
}

pub fn nodes_of(image: &[u8]) -> Layout
    ensures { result ≡ nodes_of image.now }
{
    if is_older(image) {
        edition::nodes_32()
    } else {
        edition::nodes_64()
    }
}

pub fn blocks_of(image: &[u8]) -> Layout
    ensures { result ≡ blocks_of image.now }
{
    if is_older(image) {
        edition::blocks_32()
    } else {
        edition::blocks_64()
    }
}

// The checksum of 471 bytes from 8.
fn partial_sum(image: &[u8]) -> u32
    requires { 564 ≤ length image.now }
    ensures { result ≡ checksum (part image.now 8 471) }
{
    crc::checksum(&image[8..479])
}

// That of 516 bytes from 8, which goes on from it.
fn whole_sum(image: &[u8], partial: u32) -> u32
    requires { (564 ≤ length image.now) × (partial ≡ checksum (part image.now 8 471)) }
    ensures { result ≡ checksum (part image.now 8 516) }
{
    crc::checksum_from(partial, &image[479..524])
}

// Whether the sum stands at the place.
fn sum_stands(image: &[u8], place: usize, sum: u32) -> bool
    requires { (564 ≤ length image.now) × (place + 4 ≤ 564) }
    ensures { result ≡ eqb (field image.now place 4) sum }
{
    le::field4(image, place) == sum
}

// Whether the second checksum stands, where the edition has one.
fn whole_fits(image: &[u8], places: HeaderPlaces, partial: u32) -> bool
    requires { (564 ≤ length image.now) × (places ≡ places_of image.now) × (partial ≡ checksum (part image.now 8 471)) }
    ensures { result ≡ whole_fits image.now }
{
    if !places.whole {
        return true;
    }
    sum_stands(image, 524, whole_sum(image, partial))
}

fn sentinel_fits(image: &[u8], places: HeaderPlaces) -> bool
    requires { (564 ≤ length image.now) × (places ≡ places_of image.now) }
    ensures { result ≡ sentinel_fits image.now }
{
    le::byte_at(image, places.sentinel) == 0x80
}

// The encoding method.
pub fn method_of(image: &[u8]) -> u8
    requires { 564 ≤ length image.now }
    ensures { result ≡ method_of image.now }
{
    let places = places_of(image);
    le::byte_at(image, places.sentinel + 1)
}

fn encoding_fits(image: &[u8]) -> bool
    requires { 564 ≤ length image.now }
    ensures { result ≡ encoding_fits image.now }
{
    method_of(image) <= 2
}

// The end-of-file number.
pub fn stated_end(image: &[u8]) -> u64
    ensures { result ≡ stated_end image.now }
{
    let end = places_of(image).end;
    field_held(image, end.place, end.width)
}

fn end_fits(image: &[u8]) -> bool
    ensures { result ≡ end_fits image.now }
{
    stated_end(image) <= image.len() as u64
}

// The image's length, and the marks of the format and its version.
fn check_marks(image: &[u8]) -> Verdict
    ensures { result ≡ in_order (mark_rules image.now) }
{
    if !length_fits(image) {
        return refusal::refused_at(Fault::ImageLength, 0);
    }
    if !magic_fits(image) {
        return refusal::refused_at(Fault::Magic, 0);
    }
    if !client_fits(image) {
        return refusal::refused_at(Fault::Magic, 8);
    }
    if !version_fits(image) {
        return refusal::refused_at(Fault::Version, 10);
    }
    Ok(())
}

// The two checksums and the sentinel.
fn check_seals(image: &[u8]) -> Verdict
    requires { 564 ≤ length image.now }
    ensures { result ≡ in_order (seal_rules image.now) }
{
    let places = places_of(image);
    let partial = partial_sum(image);
    if !sum_stands(image, 4, partial) {
        return refusal::refused_at(Fault::HeaderChecksum, 4);
    }
    if !whole_fits(image, places, partial) {
        return refusal::refused_at(Fault::HeaderChecksum, 524);
    }
    if !sentinel_fits(image, places) {
        return refusal::refused_at(Fault::Encoding, places.sentinel as u64);
    }
    Ok(())
}

// The encoding method, and where the file ends.
fn check_last(image: &[u8]) -> Verdict
    requires { 564 ≤ length image.now }
    ensures { result ≡ in_order (last_rules image.now) }
{
    let places = places_of(image);
    let known = encoding_fits(image);
    let reached = end_fits(image);
    if !known {
        return refusal::refused_at(Fault::Encoding, places.sentinel as u64 + 1);
    }
    if !reached {
        return refusal::refused_at(Fault::ImageLength, places.end.place as u64);
    }
    Ok(())
}

// The marks and the seals.
fn check_fields(image: &[u8]) -> Verdict
    ensures { result ≡ in_order (mark_rules image.now ++ seal_rules image.now) }
{
    check_marks(image)?;
    check_seals(image)
}

pub fn check_header(image: &[u8]) -> Verdict
    ensures { result ≡ header_fits image.now }
{
    check_fields(image)?;
    check_last(image)
}

// The root page of a tree of this layout, as the header refers to it.
fn root_at(image: &[u8], l: Layout) -> Reference
    requires { FairLayout l × (564 ≤ length image.now) }
    ensures { result ≡ root_at image.now l }
{
    let word = l.word;
    Reference {
        number: le::field_of(image, l.root, word),
        offset: le::field_of(image, l.root + word, word),
    }
}

pub fn header_of(image: &[u8]) -> Result<Header, Refusal>
    ensures { result ≡ header_of image.now }
{
    check_header(image)?;
    Ok(Header {
        method: method_of(image),
        nodes: root_at(image, nodes_of(image)),
        blocks: root_at(image, blocks_of(image)),
        end: stated_end(image),
        edition: bits_of(image),
    })
}

// Where pages and blocks must end at the latest.
pub fn file_end(image: &[u8]) -> u64
    ensures { result ≡ file_end image.now }
{
    stated_end(image).min(image.len() as u64)
}
