// The whole-tree check and the lookup of a key, over any layout; and what they come to as a node or a block.
#![tactic(auto)]

ghost use Rattle.std.specs.Prelude.{◌≡◌, true, map, ◌+◌, ◌*◌, ◌≤◌, ◌<◌, length};
ghost use Rattle.le.specs.Bytes.{part};
ghost use Rattle.keys.specs.Records.{RecordsIn};
ghost use Rattle.keys.specs.Search.{last_at_most, scanned, start};
ghost use Rattle.search.specs.SearchTree.{children, check_under, each};
ghost use Rattle.search.specs.Answer.{answer, counted};
ghost use Rattle.search.specs.Descent.{picked, descend};
ghost use Rattle.search.specs.Records.{child_at, children_from};
ghost use Rattle.header.specs.Header.{header_fits};
ghost use Rattle.page.specs.Layout.{shape, compared};
ghost use Rattle.edition.specs.Fair.{FairLayout, Within};
ghost use Rattle.page.specs.Page.{page, count_of, level_of, entries, key_in, offset_fits, counts_fit, page_fits};
ghost use Rattle.tree.specs.Tree.{root, link_of, page_tree, tree_fits};
ghost use Rattle.tree.specs.Lookup.{lookup, next};
ghost use Rattle.tree.specs.Ways.{start_fits, at_end, Leading, FromRoot, leads_to};
ghost use Rattle.tree.specs.Answers.{column_of, fields_of, shown, found_as, node_in, listed_in, kids_from, chosen_of, next_of, LevelIs};

use edition::{Column, Layout};
use keys::{Range, Shape, Sought};
use page::{Level, Link};
use refusal::{Refusal, Verdict};

// A leaf entry's numbers, without its padding.
#[derive(Clone, Copy, Debug, PartialEq, Eq)]
pub struct Fields {
    pub first: u64,
    pub second: u64,
    pub third: u64,
    pub fourth: u64,
}

// An entry that was found, or that there is none; and beside either the count of pages read.
#[derive(Clone, Copy, Debug, PartialEq, Eq)]
pub enum Found<T> {
    Entry(T, u64),
    Absent(u64),
}

// The way of a key down a tree: the leaf page at which its lookup ends, or an index page with no child for it.
pub type Way = Result<Found<Link>, Refusal>;

// A node as its tree lists it: its number, data block, subnode block and parent.
#[derive(Clone, Copy, Debug, PartialEq, Eq)]
pub struct Node {
    pub node: u64,
    pub block: u64,
    pub subnode: u64,
    pub parent: u64,
}

// A block as its tree lists it.
#[derive(Clone, Copy, Debug, PartialEq, Eq)]
pub struct Listed {
    pub block: u64,
    pub offset: u64,
    pub size: u64,
    pub references: u64,
}

// The child of the i-th entry.
fn link_at(
    l: Layout,
    page: &[u8],
    shape: Shape,
    count: usize,
    level: usize,
    to: Option<u64>,
    i: usize,
) -> Link
    requires { RecordsIn shape count page.now × (shape.width ≡ l.key) × (shape.reserved ≡ l.reserved) × (l.word * 3 ≤ shape.size) × (l.word ≤ 8) × (i < count) × (count ≤ 255) }
    ensures { result ≡ child_at (key_in l) (link_of l level) to shape count page.now i }
{
    let word = l.word;
    let place = i * shape.size;
    Link {
        number: le::field_of(page, place + word, word),
        offset: le::field_of(page, place + word + word, word),
        level: Level::Exactly(level),
        range: keys::range_at(page, shape, count, i, to),
    }
}

// The child of the i-th entry of a page whose counts fit, if there is such an entry.
fn next_link(l: Layout, page: &[u8], level: usize, p: Link, i: usize) -> Option<Link>
    requires { FairLayout l × (length page.now ≡ 512) × (counts_fit l p page.now ≡ true) }
    ensures { result ≡ next_of (children_from (key_in l) (link_of l level) p.range.to (shape l (level_of l page.now)) (count_of l page.now) page.now i) }
{
    let count = page::count_of(l, page);
    if count <= i {
        return None;
    }
    let shape = page::shape_in(l, page);
    Some(link_at(l, page, shape, count, level, p.range.to, i))
}

// The same in an image, of an accepted page.
fn child_at(image: &[u8], l: Layout, level: usize, p: Link, i: usize) -> Option<Link>
    requires { FairLayout l × (page_fits l image.now p ≡ Ok tt) }
    ensures { result ≡ next_of (kids_from l image.now level p i) }
{
    let at = p.offset as usize;
    next_link(l, &image[at..at + 512], level, p, i)
}

// How many entries an accepted page has.
fn count_for(image: &[u8], l: Layout, p: Link) -> usize
    requires { FairLayout l × (page_fits l image.now p ≡ Ok tt) }
    ensures { (result ≡ count_of l (page image.now p.offset)) × (result < 256) }
{
    let at = p.offset as usize;
    page::count_of(l, &image[at..at + 512])
}

// The shape of its entries.
fn entry_for(image: &[u8], l: Layout, p: Link) -> Shape
    requires { FairLayout l × (page_fits l image.now p ≡ Ok tt) }
    ensures { result ≡ shape l (level_of l (page image.now p.offset)) }
{
    let at = p.offset as usize;
    page::shape_in(l, &image[at..at + 512])
}

// The child of the i-th of its entries, of which it has so many of this shape.
fn link_for(
    image: &[u8],
    l: Layout,
    entry: Shape,
    count: usize,
    level: usize,
    p: Link,
    i: usize,
) -> Link
    requires { FairLayout l × (page_fits l image.now p ≡ Ok tt) × (entry ≡ shape l (level_of l (page image.now p.offset))) × (count ≡ count_of l (page image.now p.offset)) × (i < count) }
    ensures { next_of (kids_from l image.now level p i) ≡ Some result }
{
    let at = p.offset as usize;
    link_at(l, &image[at..at + 512], entry, count, level, p.range.to, i)
}

// "Every page on this path gets the full page check": all pages that are read pass here, whatever the call.
fn verdict_on(image: &[u8], l: Layout, p: Link) -> Verdict
    requires { FairLayout l }
    ensures { result ≡ page_fits l image.now p }
{
    page::check_page(image, l, p)
}

// The check of a page of a level and of everything under it.
#[cycle(check_children_check_under)]
fn check_under(image: &[u8], l: Layout, level: usize, p: Link) -> Verdict
    requires { FairLayout l }
    ensures { result ≡ check_under (page_tree l image.now) level p }
{
    verdict_on(image, l, p)?;
    if level == 0 {
        return Ok(());
    }
    check_children(image, l, level - 1, p)
}

// The check of an accepted page's children, each with everything under it; of a leaf page its test is all.
#[cycle(check_children_check_under)]
fn check_children(image: &[u8], l: Layout, level: usize, p: Link) -> Verdict
    requires { FairLayout l × (page_fits l image.now p ≡ Ok tt) }
    ensures { result ≡ each (page_tree l image.now) level (kids_from l image.now level p 0) }
{
    let count = count_for(image, l, p);
    let entry = entry_for(image, l, p);
    for i in 0..count {
        let child = link_for(image, l, entry, count, level, p, i);
        if level == 0 {
            verdict_on(image, l, child)?;
        } else {
            check_under(image, l, level, child)?;
        }
    }
    Ok(())
}

// The chosen child of a page whose counts fit: that of the last entry whose key is at most the key sought.
fn choose(l: Layout, page: &[u8], level: usize, p: Link, key: u64) -> Option<Link>
    requires { FairLayout l × (length page.now ≡ 512) × (counts_fit l p page.now ≡ true) }
    ensures { result ≡ next_of (chosen_of l level p.range.to key page.now) }
{
    let count = page::count_of(l, page);
    let shape = page::shape_in(l, page);
    let i = keys::last_at_most(page, shape, count, key)?;
    Some(link_at(l, page, shape, count, level, p.range.to, i))
}

// The same in an image, of an accepted page.
fn child_for(image: &[u8], l: Layout, level: usize, p: Link, key: u64) -> Option<Link>
    requires { FairLayout l × (page_fits l image.now p ≡ Ok tt) }
    ensures { result ≡ next_of (picked (page_tree l image.now) Sought.Equal key (children (page_tree l image.now) level p)) }
{
    let at = p.offset as usize;
    choose(l, &image[at..at + 512], level, p, key)
}

fn column_at(page: &[u8], place: usize, size: usize, column: Column) -> u64
    requires { (place + size ≤ length page.now) × Within column size }
    ensures { result ≡ column_of (part page.now place size) column }
{
    le::field_of(page, place + column.place, column.width)
}

// The numbers of the leaf entry at the place.
fn fields_at(l: Layout, page: &[u8], place: usize) -> Fields
    requires { FairLayout l × (place + l.leafsize ≤ length page.now) }
    ensures { result ≡ fields_of l (part page.now place l.leafsize) }
{
    let size = l.leafsize;
    Fields {
        first: column_at(page, place, size, l.first),
        second: column_at(page, place, size, l.second),
        third: column_at(page, place, size, l.third),
        fourth: column_at(page, place, size, l.fourth),
    }
}

// The answer at a leaf page whose counts fit, when so many pages have been read.
fn leaf_answer(
    l: Layout,
    page: &[u8],
    p: Link,
    sought: Sought,
    key: u64,
    pages: u64,
) -> Result<Found<Fields>, Refusal>
    requires { FairLayout l × (length page.now ≡ 512) × (counts_fit l p page.now ≡ true) × (level_of l page.now ≡ 0) }
    ensures { result ≡ shown l (answer (scanned sought (key_in l) key (entries l page.now)) pages) }
{
    let count = page::count_of(l, page);
    let shape = page::shape_of(l, 0);
    let Some(i) = keys::first_that(page, shape, count, sought, key) else {
        return Ok(Found::Absent(pages));
    };
    Ok(Found::Entry(fields_at(l, page, i * l.leafsize), pages))
}

// The same in an image, of an accepted page.
fn leaf_for(
    image: &[u8],
    l: Layout,
    p: Link,
    sought: Sought,
    key: u64,
    pages: u64,
) -> Result<Found<Fields>, Refusal>
    requires { FairLayout l × (page_fits l image.now p ≡ Ok tt) × (level_of l (page image.now p.offset) ≡ 0) }
    ensures { result ≡ shown l (answer (scanned sought (key_in l) key (entries l (page image.now p.offset))) pages) }
{
    let at = p.offset as usize;
    leaf_answer(l, &image[at..at + 512], p, sought, key, pages)
}

// The way down from an accepted page of a level, when so many pages have been read before it.
fn way_from(image: &[u8], l: Layout, level: usize, p: Link, key: u64, pages: u64) -> Way
    requires { FairLayout l × (page_fits l image.now p ≡ Ok tt) × (level_of l (page image.now p.offset) ≡ level) × (pages + level ≤ 1000) }
    ensures { (at_end l image.now result key ≡ counted pages (descend (page_tree l image.now) Sought.Equal key level p)) × Leading l image.now level p pages result }
{
    if level == 0 {
        return Ok(Found::Entry(p, pages + 1));
    }
    let Some(child) = child_for(image, l, level - 1, p, key) else {
        return Ok(Found::Absent(pages + 1));
    };
    verdict_on(image, l, child)?;
    way_from(image, l, level - 1, child, key, pages + 1)
}

// Whether a way is that of a key too: its leaf page has the key in its range.
fn leads_to(way: Way, key: u64) -> bool
    ensures { result ≡ leads_to way key }
{
    let Ok(Found::Entry(leaf, _)) = way else {
        return false;
    };
    keys::in_range(leaf.range, key)
}

// The answer at the end of a way from the root page.
fn end_of(image: &[u8], l: Layout, way: Way, key: u64) -> Result<Found<Fields>, Refusal>
    requires { FairLayout l × FromRoot l image.now way }
    ensures { result ≡ shown l (at_end l image.now way key) }
{
    match way? {
        Found::Entry(leaf, pages) => leaf_for(image, l, leaf, Sought::Equal, key, pages),
        Found::Absent(pages) => Ok(Found::Absent(pages)),
    }
}

// The index of the entry with which a listing starts in a page whose counts fit.
fn start_in(l: Layout, page: &[u8], p: Link, key: u64) -> usize
    requires { FairLayout l × (length page.now ≡ 512) × (counts_fit l p page.now ≡ true) }
    ensures { (result ≡ start (last_at_most key (map (key_in l) (entries l page.now)))) × (result ≤ 255) }
{
    let count = page::count_of(l, page);
    let shape = page::shape_in(l, page);
    keys::start_of(page, shape, count, key)
}

// The same in an image, of an accepted page.
fn start_for(image: &[u8], l: Layout, p: Link, key: u64) -> usize
    requires { FairLayout l × (page_fits l image.now p ≡ Ok tt) }
    ensures { (result ≡ start (last_at_most key (map (key_in l) (entries l (page image.now p.offset))))) × (result ≤ 255) }
{
    let at = p.offset as usize;
    start_in(l, &image[at..at + 512], p, key)
}

// The first entry from a key on under a page of a level, when so many pages have been read. The child
// behind one that answers absent begins above the key, so it never answers absent itself.
fn seek(
    image: &[u8],
    l: Layout,
    level: usize,
    p: Link,
    key: u64,
    pages: u64,
) -> Result<Found<Fields>, Refusal>
    requires { FairLayout l × LevelIs l image.now level p × (level ≤ 255) × (pages + 512 * level ≤ 200000) }
    ensures { result ≡ shown l (counted pages (descend (page_tree l image.now) Sought.AtLeast key level p)) }
{
    verdict_on(image, l, p)?; // The first refusal ends the listing, of whichever page.
    if level == 0 {
        return leaf_for(image, l, p, Sought::AtLeast, key, pages + 1);
    }
    let i = start_for(image, l, p, key);
    let Some(child) = child_at(image, l, level - 1, p, i) else {
        return Ok(Found::Absent(pages + 1));
    };
    let found = seek(image, l, level - 1, child, key, pages + 1)?;
    let Found::Absent(read) = found else {
        return Ok(found);
    };
    let Some(further) = child_at(image, l, level - 1, p, i + 1) else {
        return Ok(found);
    };
    seek(image, l, level - 1, further, key, read)
}

// The root page, as the header refers to it.
fn root_link(image: &[u8], l: Layout) -> Link
    requires { FairLayout l × (564 ≤ length image.now) }
    ensures { result ≡ root l image.now }
{
    let word = l.word;
    Link {
        number: le::field_of(image, l.root, word),
        offset: le::field_of(image, l.root + word, word),
        level: Level::AtRoot,
        range: Range { from: 0, to: None },
    }
}

// The level that a page states, where its offset is allowed: the number that falls on the way down.
fn stated_level(image: &[u8], l: Layout, offset: u64) -> usize
    requires { FairLayout l }
    ensures { (offset_fits image.now offset ≡ true → result ≡ level_of l (page image.now offset)) × (result ≤ 255) }
{
    if !page::offset_fits(image, offset) {
        return 0;
    }
    let at = offset as usize;
    page::level_of(l, &image[at..at + 512])
}

// The whole-tree check.
pub fn check_tree(image: &[u8], l: Layout) -> Verdict
    requires { FairLayout l }
    ensures { result ≡ tree_fits l image.now }
{
    header::check_header(image)?;
    let p = root_link(image, l);
    check_under(image, l, stated_level(image, l, p.offset), p)
}

// For a call that looks up many keys in an image whose header is accepted: the check of the root page.
pub fn check_root(image: &[u8], l: Layout) -> Verdict
    requires { FairLayout l × (header_fits image.now ≡ Ok tt) }
    ensures { result ≡ start_fits l image.now }
{
    verdict_on(image, l, root_link(image, l))
}

// For a call that looks up many keys: what each lookup tests before it goes down.
pub fn check_start(image: &[u8], l: Layout) -> Verdict
    requires { FairLayout l }
    ensures { result ≡ start_fits l image.now }
{
    header::check_header(image)?;
    check_root(image, l)
}

// The way of a key, where `start` is what came of the header and the root page. A way that was found
// before is taken again where it leads to the key.
pub fn way_to(image: &[u8], l: Layout, start: Verdict, last: Way, key: u64) -> Way
    requires { FairLayout l × (start ≡ start_fits l image.now) × FromRoot l image.now last }
    ensures { (at_end l image.now result (compared l key) ≡ lookup l image.now key) × FromRoot l image.now result }
{
    start?;
    let sought = page::compared(l, key);
    if leads_to(last, sought) {
        return last;
    }
    let p = root_link(image, l);
    let level = stated_level(image, l, p.offset);
    way_from(image, l, level, p, sought, 0)
}

// What a leaf entry lists, told by its numbers.
pub trait TreeEntry {
    ghost use Rattle.tree.specs.declared.Fields.{Fields};

    ghost of: { Fields → Self };

    fn of(fields: Fields) -> Self
        ensures { result ≡ of fields };
}

impl TreeEntry for Node {
    ghost of = { node_in };

    fn of(fields: Fields) -> Node {
        Node {
            node: fields.first,
            block: fields.second,
            subnode: fields.third,
            parent: fields.fourth,
        }
    }
}

impl TreeEntry for Listed {
    ghost of = { listed_in };

    fn of(fields: Fields) -> Listed {
        Listed {
            block: fields.first,
            offset: fields.second,
            size: fields.third,
            references: fields.fourth,
        }
    }
}

fn found_as<T: TreeEntry>(found: Result<Found<Fields>, Refusal>) -> Result<Found<T>, Refusal>
    ensures { result ≡ found_as T.of found }
{
    match found? {
        Found::Entry(fields, pages) => Ok(Found::Entry(T::of(fields), pages)),
        Found::Absent(pages) => Ok(Found::Absent(pages)),
    }
}

// What is listed under a key, at the end of the key's way.
pub fn at<T: TreeEntry>(image: &[u8], l: Layout, way: Way, key: u64) -> Result<Found<T>, Refusal>
    requires { FairLayout l × FromRoot l image.now way × (at_end l image.now way (compared l key) ≡ lookup l image.now key) }
    ensures { result ≡ found_as T.of (shown l (lookup l image.now key)) }
{
    found_as(end_of(image, l, way, page::compared(l, key)))
}

// The lookup of a key in an image whose header is accepted, for a call that looks up many.
pub fn find_in<T: TreeEntry>(image: &[u8], l: Layout, key: u64) -> Result<Found<T>, Refusal>
    requires { FairLayout l × (header_fits image.now ≡ Ok tt) }
    ensures { result ≡ found_as T.of (shown l (lookup l image.now key)) }
{
    let start = check_root(image, l);
    let way = way_to(image, l, start, Ok(Found::Absent(0)), key);
    at(image, l, way, key)
}

// The lookup of a key.
pub fn find<T: TreeEntry>(image: &[u8], l: Layout, key: u64) -> Result<Found<T>, Refusal>
    requires { FairLayout l }
    ensures { result ≡ found_as T.of (shown l (lookup l image.now key)) }
{
    header::check_header(image)?;
    find_in(image, l, key)
}

// The first entry from a key on.
pub fn next<T: TreeEntry>(image: &[u8], l: Layout, from: u64) -> Result<Found<T>, Refusal>
    requires { FairLayout l }
    ensures { result ≡ found_as T.of (shown l (next l image.now from)) }
{
    header::check_header(image)?;
    let p = root_link(image, l);
    let level = stated_level(image, l, p.offset);
    found_as(seek(image, l, level, p, page::as_given(l, from), 0))
}
