// Reads the images of data/, each built by the second program, and says every answer: one line for a call.
#![tactic(auto)]

use std::io;
use std::rt::Files;

// Each method, depth and height of a property tree. In 06 two index keys of the block tree differ in
// bit 0 alone, which is 11.
const VALID_IMAGES: [&str; 9] = [
    "01-empty.img",
    "02-none-level-0.img",
    "03-permute-level-0.img",
    "04-cyclic-level-0.img",
    "05-cyclic-level-1.img",
    "06-permute-level-2.img",
    "07-none-level-3.img",
    "08-cyclic-level-5.img",
    "09-permute-level-7.img",
];

// Refusals 1 to 5; in 13 the version is one of the 32-bit edition, and the header has no sentinel where that
// edition has it, which is 5.
const HEADER_IMAGES: [&str; 8] = [
    "10-refusal-1-short.img",
    "11-refusal-2-magic.img",
    "12-refusal-2-clientmagic.img",
    "13-refusal-3-version.img",
    "14-refusal-4-partialsum.img",
    "15-refusal-4-fullsum.img",
    "16-refusal-5-sentinel.img",
    "17-refusal-5-method.img",
];

// Refusals 6 to 11; in 27 a key lies outside the page's range, which is 21.
const PAGE_IMAGES: [&str; 10] = [
    "18-refusal-6-rootoffset.img",
    "19-refusal-6-childoffset.img",
    "20-refusal-7-pagekind.img",
    "21-refusal-8-pagenumber.img",
    "22-refusal-8-pagesignature.img",
    "23-refusal-9-pagebyte.img",
    "24-refusal-10-pagecount.img",
    "25-refusal-10-pagelevel.img",
    "26-refusal-11-keyequal.img",
    "27-refusal-11-keylow.img",
];

// Refusals 13 to 20; in 28 a data tree names a child with bit 0 that is listed without it.
const DATA_IMAGES: [&str; 10] = [
    "28-refusal-12-treechild.img",
    "29-refusal-13-listedsize.img",
    "30-refusal-14-trailernumber.img",
    "31-refusal-15-blockbyte.img",
    "32-refusal-16-treesum.img",
    "33-refusal-16-treecount.img",
    "34-refusal-17-buffer.img",
    "35-refusal-18-itemoffset.img",
    "36-refusal-19-recordvalue.img",
    "37-refusal-20-recordkey.img",
];

// Request 1/13: bit 0 of a block number, on one side and not on the other.
const BIT_ZERO_IMAGES: [&str; 13] = [
    "38-bit0-ticket.img",
    "39-bit0-twins.img",
    "40-bit0-tree.img",
    "41-bit0-none.img",
    "42-bit0-permute.img",
    "43-bit0-cyclic.img",
    "44-bit0-data-one.img",
    "45-bit0-data-one-alone.img",
    "46-bit0-index.img",
    "47-bit0-range-end.img",
    "48-bit0-trailers.img",
    "49-bit0-highest.img",
    "50-bit0-page-number.img",
];

// Request 2/13: keys out of order, 11, and outside the page's range, 21.
const KEY_IMAGES: [&str; 8] = [
    "51-keys-shuffled.img",
    "52-keys-equal.img",
    "53-keys-exchanged.img",
    "54-keys-unsplit.img",
    "55-keys-range-first.img",
    "56-keys-order-first.img",
    "57-keys-below.img",
    "58-keys-index-last.img",
];

// Request 3/13: a list of nodes that meets found and refused ones, and one that lies in several leaves.
const LIST_IMAGES: [&str; 2] = ["59-list-mixed.img", "60-list-level-3.img"];

// Request 6/13: the file ends where the header says, and pages and blocks behind that do not count.
const END_IMAGES: [&str; 10] = [
    "61-end-zero.img",
    "62-end-too-high.img",
    "63-end-hanging-on.img",
    "64-end-root-behind.img",
    "65-end-page-behind.img",
    "66-end-page-over.img",
    "67-end-page-at.img",
    "68-end-block-behind.img",
    "69-end-block-over.img",
    "70-end-block-at.img",
];

// Request 7/13, the 32-bit edition: each method, and trees of several levels.
const OLDER_IMAGES: [&str; 6] = [
    "71-bits32-empty.img",
    "72-bits32-none-level-0.img",
    "73-bits32-permute-level-1.img",
    "74-bits32-cyclic-level-2.img",
    "75-bits32-permute-level-4.img",
    "76-bits32-cyclic-level-7.img",
];

// Its refusals 3 to 5.
const OLDER_HEADER_IMAGES: [&str; 4] = [
    "77-bits32-refusal-3-version.img",
    "78-bits32-refusal-4-partialsum.img",
    "79-bits32-refusal-5-sentinel.img",
    "80-bits32-refusal-5-method.img",
];

// Its refusals 6 to 11; in 83 the pages stand under a header of the 64-bit edition.
const OLDER_PAGE_IMAGES: [&str; 9] = [
    "81-bits32-refusal-6-childoffset.img",
    "82-bits32-refusal-7-pagekind.img",
    "83-bits32-refusal-7-otheredition.img",
    "84-bits32-refusal-8-pagenumber.img",
    "85-bits32-refusal-8-pagesignature.img",
    "86-bits32-refusal-9-otherpagesum.img",
    "87-bits32-refusal-10-entriesover.img",
    "88-bits32-refusal-10-pagelevel.img",
    "89-bits32-refusal-11-keyequal.img",
];

// Its refusals 12 to 16, and 21.
const OLDER_DATA_IMAGES: [&str; 6] = [
    "90-bits32-refusal-12-treechild.img",
    "91-bits32-refusal-13-listedsize.img",
    "92-bits32-refusal-14-trailerexchanged.img",
    "93-bits32-refusal-15-blockbyte.img",
    "94-bits32-refusal-16-treesum.img",
    "95-bits32-refusal-21-keystale.img",
];

// Requests 1/13 and 6/13 in the 32-bit edition.
const OLDER_REQUEST_IMAGES: [&str; 6] = [
    "96-bits32-bit0-ticket.img",
    "97-bits32-bit0-tree.img",
    "98-bits32-bit0-trailers.img",
    "99-bits32-end-too-high.img",
    "100-bits32-end-page-over.img",
    "101-bits32-end-block-at.img",
];

// The most bytes of a block and of a heap, the most children of a data tree, and one more; then the most
// entries of a page, and the highest number of a block.
const OLDER_BOUND_IMAGES: [&str; 8] = [
    "102-bits32-size-8180.img",
    "103-bits32-size-8181.img",
    "104-bits32-heap-8180.img",
    "105-bits32-tree-2043.img",
    "106-bits32-tree-2044.img",
    "107-bits32-tree-says-2044.img",
    "108-bits32-full-pages.img",
    "109-bits32-highest-listed.img",
];

// Beside them the 64-bit edition: one byte more than a block has at most, and pages under a header of the
// 32-bit edition.
const NEWER_BOUND_IMAGES: [&str; 2] = [
    "110-bits64-size-8177.img",
    "111-bits64-refusal-7-otheredition.img",
];

const IMAGES: [&[&str]; 15] = [
    &VALID_IMAGES,
    &HEADER_IMAGES,
    &PAGE_IMAGES,
    &DATA_IMAGES,
    &BIT_ZERO_IMAGES,
    &KEY_IMAGES,
    &LIST_IMAGES,
    &END_IMAGES,
    &OLDER_IMAGES,
    &OLDER_HEADER_IMAGES,
    &OLDER_PAGE_IMAGES,
    &OLDER_DATA_IMAGES,
    &OLDER_REQUEST_IMAGES,
    &OLDER_BOUND_IMAGES,
    &NEWER_BOUND_IMAGES,
];

// The call stands once, so that the buffer for an image stands on the stack once.
fn main(rt: HostRuntime) -> io::Result<()> {
    for names in IMAGES {
        for name in names {
            asked::image_lines(&rt, name)?;
        }
    }
    Ok(())
}
