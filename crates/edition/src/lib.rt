// The two editions of the format, as values: where each has its fields, and how large they are.
#![tactic(auto)]

ghost use Rattle.std.specs.Prelude.{◌≡◌};
ghost use Rattle.edition.specs.Editions.{nbt64, bbt64, trailer64, places64, root64, edition64, nbt32, bbt32, trailer32, places32, root32, edition32};

// The bytes that hold a number.
#[derive(Clone, Copy)]
pub struct Column {
    pub place: usize,
    pub width: usize,
}

// Where the header has what is not the same in all editions.
#[derive(Clone, Copy)]
pub struct HeaderPlaces {
    // whether a second checksum, of the whole header, stands at 524
    pub whole: bool,
    // the sentinel, behind which the encoding method stands
    pub sentinel: usize,
    // the end-of-file number
    pub end: Column,
}

// What differs between the two trees, and between editions of the format.
#[derive(Clone, Copy)]
pub struct Layout {
    // the place of the root reference in the header
    pub root: usize,
    // the width of a page number and of an offset
    pub word: usize,
    // how many bytes of an entry's key, and of a key sought, are compared; and whether bit 0 of a
    // key is reserved, and read as zero
    pub key: usize,
    pub sought: usize,
    pub reserved: bool,
    // the kind byte
    pub kind: u8,
    // places in the page: count, room, entry size and level; the kind bytes, before which the
    // checksum ends; the checksum; the page number
    pub counts: usize,
    pub trailer: usize,
    pub checksum: usize,
    pub number: usize,
    // entry size and most room, in leaf and in index pages
    pub leafsize: usize,
    pub leafroom: usize,
    pub indexsize: usize,
    pub indexroom: usize,
    // a leaf entry's numbers, without its padding
    pub first: Column,
    pub second: Column,
    pub third: Column,
    pub fourth: Column,
}

// Where a block's trailer has its fields, and how much data a block has at most.
#[derive(Clone, Copy)]
pub struct Trailer {
    pub length: u64,
    pub checksum: usize,
    pub number: usize,
    pub word: usize,
    pub most: u64,
}

// The width of a block number in a data tree's root block, and how many it has at most.
#[derive(Clone, Copy)]
pub struct RootBlock {
    pub word: usize,
    pub most: usize,
}

#[derive(Clone, Copy)]
pub struct Edition {
    // 64 or 32
    pub bits: u64,
    pub header: HeaderPlaces,
    pub nodes: Layout,
    pub blocks: Layout,
    pub trailer: Trailer,
    pub tree: RootBlock,
}

// The node tree of the 64-bit edition.
#[tactic(auto, unfolding(crate::specs::Editions::nbt64))]
pub fn nodes_64() -> Layout
    ensures { result ≡ nbt64 }
{
    Layout {
        root: 216,
        word: 8,
        key: 4,
        sought: 4,
        reserved: false,
        kind: 0x81,
        counts: 488,
        trailer: 496,
        checksum: 500,
        number: 504,
        leafsize: 32,
        leafroom: 15,
        indexsize: 24,
        indexroom: 20,
        first: Column { place: 0, width: 4 },
        second: Column { place: 8, width: 8 },
        third: Column {
            place: 16,
            width: 8,
        },
        fourth: Column {
            place: 24,
            width: 4,
        },
    }
}

// The block tree of the 64-bit edition.
#[tactic(auto, unfolding(crate::specs::Editions::bbt64))]
pub fn blocks_64() -> Layout
    ensures { result ≡ bbt64 }
{
    Layout {
        root: 232,
        word: 8,
        key: 8,
        sought: 8,
        reserved: true,
        kind: 0x80,
        counts: 488,
        trailer: 496,
        checksum: 500,
        number: 504,
        leafsize: 24,
        leafroom: 20,
        indexsize: 24,
        indexroom: 20,
        first: Column { place: 0, width: 8 },
        second: Column { place: 8, width: 8 },
        third: Column {
            place: 16,
            width: 2,
        },
        fourth: Column {
            place: 18,
            width: 2,
        },
    }
}

#[tactic(auto, unfolding(crate::specs::Editions::trailer64))]
pub fn trailer_64() -> Trailer
    ensures { result ≡ trailer64 }
{
    Trailer {
        length: 16,
        checksum: 4,
        number: 8,
        word: 8,
        most: 8176,
    }
}

#[tactic(auto, unfolding(crate::specs::Editions::places64))]
pub fn places_64() -> HeaderPlaces
    ensures { result ≡ places64 }
{
    HeaderPlaces {
        whole: true,
        sentinel: 512,
        end: Column {
            place: 184,
            width: 8,
        },
    }
}

#[tactic(auto, unfolding(crate::specs::Editions::root64))]
pub fn root_64() -> RootBlock
    ensures { result ≡ root64 }
{
    RootBlock {
        word: 8,
        most: 1021,
    }
}

// The 64-bit edition.
#[tactic(auto, unfolding(crate::specs::Editions::edition64))]
pub fn edition_64() -> Edition
    ensures { result ≡ edition64 }
{
    Edition {
        bits: 64,
        header: places_64(),
        nodes: nodes_64(),
        blocks: blocks_64(),
        trailer: trailer_64(),
        tree: root_64(),
    }
}

// The node tree of the 32-bit edition.
#[tactic(auto, unfolding(crate::specs::Editions::nbt32))]
pub fn nodes_32() -> Layout
    ensures { result ≡ nbt32 }
{
    Layout {
        root: 184,
        word: 4,
        key: 4,
        sought: 4,
        reserved: false,
        kind: 0x81,
        counts: 496,
        trailer: 500,
        checksum: 508,
        number: 504,
        leafsize: 16,
        leafroom: 31,
        indexsize: 12,
        indexroom: 41,
        first: Column { place: 0, width: 4 },
        second: Column { place: 4, width: 4 },
        third: Column { place: 8, width: 4 },
        fourth: Column {
            place: 12,
            width: 4,
        },
    }
}

// The block tree of the 32-bit edition.
#[tactic(auto, unfolding(crate::specs::Editions::bbt32))]
pub fn blocks_32() -> Layout
    ensures { result ≡ bbt32 }
{
    Layout {
        root: 192,
        word: 4,
        key: 4,
        sought: 8,
        reserved: true,
        kind: 0x80,
        counts: 496,
        trailer: 500,
        checksum: 508,
        number: 504,
        leafsize: 12,
        leafroom: 41,
        indexsize: 12,
        indexroom: 41,
        first: Column { place: 0, width: 4 },
        second: Column { place: 4, width: 4 },
        third: Column { place: 8, width: 2 },
        fourth: Column {
            place: 10,
            width: 2,
        },
    }
}

#[tactic(auto, unfolding(crate::specs::Editions::trailer32))]
pub fn trailer_32() -> Trailer
    ensures { result ≡ trailer32 }
{
    Trailer {
        length: 12,
        checksum: 8,
        number: 4,
        word: 4,
        most: 8180,
    }
}

#[tactic(auto, unfolding(crate::specs::Editions::places32))]
pub fn places_32() -> HeaderPlaces
    ensures { result ≡ places32 }
{
    HeaderPlaces {
        whole: false,
        sentinel: 460,
        end: Column {
            place: 168,
            width: 4,
        },
    }
}

#[tactic(auto, unfolding(crate::specs::Editions::root32))]
pub fn root_32() -> RootBlock
    ensures { result ≡ root32 }
{
    RootBlock {
        word: 4,
        most: 2043,
    }
}

// The 32-bit edition.
#[tactic(auto, unfolding(crate::specs::Editions::edition32))]
pub fn edition_32() -> Edition
    ensures { result ≡ edition32 }
{
    Edition {
        bits: 32,
        header: places_32(),
        nodes: nodes_32(),
        blocks: blocks_32(),
        trailer: trailer_32(),
        tree: root_32(),
    }
}
