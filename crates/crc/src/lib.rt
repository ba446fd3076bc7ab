// The checksum of headers, pages and blocks, eight bytes at a time, by the eight tables of 003, 5.3.
#![tactic(auto)]

ghost use Rattle.std.specs.Prelude.{◌≡◌, ◌+◌, ◌*◌, ◌<◌, length};
ghost use Rattle.std.specs.List.{fold};
ghost use Rattle.remainder.specs.Remainder.{bits};
ghost use Rattle.crc.specs.Checksum.{checksum as checksum_of, checksum_from};

// What is left of eight bytes, in two halves, when 64 bits have fallen out. The upper half comes first,
// since it does not wait for the sum, which is added to the lower one.
fn after_eight(low: u32, high: u32) -> u32
    ensures { result ≡ bits 64 (low + 4294967296 * high) }
{
    let [e, f, g, h] = high.to_le_bytes();
    let upper = tables48::offset56(e)
        ^ tables48::offset48(f)
        ^ tables32::offset40(g)
        ^ tables32::offset32(h);
    let [a, b, c, d] = low.to_le_bytes();
    tables80::offset88(a)
        ^ tables80::offset80(b)
        ^ tables64::offset72(c)
        ^ tables64::offset64(d)
        ^ upper
}

// The checksum, taken on over eight bytes.
fn eight_on(sum: u32, eight: &[u8; 8]) -> u32
    ensures { result ≡ checksum_from sum eight.now }
{
    after_eight(sum ^ le::field4(eight, 0), le::field4(eight, 4))
}

fn eights_on(start: u32, eights: &[[u8; 8]]) -> u32
    ensures { result ≡ fold checksum_from start eights.now }
{
    eights.iter().fold(start, |sum, eight| eight_on(sum, eight))
}

// The checksum, taken on over fewer than eight bytes. They are moved to the upper end of eight: the
// zeros below them leave nothing, and what of the sum lies above them is added as it is.
fn rest_on(sum: u32, bytes: &[u8]) -> u32
    requires { length bytes.now < 8 }
    ensures { result ≡ checksum_from sum bytes.now }
{
    let n = bytes.len();
    if n == 0 {
        return sum;
    }
    let x = u64::from(sum) ^ le::field_of(bytes, 0, n);
    let above = u64::from(sum) >> (8 * n);
    let moved = x << (64 - 8 * n);
    (above as u32) ^ after_eight((moved % 4294967296) as u32, (moved / 4294967296) as u32)
}

// The checksum `start`, taken on over the bytes.
pub fn checksum_from(start: u32, bytes: &[u8]) -> u32
    ensures { result ≡ checksum_from start bytes.now }
{
    let (eights, rest) = bytes.as_chunks::<8>();
    rest_on(eights_on(start, eights), rest)
}

#[tactic(auto, unfolding(crate::specs::Checksum::checksum))]
pub fn checksum(bytes: &[u8]) -> u32
    ensures { result ≡ checksum_of bytes.now }
{
    checksum_from(0, bytes)
}
