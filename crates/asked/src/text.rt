// Bytes in lines of output, and the front of a buffer.
ghost use Rattle.std.specs.Prelude.{◌≡◌, take};

use std::fmt;

// How many bytes there are, and their checksum.
#[derive(Clone, Copy)]
pub struct Summed<'a>(pub &'a [u8]);

impl fmt::Display for Summed<'_> {
    fn fmt<W: fmt::Write>(&self, f: &mut fmt::Formatter<W>) -> fmt::Result {
        let Summed(bytes) = *self;
        let sum = pst::checksum(bytes);
        write!(f, "{} bytes, checksum {sum:08x}", bytes.len())
    }
}

// So many bytes of the buffer as a call answers, and at most all.
pub fn front(size: u64, buffer: &[u8]) -> &[u8]
    ensures { result.now ≡ take size buffer.now }
{
    &buffer[..buffer.len().min(size as usize)]
}
