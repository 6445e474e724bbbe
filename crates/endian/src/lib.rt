// Big-endian numbers in lent bytes. Reading past the end gives 0 and writing past it changes nothing.
#![tactic(auto)]

ghost use Rattle.std.specs.Prelude.{◌≡◌, ◌+◌, ◌*◌, ◌<◌, min, get_or, set, take, drop};
ghost use Rattle.endian.specs.Bytes.{be16, be32, put16, put32, stored, cleared};

// The 16-bit number of two bytes.
fn join16(high: u8, low: u8) -> u16
    ensures { result ≡ high * 256 + low }
{
    u16::from_be_bytes([high, low])
}

// The 32-bit number of two 16-bit numbers.
fn join32(high: u16, low: u16) -> u32
    ensures { result ≡ high * 65536 + low }
{
    (high as u32) * 65536 + (low as u32)
}

// The byte at `at`.
pub fn read8(bytes: &[u8], at: usize) -> u8
    ensures { result ≡ get_or bytes.now at 0 }
{
    bytes.get(at).copied().unwrap_or(0)
}

// The 16-bit number at `at`, its high byte first.
pub fn read16(bytes: &[u8], at: usize) -> u16
    ensures { result ≡ be16 bytes.now at }
{
    if bytes.len() <= at {
        return 0;
    }
    join16(bytes[at], read8(bytes, at + 1))
}

// The 32-bit number at `at`, its high byte first.
pub fn read32(bytes: &[u8], at: usize) -> u32
    ensures { result ≡ be32 bytes.now at }
{
    if bytes.len() <= at {
        return 0;
    }
    join32(read16(bytes, at), read16(bytes, at + 2))
}

// Stores a byte at `at`.
pub fn write8(bytes: &mut [u8], at: usize, v: u8)
    ensures { bytes.new ≡ set bytes.old at v }
{
    if at < bytes.len() {
        bytes[at] = v;
    }
}

// Stores a 16-bit number at `at`, its high byte first.
pub fn write16(bytes: &mut [u8], at: usize, v: u16)
    ensures { bytes.new ≡ put16 bytes.old at v }
{
    if at < bytes.len() {
        let [high, low] = v.to_be_bytes();
        bytes[at] = high;
        write8(bytes, at + 1, low);
    }
}

// Stores a 32-bit number at `at`, its high byte first.
pub fn write32(bytes: &mut [u8], at: usize, v: u32)
    ensures { bytes.new ≡ put32 bytes.old at v }
{
    if at < bytes.len() {
        write16(bytes, at, (v / 65536) as u16);
        write16(bytes, at + 2, (v % 65536) as u16);
    }
}

// The `n` bytes from `from` on, as many of them as there are.
pub fn part(bytes: &[u8], from: usize, n: usize) -> &[u8]
    ensures { result.now ≡ take n (drop from bytes.now) }
{
    let start = from.min(bytes.len());
    let end = start + n.min(bytes.len() - start);
    &bytes[start..end]
}

// Stores the bytes of `source` from `at` on, as many of them as there is room for.
pub fn store(bytes: &mut [u8], at: usize, source: &[u8])
    ensures { bytes.new ≡ stored bytes.old at source.now }
{
    let len = bytes.len();
    if at < len {
        let n = source.len().min(len - at);
        // byte by byte, for `copy_from_slice` makes the library for C need memmove from outside
        for j in 0..n {
            bytes[at + j] = source[j];
        }
    }
}

// Stores `n` zero bytes from `at` on, as many of them as there is room for.
pub fn clear(bytes: &mut [u8], at: usize, n: usize)
    ensures { bytes.new ≡ cleared bytes.old at n }
{
    let len = bytes.len();
    if at < len {
        let k = n.min(len - at);
        bytes[at..at + k].fill(0);
    }
}
