// Big-endian numbers in byte slices (01, 1.1): read, stored, and stretches of bytes copied or cleared.
#![tactic(auto, unfolding(definitions::specs::Bytes::byte, definitions::specs::Bytes::be16, definitions::specs::Bytes::be32, crate::specs::Stores::store16, crate::specs::Stores::store32))]

ghost use Rattle.std.specs.Prelude.{◌≡◌, ◌++◌, ◌+◌, ◌-◌, ◌≤◌, ◌<◌, length, take, drop, replicate};
ghost use Rattle.std.proofs.Math.Seq.{paste};
ghost use Rattle.definitions.specs.Bytes.{byte, be16, be32};
ghost use Rattle.numbers.specs.Stores.{store16, store32};

pub fn get8(s: &[u8], at: usize) -> u8
    requires { at < length s.now }
    ensures { result ≡ byte s.now at }
{
    s[at]
}

pub fn get16(s: &[u8], at: usize) -> u16
    requires { at + 2 ≤ length s.now }
    ensures { result ≡ be16 s.now at }
{
    u16::from_be_bytes([s[at], s[at + 1]])
}

pub fn get32(s: &[u8], at: usize) -> u32
    requires { at + 4 ≤ length s.now }
    ensures { result ≡ be32 s.now at }
{
    u32::from_be_bytes([s[at], s[at + 1], s[at + 2], s[at + 3]])
}

pub fn set16(s: &mut [u8], at: usize, v: u16)
    requires { at + 2 ≤ length s.old }
    ensures { s.new ≡ store16 s.old at v }
{
    let [high, low] = v.to_be_bytes();
    s[at] = high;
    s[at + 1] = low;
}

pub fn set32(s: &mut [u8], at: usize, v: u32)
    requires { at + 4 ≤ length s.old }
    ensures { s.new ≡ store32 s.old at v }
{
    let [a, b, c, d] = v.to_be_bytes();
    s[at] = a;
    s[at + 1] = b;
    s[at + 2] = c;
    s[at + 3] = d;
}

// Every byte from `at` on becomes zero.
pub fn clear(s: &mut [u8], at: usize)
    requires { at ≤ length s.old }
    ensures { s.new ≡ take at s.old ++ replicate (length s.old - at) 0 }
{
    s[at..].fill(0);
}

// The n bytes of `from` at a, laid over those of `to` at b.
pub fn copy(from: &[u8], a: usize, n: usize, to: &mut [u8], b: usize)
    requires { (a + n ≤ length from.now) × (b + n ≤ length to.old) }
    ensures { to.new ≡ paste to.old b (drop a from.now) n }
{
    // A byte a turn: by `copy_from_slice` the library for C would call `memmove` too.
    for i in 0..n {
        to[b + i] = from[a + i];
    }
}
