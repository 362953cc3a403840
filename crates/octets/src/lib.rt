// Bytes in lent slices, read: numbers and parts. What stores leave is defined here too; crate octet_stores has the code.
#![tactic(auto)]

ghost use Rattle.std.specs.Prelude.{◌≡◌, ◌+◌, ◌^◌, ◌<◌, ◌≤◌, length, drop};
ghost use Rattle.octets.specs.Octets.{byte_at, part, big_endian, number_at};

// ---- reading

// The byte at a place; 0 past the end, so that a caller needs no test of the length first.
pub fn byte(s: &[u8], at: usize) -> u8
    ensures { result ≡ byte_at s.now at }
{
    s.get(at).copied().unwrap_or(0)
}

// The bytes from a place on; none past the end.
pub fn after(s: &[u8], at: usize) -> &[u8]
    ensures { result.now ≡ drop at s.now }
{
    &s[at.min(s.len())..]
}

// The n bytes from a place on; fewer where the end comes first.
#[tactic(auto, unfolding(crate::specs::Octets::part))]
pub fn part(s: &[u8], at: usize, n: usize) -> &[u8]
    ensures { result.now ≡ part s.now at n }
{
    let rest = after(s, at);
    &rest[..n.min(rest.len())]
}

// The number in up to four bytes from a place on.
fn word(s: &[u8], at: usize, n: usize) -> u32
    requires width { n ≤ 4 }
    requires within { at + n ≤ length s.now }
    ensures value { result ≡ number_at s.now at n }
    ensures below { result < 256 ^ n }
{
    let mut v = 0;
    for i in 0..n {
        v = v * 256 + s[at + i] as u32;
    }
    v
}

// The number in the N bytes from a place on. A leaf with a requires: its callers know that the bytes are there, and no answer
// would serve where they aren't. In two words of up to four bytes: with one loop over eight bytes LLVM read a partner's level and its
// time byte by byte in `crondelith_replay`, which took 1.1 to 1.5 times as long (measured).
pub fn number<const N: usize>(s: &[u8], at: usize) -> u64
    requires width { N ≤ 8 }
    requires within { at + N ≤ length s.now }
    ensures value { result ≡ number_at s.now at N }
    ensures below { result < 256 ^ N }
{
    let low = N.min(4);
    let high = N - low;
    word(s, at, high) as u64 * 4294967296 + word(s, at + high, low) as u64
}

// ---- writing

// The N lowest bytes of a number.
pub fn bytes<const N: usize>(v: u64) -> [u8; N]
    ensures { result ≡ big_endian N v }
{
    let mut held = [0; N];
    let mut rest = v;
    for i in 0..N {
        held[N - 1 - i] = (rest % 256) as u8;
        rest /= 256;
    }
    held
}
