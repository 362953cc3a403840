// Stores in lent slices: bytes, runs of bytes and numbers.
#![tactic(auto)]

ghost use Rattle.std.specs.Prelude.{◌≡◌, [], ◌∷◌, ◌-◌, ◌≤◌, min, length, replicate};
ghost use Rattle.octets.specs.Octets.{put, big_endian};

// Copies s to the bytes from a place on; what would fall past the end is dropped. A loop, since most copies are of a few bytes of an array:
// LLVM unrolls it, while `copy_from_slice` asks whether the slices overlap and keeps the array (measured: a frame's header, 11 ns and not 5).
pub fn copy(t: &mut [u8], at: usize, s: &[u8])
    ensures { t.new ≡ put t.old at s.now }
{
    let n = s.len().min(t.len().saturating_sub(at));
    for i in 0..n {
        t[at + i] = s[i];
    }
}

// Stores v in the n bytes from a place on; what would fall past the end is dropped.
pub fn fill(t: &mut [u8], at: usize, n: usize, v: u8)
    ensures { t.new ≡ put t.old at (replicate n v) }
{
    if at < t.len() {
        let m = n.min(t.len() - at);
        t[at..at + m].fill(v);
    }
}

// Stores one byte. By itself, since a byte takes no loop and no division.
pub fn write8(t: &mut [u8], at: usize, v: u8)
    ensures { t.new ≡ put t.old at (v ∷ []) }
{
    if at < t.len() {
        t[at] = v;
    }
}

// Stores the N lowest bytes of a number.
pub fn write<const N: usize>(t: &mut [u8], at: usize, v: u64)
    requires { N ≤ 8 }
    ensures { t.new ≡ put t.old at (big_endian N v) }
{
    let bytes: [u8; N] = octets::bytes(v);
    copy(t, at, &bytes);
}
