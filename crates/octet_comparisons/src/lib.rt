// Comparisons of bytes in lent slices, and of their number.
#![tactic(auto)]

ghost use Rattle.std.specs.Prelude.{◌≡◌, length};
ghost use Rattle.octets.specs.Octets.{part, same, is_bytes, is_short};

// Whether two slices hold the same bytes.
#[tactic(auto, using(octets::proofs::Equality::same_pointwise))]
pub fn equal(a: &[u8], b: &[u8]) -> bool
    ensures { result ≡ same a.now b.now }
{
    a == b
}

// Whether the bytes from a place on start with those of b.
pub fn equal_at(s: &[u8], at: usize, b: &[u8]) -> bool
    ensures { result ≡ same (part s.now at (length b.now)) b.now }
{
    equal(octets::part(s, at, b.len()), b)
}

// Whether a slice has n bytes.
pub fn sized(s: &[u8], n: usize) -> bool
    ensures { result ≡ is_bytes n s.now }
{
    s.len() == n
}

// Whether a slice has fewer than n bytes.
pub fn short(s: &[u8], n: usize) -> bool
    ensures { result ≡ is_short n s.now }
{
    s.len() < n
}
