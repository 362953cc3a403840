// The one way out of every writer: a type byte and up to four parts. A field outside its range (6) comes before a buffer too short (5).
#![tactic(auto)]

ghost use Rattle.std.specs.Prelude.{◌≡◌, ◌∷◌, ◌++◌, ◌+◌, ◌≤◌, length, leb};
ghost use Rattle.octets.specs.Octets.{put};
ghost use Rattle.svsc.specs.Writing.{emit, written, as_written};

use svsc::Refused;

// Whether n bytes have room for one byte and four parts. Of 128 bits, so that no sum wraps.
fn room(n: usize, a: usize, b: usize, c: usize, d: usize) -> bool
    ensures { result ≡ leb (1 + a + b + c + d) n }
{
    1 + a as u128 + b as u128 + c as u128 + d as u128 <= n as u128
}

// A type and four parts, one behind the other. The room is there, so no sum of lengths wraps.
fn place(buffer: &mut [u8], kind: u8, a: &[u8], b: &[u8], c: &[u8], d: &[u8]) -> usize
    requires { 1 + length a.now + length b.now + length c.now + length d.now ≤ length buffer.old }
    ensures { (result ≡ 1 + length a.now + length b.now + length c.now + length d.now)
        × (buffer.new
        ≡ put buffer.old 0 (kind ∷ (a.now ++ (b.now ++ (c.now ++ d.now))))) }
{
    let at_b = 1 + a.len();
    let at_c = at_b + b.len();
    let at_d = at_c + c.len();
    let end = at_d + d.len();
    octet_stores::write8(buffer, 0, kind);
    octet_stores::copy(buffer, 1, a);
    octet_stores::copy(buffer, at_b, b);
    octet_stores::copy(buffer, at_c, c);
    octet_stores::copy(buffer, at_d, d);
    end
}

// The one way to write: a type and four parts, if the fields are in their ranges and the buffer has room.
#[tactic(auto, unfolding(svsc::specs::Writing::emit))]
pub fn put_parts(
    buffer: &mut [u8],
    fits: bool,
    kind: u8,
    a: &[u8],
    b: &[u8],
    c: &[u8],
    d: &[u8],
) -> Result<usize, Refused>
    ensures { written (as_written result) buffer.new
        ≡ emit fits (kind ∷ (a.now ++ (b.now ++ (c.now ++ d.now)))) buffer.old }
{
    if !fits {
        return Err(Refused::Malformed);
    }
    if !room(buffer.len(), a.len(), b.len(), c.len(), d.len()) {
        return Err(Refused::NoRoom);
    }
    Ok(place(buffer, kind, a, b, c, d))
}

// The same with one part.
pub fn put_part(buffer: &mut [u8], fits: bool, kind: u8, a: &[u8]) -> Result<usize, Refused>
    ensures { written (as_written result) buffer.new ≡ emit fits (kind ∷ a.now) buffer.old }
{
    put_parts(buffer, fits, kind, a, b"", b"", b"")
}
