// Copies of many bytes between lent slices.
#![tactic(auto)]

ghost use Rattle.std.specs.Prelude.{◌≡◌, ◌+◌, ◌≤◌, length};
ghost use Rattle.octets.specs.Octets.{put};

// Pieces have so many bytes. Larger ones are hardly faster, and from some size on C libraries copy by an instruction that can be many
// times slower where both slices lie badly in memory.
const PIECE: usize = 2048;

// Copies bytes at once. A leaf with a requires, as copy_pieces: its callers have compared the lengths, so nothing but the copy is left.
pub fn copy_at_once(buffer: &mut [u8], at: usize, bytes: &[u8])
    requires { at + length bytes.now ≤ length buffer.old }
    ensures { buffer.new ≡ put buffer.old at bytes.now }
{
    buffer[at..at + bytes.len()].copy_from_slice(bytes);
}

// The same in pieces.
pub fn copy_pieces(buffer: &mut [u8], at: usize, bytes: &[u8])
    requires { at + length bytes.now ≤ length buffer.old }
    ensures { buffer.new ≡ put buffer.old at bytes.now }
{
    let mut end = at;
    for piece in bytes.chunks(PIECE) {
        copy_at_once(buffer, end, piece);
        end += piece.len();
    }
}
