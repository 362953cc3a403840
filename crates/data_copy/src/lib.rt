// The copying of sent data. It is given the data and a buffer, and no table: where it goes was decided before.
#![tactic(auto)]

ghost use Rattle.std.specs.Prelude.{◌≡◌};
ghost use Rattle.svsc.specs.Copying.{copied, copy_data};

// Copies the data behind the type that its receiver gets. Answers how many bytes that are; None, with nothing written, if they don't fit.
pub fn copy(buffer: &mut [u8], bytes: &[u8]) -> Option<usize>
    ensures { copied result buffer.new ≡ copy_data bytes.now buffer.old }
{
    if buffer.len() <= bytes.len() {
        return None;
    }
    octet_stores::write8(buffer, 0, 12);
    octet_copies::copy_pieces(buffer, 1, bytes);
    Some(1 + bytes.len())
}
