// Messages written as frames.
#![tactic(auto)]

ghost use Rattle.std.specs.Prelude.{◌≡◌, ◌∷◌, [], ◌++◌, suc, ◌≤◌};
ghost use Rattle.octets.specs.Octets.{big_endian};
ghost use Rattle.framing.specs.Frames.{frame_type, message_limit};
ghost use Rattle.framing.specs.Writing.{write_frame};
ghost use Rattle.frame_writer.specs.Answers.{written};

// What the writer answers: the number, and how many bytes stand at the buffer's start.
#[repr(C)]
#[derive(Clone, Copy)]
pub struct FrameWritten {
    pub number: u32,
    pub length: u32,
}

// What stands before a message of this length.
fn header(length: usize) -> [u8; framing::HEADER_BYTES]
    requires { length ≤ message_limit }
    ensures { result ≡ big_endian 2 (suc length) ++ (frame_type ∷ []) }
{
    let size = length + 1;
    [
        (size / 256 % 256) as u8,
        (size % 256) as u8,
        framing::FRAME_TYPE,
    ]
}

// Writes a message's frame to the buffer's start.
#[unsafe(no_mangle)]
pub extern "C" fn svsc_frame_write(frame: &mut [u8], message: &[u8]) -> FrameWritten
    ensures { written result frame.new ≡ write_frame message.now frame.old }
{
    if framing::MESSAGE_LIMIT < message.len() {
        return FrameWritten {
            number: 6,
            length: 0,
        };
    }
    let length = framing::HEADER_BYTES + message.len();
    if frame.len() < length {
        return FrameWritten {
            number: 5,
            length: 0,
        };
    }
    let start = header(message.len());
    octet_stores::copy(frame, 0, &start);
    octet_copies::copy_at_once(frame, framing::HEADER_BYTES, message);
    FrameWritten {
        number: 0,
        length: length as u32,
    }
}
