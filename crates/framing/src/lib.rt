// Frames on a stream (02, Item 9): definitions and laws, and the numbers that the code has in common, which is in the crates frame_headers,
// frame_reader and frame_writer.
#![tactic(auto)]

// The longest message of a frame, which is what a reader's buffer must hold.
pub const MESSAGE_LIMIT: usize = 65534;
// Bytes of a frame before its message.
pub const HEADER_BYTES: usize = 3;
// The type of a frame on TCP.
pub const FRAME_TYPE: u8 = 1;
