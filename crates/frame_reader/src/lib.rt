// Frames read from a stream, chunk by chunk.
#![tactic(auto)]

ghost use Rattle.std.specs.Prelude.{◌≡◌};
ghost use Rattle.framing.specs.Reading.{state, step};
ghost use Rattle.frame_reader.specs.Answers.{step_of};
ghost use Rattle.frame_reader.specs.Bodies.{BodyAhead, read_body};

use frame_headers::State;

// At a stream's start, and after each message.
const FRESH: State = State { taken: 0, size: 0 };

// No step makes it but a refusal, and no step takes it: so a refused stream stays refused.
const REFUSED: State = State { taken: 0, size: 1 };

// What a step answers: the number, whether a message stands in the buffer, bytes of the chunk taken, the message's length, and the state.
#[repr(C)]
#[derive(Clone, Copy)]
pub struct FrameStep {
    pub number: u32,
    pub complete: u32,
    pub used: u64,
    pub length: u32,
    pub taken: u32,
    pub size: u32,
}

// A step without a message.
fn answer(number: u32, used: usize, state: State) -> FrameStep
    ensures { result ≡ record { number = number; complete = 0; used = used; length = 0; taken = state.taken; size = state.size } }
{
    FrameStep {
        number,
        complete: 0,
        used: used as u64,
        length: 0,
        taken: state.taken,
        size: state.size,
    }
}

// Takes what is there of the message, from a place of the chunk on.
fn read_body(state: State, used: usize, message: &mut [u8], chunk: &[u8]) -> FrameStep
    requires { BodyAhead state.taken state.size used message.old chunk.now }
    ensures { step_of result message.new ≡ read_body state.taken state.size used message.old chunk.now }
{
    let left = (state.size + 2 - state.taken) as usize;
    let at = state.taken as usize - framing::HEADER_BYTES;
    let there = chunk.len() - used;
    if there < left {
        octet_copies::copy_at_once(message, at, &chunk[used..]);
        let so_far = State {
            taken: state.taken + there as u32,
            ..state
        };
        return answer(0, chunk.len(), so_far);
    }
    let end = used + left;
    octet_copies::copy_at_once(message, at, &chunk[used..end]);
    FrameStep {
        complete: 1,
        length: state.size - 1,
        ..answer(0, end, FRESH)
    }
}

// Reads on in a stream, up to the end of one frame at most.
#[unsafe(no_mangle)]
pub extern "C" fn svsc_frame_read(
    taken: u32,
    size: u32,
    message: &mut [u8],
    chunk: &[u8],
) -> FrameStep
    ensures { step_of result message.new ≡ step (state taken size) message.old chunk.now }
{
    let state = State { taken, size };
    let is_short = message.len() < framing::MESSAGE_LIMIT;
    if is_short {
        return answer(5, 0, state);
    }
    if !state.is_valid() {
        return answer(6, 0, REFUSED);
    }
    match state.read_header(chunk) {
        Err(bad) => answer(6, bad.used, REFUSED),
        Ok(header) if header.state.taken < framing::HEADER_BYTES as u32 => {
            answer(0, header.used, header.state)
        }
        Ok(header) => read_body(header.state, header.used, message, chunk),
    }
}
