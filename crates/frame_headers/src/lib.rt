// A reader's state, and what is missing of a frame's header, read from a chunk.
#![tactic(auto)]

ghost use Rattle.std.specs.Prelude.{◌≡◌, ◌<◌, ◌≤◌};
ghost use Rattle.framing.specs.Reading.{state, is_valid};
ghost use Rattle.frame_headers.specs.Headers.{reached, behind, used, read_type, read_low, read_high, read_header};

// How many bytes of a frame were taken, and its length as far as that is known.
#[derive(Clone, Copy)]
pub struct State {
    pub taken: u32,
    pub size: u32,
}

// How many bytes of a chunk are taken as a header's, and the state behind them.
#[derive(Clone, Copy)]
pub struct Header {
    pub used: usize,
    pub state: State,
}

// A length of 0 or another type: how many bytes of the chunk are taken, with the one that shows it.
#[derive(Clone, Copy)]
pub struct BadHeader {
    pub used: usize,
}

impl State {
    // Whether the state is fresh or made by a step.
    #[tactic(auto, unfolding(framing::specs::Reading::is_valid))]
    pub fn is_valid(self) -> bool
        ensures { result ≡ is_valid (state self.taken self.size) }
    {
        if self.taken == 0 {
            return self.size == 0;
        }
        if 65536 <= self.size {
            return false;
        }
        if self.taken == 1 {
            return self.size % 256 == 0;
        }
        self.size != 0 && self.taken < self.size + 2
    }

    // What is missing of the header. Its caller knows that the state is valid.
    #[tactic(auto, unfolding(crate::specs::Headers::read_header))]
    pub fn read_header(self, chunk: &[u8]) -> Result<Header, BadHeader>
        requires { self.size < 65536 }
        ensures { result ≡ read_header self.taken self.size chunk.now }
    {
        match self.taken {
            0 => read_high(chunk),
            1 => read_low(self.size, chunk),
            2 => read_type(self.size, chunk),
            _ => so_far(0, self.taken, self.size),
        }
    }
}

// ---- the header, byte by byte

// So many bytes are taken, and this is the state.
fn so_far(used: usize, taken: u32, size: u32) -> Result<Header, BadHeader>
    ensures { result ≡ reached used taken size }
{
    Ok(Header {
        used,
        state: State { taken, size },
    })
}

// The same a byte later.
fn behind(read: Result<Header, BadHeader>) -> Result<Header, BadHeader>
    requires { used read ≤ 2 }
    ensures { result ≡ behind read }
{
    match read {
        Ok(header) => Ok(Header {
            used: 1 + header.used,
            ..header
        }),
        Err(bad) => Err(BadHeader { used: 1 + bad.used }),
    }
}

// The type, once the length is there.
#[tactic(auto, unfolding(crate::specs::Headers::read_type))]
fn read_type(size: u32, chunk: &[u8]) -> Result<Header, BadHeader>
    ensures { result ≡ read_type size chunk.now }
{
    let Some((byte, _)) = chunk.split_first() else {
        return so_far(0, 2, size);
    };
    if *byte == framing::FRAME_TYPE {
        return so_far(1, 3, size);
    }
    Err(BadHeader { used: 1 })
}

// The length's second byte, and what comes behind it.
#[tactic(auto, unfolding(crate::specs::Headers::read_low))]
fn read_low(size: u32, chunk: &[u8]) -> Result<Header, BadHeader>
    requires { size < 65536 }
    ensures { result ≡ read_low size chunk.now }
{
    let Some((low, rest)) = chunk.split_first() else {
        return so_far(0, 1, size);
    };
    let length = size + *low as u32;
    if length == 0 {
        return Err(BadHeader { used: 1 });
    }
    behind(read_type(length, rest))
}

// The length's first byte, and what comes behind it.
#[tactic(auto, unfolding(crate::specs::Headers::read_high))]
fn read_high(chunk: &[u8]) -> Result<Header, BadHeader>
    ensures { result ≡ read_high chunk.now }
{
    let Some((high, rest)) = chunk.split_first() else {
        return so_far(0, 0, 0);
    };
    behind(read_low(*high as u32 * 256, rest))
}
