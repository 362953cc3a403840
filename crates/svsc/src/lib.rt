// What the codec's reader and writers share. The messages are definitions, in specs/Messages.antt, and their laws are in proofs/.
#![tactic(auto)]

ghost use Rattle.std.specs.Prelude.{◌≡◌};
ghost use Rattle.svsc.specs.Writing.{as_written, number_of};

// Why nothing was written: bytes that are no message, or a field outside its range; or else a buffer too short.
#[derive(Clone, Copy)]
pub enum Refused {
    Malformed,
    NoRoom,
}

impl Refused {
    fn number(self) -> u32
        ensures { result ≡ number_of self }
    {
        match self {
            Refused::Malformed => 6,
            Refused::NoRoom => 5,
        }
    }
}

// What a writer did, for C: 0 with the bytes written, 5 or 6.
#[repr(C)]
#[derive(Clone, Copy)]
pub struct Written {
    pub number: u32,
    pub length: usize,
}

impl From<Result<usize, Refused>> for Written {
    ghost from_gives = { λ r w. w ≡ as_written r };

    fn from(written: Result<usize, Refused>) -> Written {
        match written {
            Ok(length) => Written { number: 0, length },
            Err(refused) => Written {
                number: refused.number(),
                length: 0,
            },
        }
    }
}

// The fixed parts of the version text.
pub const VERSION_NAME: [u8; 5] = *b"SVSC ";

pub const VERSION_POINT: [u8; 1] = *b".";

// Lengths of fields and messages.
pub const COOKIE: usize = 24;

pub const KEY: usize = 16;

pub const LONGEST: usize = 65534;
