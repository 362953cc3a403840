// What the reader of the messages answers. What each case means is in specs/Reading.antt, how a caller uses it in proofs/Cases.antt.
#![tactic(auto)]

// What bytes are: a case for each form of a message, with its numbers; its fields of bytes are parts of the bytes that were read.
#[derive(Clone, Copy)]
pub enum Decoded {
    Version { major: u16, minor: u16 },
    VersionAnswer { ok: u8 },
    LeaseRequest,
    LeaseRequestWithCookie,
    LeaseRefused,
    LeaseGranted { id: u32, expiration: u64 },
    ExtensionRequest,
    ExtensionRefused,
    ExtensionGranted { expiration: u64 },
    EstablishRequest { id: u32 },
    EstablishRefused { id: u32, status: u8 },
    Established { id: u32 },
    EstablishNotification,
    SessionEnd,
    SessionEndNotification,
    DataSend,
    DataReceive,
    Keepalive,
}
