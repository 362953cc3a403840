// A message as numbers.
ghost use Rattle.std.specs.Prelude.{◌≡◌, List, ℕ};
ghost use Rattle.std.proofs.Math.Option.{some};
ghost use Rattle.svsc.specs.Messages.{decode};
ghost use Rattle.svsc_decoded.specs.Reading.{message_of};
ghost use Rattle.svsc_boundary.specs.Boundary.{form, numbers};

use svsc_decoded::Decoded;

// A message for C: numbers, 0 where the message hasn't got one; `number` is 0, or 6 where the bytes are no message.
#[repr(C)]
#[derive(Clone, Copy)]
pub struct Numbers {
    pub number: u32,
    pub kind: u32,
    pub flag: u32,
    pub major: u32,
    pub minor: u32,
    pub id: u32,
    pub expiration: u64,
}

const ZEROS: Numbers = Numbers {
    number: 0,
    kind: 0,
    flag: 0,
    major: 0,
    minor: 0,
    id: 0,
    expiration: 0,
};

fn form(kind: u32, flag: u32, id: u32, expiration: u64) -> Numbers
    ensures { result ≡ form kind flag id expiration }
{
    Numbers {
        kind,
        flag,
        id,
        expiration,
        ..ZEROS
    }
}

// The type and what else a message has of numbers, whatever its fields of bytes.
fn numbers_of(d: Decoded) -> Numbers
    ensures { (m : List ℕ) → result ≡ numbers (some (message_of d m)) }
{
    match d {
        Decoded::Version { major, minor } => Numbers {
            major: u32::from(major),
            minor: u32::from(minor),
            ..ZEROS
        },
        Decoded::VersionAnswer { ok } => form(1, u32::from(ok), 0, 0),
        Decoded::LeaseRequest => form(2, 0, 0, 0),
        Decoded::LeaseRequestWithCookie => form(2, 1, 0, 0),
        Decoded::LeaseRefused => form(3, 0, 0, 0),
        Decoded::LeaseGranted { id, expiration } => form(3, 1, id, expiration),
        Decoded::ExtensionRequest => form(4, 0, 0, 0),
        Decoded::ExtensionRefused => form(5, 0, 0, 0),
        Decoded::ExtensionGranted { expiration } => form(5, 1, 0, expiration),
        Decoded::EstablishRequest { id } => form(6, 0, id, 0),
        Decoded::EstablishRefused { id, status } => form(7, u32::from(status), id, 0),
        Decoded::Established { id } => form(7, 0, id, 0),
        Decoded::EstablishNotification => form(8, 0, 0, 0),
        Decoded::SessionEnd => form(9, 0, 0, 0),
        Decoded::SessionEndNotification => form(10, 0, 0, 0),
        Decoded::DataSend => form(11, 0, 0, 0),
        Decoded::DataReceive => form(12, 0, 0, 0),
        Decoded::Keepalive => form(13, 0, 0, 0),
    }
}

#[unsafe(no_mangle)]
pub extern "C" fn svsc_read(message: &[u8]) -> Numbers
    ensures { result ≡ numbers (decode message.now) }
{
    match svsc_reader::read(message) {
        Some(d) => numbers_of(d),
        None => Numbers { number: 6, ..ZEROS },
    }
}
