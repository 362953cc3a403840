// The fields of bytes of a message: parts of the bytes that were read, and copied out for C.
ghost use Rattle.std.specs.Prelude.{◌≡◌, true, [], ◌∷◌, ◌+◌, ◌≤◌, get_or, drop};
ghost use Rattle.std.proofs.Math.Option.{some};
ghost use Rattle.octets.specs.Octets.{part};
ghost use Rattle.svsc.specs.Messages.{decode, cookie_bytes, key_bytes};
ghost use Rattle.svsc.specs.Writing.{emit, written, as_written};
ghost use Rattle.svsc_decoded.specs.Reading.{message_of};
ghost use Rattle.svsc_boundary.specs.Boundary.{field_of, copy_field};

use svsc::{Refused, Written};
use svsc_decoded::Decoded;

// C names a field by its number. Any u32 may come, and one past these names none, so they stay numbers.
const FIELD_COOKIE: u32 = 0;

const FIELD_SESSION: u32 = 1;

const FIELD_PEER: u32 = 2;

const FIELD_KEY: u32 = 3;

const FIELD_DATA: u32 = 4;

// The cookie that starts at a place, if that is the field asked for.
fn cookie_at(m: &[u8], at: usize, f: u32) -> &[u8]
    ensures { result.now ≡ get_or (part m.now at cookie_bytes ∷ []) f [] }
{
    if f == FIELD_COOKIE {
        return octets::part(m, at, svsc::COOKIE);
    }
    &m[..0]
}

// The session id, the peer id or the peer key: they stand one behind the other from a place on.
fn key_at(m: &[u8], at: usize, f: u32) -> &[u8]
    requires { at ≤ 6 }
    ensures { result.now
        ≡ get_or ([] ∷ part m.now at key_bytes
        ∷ part m.now (at + 16) key_bytes
        ∷ part m.now (at + 32) key_bytes
        ∷ []) f [] }
{
    match f {
        FIELD_SESSION => octets::part(m, at, svsc::KEY),
        FIELD_PEER => octets::part(m, at + 16, svsc::KEY),
        FIELD_KEY => octets::part(m, at + 32, svsc::KEY),
        _ => &m[..0],
    }
}

// The data, all that is behind the type.
fn data_of(m: &[u8], f: u32) -> &[u8]
    ensures { result.now ≡ get_or ([] ∷ [] ∷ [] ∷ [] ∷ drop 1 m.now ∷ []) f [] }
{
    if f == FIELD_DATA {
        return octets::after(m, 1);
    }
    &m[..0]
}

// A field of bytes of the message that was read from m: nothing where the message hasn't got it.
fn field(m: &[u8], d: Decoded, f: u32) -> &[u8]
    ensures { result.now ≡ field_of f (some (message_of d m.now)) }
{
    match d {
        Decoded::LeaseRequestWithCookie => cookie_at(m, 2, f),
        Decoded::LeaseGranted {
            id: _,
            expiration: _,
        } => cookie_at(m, 6, f),
        Decoded::ExtensionRequest => cookie_at(m, 1, f),
        Decoded::Established { id: _ } => key_at(m, 6, f),
        Decoded::EstablishNotification => key_at(m, 1, f),
        Decoded::DataSend => data_of(m, f),
        Decoded::DataReceive => data_of(m, f),
        _ => &m[..0],
    }
}

// Bytes at the start of a buffer, if it has room for them.
fn store(buffer: &mut [u8], bytes: &[u8]) -> Result<usize, Refused>
    ensures { written (as_written result) buffer.new ≡ emit true bytes.now buffer.old }
{
    if buffer.len() < bytes.len() {
        return Err(Refused::NoRoom);
    }
    octet_stores::copy(buffer, 0, bytes);
    Ok(bytes.len())
}

fn copy_field(message: &[u8], f: u32, buffer: &mut [u8]) -> Result<usize, Refused>
    ensures { written (as_written result) buffer.new ≡ copy_field f (decode message.now) buffer.old }
{
    match svsc_reader::read(message) {
        Some(d) => store(buffer, field(message, d, f)),
        None => Err(Refused::Malformed),
    }
}

// A field of bytes, copied to the start of a buffer: 0 with its length; 6 where the bytes are no message, before 5.
#[unsafe(no_mangle)]
pub extern "C" fn svsc_field(message: &[u8], f: u32, buffer: &mut [u8]) -> Written
    ensures { written result buffer.new ≡ copy_field f (decode message.now) buffer.old }
{
    copy_field(message, f, buffer).into()
}
