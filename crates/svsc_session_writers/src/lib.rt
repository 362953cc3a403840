// The writers of types 6 to 13, sessions and the keepalive: a function for each form, for svsc_session_writers_c and the crates above.
#![tactic(auto, unfolding(svsc::specs::Writing::write, svsc::specs::Messages::encode, svsc::specs::Messages::well_formed))]

ghost use Rattle.std.specs.Prelude.{◌≡◌, [], ◌∷◌, ◌++◌};
ghost use Rattle.octets.specs.Octets.{big_endian};
ghost use Rattle.svsc.specs.Messages.{establish_request, establish_refused, established, establish_notification, session_end};
ghost use Rattle.svsc.specs.Messages.{session_end_notification, data_send, data_receive, keepalive_message};
ghost use Rattle.svsc.specs.Writing.{write, written, as_written};

use octet_comparisons::{short, sized};
use svsc::Refused;
use svsc_parts::{put_part, put_parts};

pub fn svsc_write_establish_request(buffer: &mut [u8], id: u32) -> Result<usize, Refused>
    ensures { written (as_written result) buffer.new ≡ write (establish_request id) buffer.old }
{
    let name = octets::bytes::<4>(id as u64);
    put_part(buffer, true, 6, &name)
}

// An id and a status, as type 7 has them.
#[tactic(auto, unfolding(octets::specs::Octets::big_endian))]
fn outcome(id: u32, status: u8) -> [u8; 5]
    ensures { result ≡ big_endian 4 id ++ (status ∷ []) }
{
    let name = octets::bytes::<4>(id as u64);
    [name[0], name[1], name[2], name[3], status]
}

pub fn svsc_write_establish_refused(
    buffer: &mut [u8],
    id: u32,
    status: u8,
) -> Result<usize, Refused>
    ensures { written (as_written result) buffer.new ≡ write (establish_refused id status) buffer.old }
{
    let head = outcome(id, status);
    put_part(buffer, (1 <= status) & (status <= 5), 7, &head)
}

pub fn svsc_write_established(
    buffer: &mut [u8],
    id: u32,
    session: &[u8],
    peer: &[u8],
    key: &[u8],
) -> Result<usize, Refused>
    ensures { written (as_written result) buffer.new
        ≡ write (established id session.now peer.now key.now) buffer.old }
{
    let fits = sized(session, svsc::KEY) & sized(peer, svsc::KEY) & sized(key, svsc::KEY);
    let head = outcome(id, 0);
    put_parts(buffer, fits, 7, &head, session, peer, key)
}

pub fn svsc_write_establish_notification(
    buffer: &mut [u8],
    session: &[u8],
    peer: &[u8],
    key: &[u8],
) -> Result<usize, Refused>
    ensures { written (as_written result) buffer.new
        ≡ write (establish_notification session.now peer.now key.now) buffer.old }
{
    let fits = sized(session, svsc::KEY) & sized(peer, svsc::KEY) & sized(key, svsc::KEY);
    put_parts(buffer, fits, 8, session, peer, key, b"")
}

pub fn svsc_write_session_end(buffer: &mut [u8]) -> Result<usize, Refused>
    ensures { written (as_written result) buffer.new ≡ write session_end buffer.old }
{
    put_part(buffer, true, 9, b"")
}

pub fn svsc_write_session_end_notification(buffer: &mut [u8]) -> Result<usize, Refused>
    ensures { written (as_written result) buffer.new ≡ write session_end_notification buffer.old }
{
    put_part(buffer, true, 10, b"")
}

pub fn svsc_write_data_send(buffer: &mut [u8], bytes: &[u8]) -> Result<usize, Refused>
    ensures { written (as_written result) buffer.new ≡ write (data_send bytes.now) buffer.old }
{
    put_part(buffer, short(bytes, svsc::LONGEST), 11, bytes)
}

pub fn svsc_write_data_receive(buffer: &mut [u8], bytes: &[u8]) -> Result<usize, Refused>
    ensures { written (as_written result) buffer.new ≡ write (data_receive bytes.now) buffer.old }
{
    if !short(bytes, svsc::LONGEST) {
        return Err(Refused::Malformed);
    }
    data_copy::copy(buffer, bytes).ok_or(Refused::NoRoom)
}

pub fn svsc_write_keepalive(buffer: &mut [u8]) -> Result<usize, Refused>
    ensures { written (as_written result) buffer.new ≡ write keepalive_message buffer.old }
{
    put_part(buffer, true, 13, b"")
}
