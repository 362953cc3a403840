// The writers of types 6 to 13, for C: each export is the function of svsc_session_writers of that name.
#![tactic(auto)]

ghost use Rattle.std.specs.Prelude.{◌≡◌};
ghost use Rattle.svsc.specs.Messages.{establish_request, establish_refused, established, establish_notification, session_end};
ghost use Rattle.svsc.specs.Messages.{session_end_notification, data_send, data_receive, keepalive_message};
ghost use Rattle.svsc.specs.Writing.{write, written};

use svsc::Written;

#[unsafe(no_mangle)]
pub extern "C" fn svsc_write_establish_request(buffer: &mut [u8], id: u32) -> Written
    ensures { written result buffer.new ≡ write (establish_request id) buffer.old }
{
    svsc_session_writers::svsc_write_establish_request(buffer, id).into()
}

#[unsafe(no_mangle)]
pub extern "C" fn svsc_write_establish_refused(buffer: &mut [u8], id: u32, status: u8) -> Written
    ensures { written result buffer.new ≡ write (establish_refused id status) buffer.old }
{
    svsc_session_writers::svsc_write_establish_refused(buffer, id, status).into()
}

#[unsafe(no_mangle)]
pub extern "C" fn svsc_write_established(
    buffer: &mut [u8],
    id: u32,
    session: &[u8],
    peer: &[u8],
    key: &[u8],
) -> Written
    ensures { written result buffer.new
        ≡ write (established id session.now peer.now key.now) buffer.old }
{
    svsc_session_writers::svsc_write_established(buffer, id, session, peer, key).into()
}

#[unsafe(no_mangle)]
pub extern "C" fn svsc_write_establish_notification(
    buffer: &mut [u8],
    session: &[u8],
    peer: &[u8],
    key: &[u8],
) -> Written
    ensures { written result buffer.new
        ≡ write (establish_notification session.now peer.now key.now) buffer.old }
{
    svsc_session_writers::svsc_write_establish_notification(buffer, session, peer, key).into()
}

#[unsafe(no_mangle)]
pub extern "C" fn svsc_write_session_end(buffer: &mut [u8]) -> Written
    ensures { written result buffer.new ≡ write session_end buffer.old }
{
    svsc_session_writers::svsc_write_session_end(buffer).into()
}

#[unsafe(no_mangle)]
pub extern "C" fn svsc_write_session_end_notification(buffer: &mut [u8]) -> Written
    ensures { written result buffer.new ≡ write session_end_notification buffer.old }
{
    svsc_session_writers::svsc_write_session_end_notification(buffer).into()
}

#[unsafe(no_mangle)]
pub extern "C" fn svsc_write_data_send(buffer: &mut [u8], bytes: &[u8]) -> Written
    ensures { written result buffer.new ≡ write (data_send bytes.now) buffer.old }
{
    svsc_session_writers::svsc_write_data_send(buffer, bytes).into()
}

#[unsafe(no_mangle)]
pub extern "C" fn svsc_write_data_receive(buffer: &mut [u8], bytes: &[u8]) -> Written
    ensures { written result buffer.new ≡ write (data_receive bytes.now) buffer.old }
{
    svsc_session_writers::svsc_write_data_receive(buffer, bytes).into()
}

#[unsafe(no_mangle)]
pub extern "C" fn svsc_write_keepalive(buffer: &mut [u8]) -> Written
    ensures { written result buffer.new ≡ write keepalive_message buffer.old }
{
    svsc_session_writers::svsc_write_keepalive(buffer).into()
}
