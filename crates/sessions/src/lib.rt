// The version answer, the end of a session, and data sent in one. The room in the buffers and the length of data are what the checks have
// shown, and no answer would serve where they fail.
#![tactic(auto)]

ghost use Rattle.std.specs.Prelude.{◌≡◌, List, ℕ, ◌≤◌, length, drop, if◌then◌else◌};
ghost use Rattle.rules.specs.Sizes.{least_buffer};
ghost use Rattle.rules.specs.Tables.{lent, peer, has_session};
ghost use Rattle.rules.specs.Plans.{plan_version_answer, plan_end, plan_data, do_nothing};
ghost use Rattle.answers.specs.Applied.{handled, applied};
ghost use Rattle.sessions.specs.Asked.{Sendable};

use answers::Answer;

// Type 1: 1 opens the connection, 0 ends it.
pub fn answer_version(connections: &mut [u8], c: u8, ok: u8) -> Answer
    ensures { (ls al reply relay : List ℕ) → handled result connections.new ls reply relay
        ≡ applied (plan_version_answer (lent connections.old ls al) c ok) reply relay }
{
    if ok == 1 {
        connection_table::set_open(connections, c);
        return answers::sent_nothing(0);
    }
    connection_table::clear(connections, c);
    answers::disconnected()
}

// Type 9: both records lose the session, and the other is told. The checks have found who that is.
pub fn end(connections: &mut [u8], c: u8, other: u8, relay: &mut [u8]) -> Answer
    requires { least_buffer ≤ length relay.old }
    ensures { (ls al reply : List ℕ) → handled result connections.new ls reply relay.new
        ≡ applied (plan_end (lent connections.old ls al) c other) reply relay.old }
{
    session_records::end_session(connections, c, other);
    let sent = svsc_session_writers::svsc_write_session_end_notification(relay).unwrap();
    answers::relayed(sent as u32, other)
}

// The same of a connection that may have no session.
pub fn end_if_any(connections: &mut [u8], c: u8, relay: &mut [u8]) -> Answer
    requires { least_buffer ≤ length relay.old }
    ensures { (ls al reply : List ℕ) → handled result connections.new ls reply relay.new
        ≡ applied (if has_session connections.old c
        then plan_end (lent connections.old ls al) c (peer connections.old c)
        else do_nothing (lent connections.old ls al)) reply relay.old }
{
    let other = session_records::peer(connections, c);
    if session_records::in_session(connections, c, other) {
        return end(connections, c, other, relay);
    }
    answers::sent_nothing(0)
}

// Type 11: the data goes to the other. The checks have looked the session up and found who that is, so this is given no table.
pub fn send(m: &[u8], other: u8, relay: &mut [u8]) -> Answer
    requires { Sendable m.now relay.old }
    ensures { (cs ls al reply : List ℕ) → handled result cs ls reply relay.new
        ≡ applied (plan_data (lent cs ls al) other (drop 1 m.now)) reply relay.old }
{
    let bytes = octets::after(m, 1);
    let copied = data_copy::copy(relay, bytes).unwrap();
    answers::relayed(copied as u32, other)
}
