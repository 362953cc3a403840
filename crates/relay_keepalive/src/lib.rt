// Finding out whether a connection is dead: refused, or it is closed, or asked, or left alone.
#![tactic(auto)]

ghost use Rattle.std.specs.Prelude.{◌≡◌, List, ℕ, ◌≤◌, ◌<◌, length};
ghost use Rattle.svsc.specs.Messages.{keepalive_message, encode};
ghost use Rattle.rules.specs.Tables.{lent};
ghost use Rattle.rules.specs.Sizes.{connection_count, connections_size, least_buffer};
ghost use Rattle.rules.specs.Keepalives.{ask};
ghost use Rattle.rules.specs.Calls.{keepalive};
ghost use Rattle.rules.specs.Plans.{reply_only, disconnecting, plan_close, plan_keepalive};
ghost use Rattle.journal.specs.Steps.{step_recorded};
ghost use Rattle.answers.specs.Applied.{handled, applied};
ghost use Rattle.call_answers.specs.Returned.{returned, as_returned};
ghost use Rattle.relay_keepalive.specs.Asked.{Askable};

use answers::Answer;
use call_answers::CallAnswer;

// A dead connection: closed as by a close, and the host has to disconnect it.
fn end(connections: &mut [u8], leases: &mut [u8], c: u8, relay: &mut [u8]) -> Answer
    requires { (c < connection_count) × (least_buffer ≤ length relay.old) }
    ensures { (al reply : List ℕ) → handled result connections.new leases.new reply relay.new
        ≡ applied (disconnecting (plan_close (lent connections.old leases.old al) c)) reply
        relay.old }
{
    answers::disconnecting(closing::close(connections, leases, c, relay))
}

// One that has been sent nothing for long enough: asked for an answer.
fn ask(connections: &mut [u8], time: u64, c: u8, reply: &mut [u8]) -> Answer
    requires { least_buffer ≤ length reply.old }
    ensures { (ls relay : List ℕ) → handled result connections.new ls reply.new relay
        ≡ applied (reply_only (ask connections.old time c) ls (encode keepalive_message)) reply.old relay }
{
    keepalives::ask(connections, time, c);
    let sent = svsc_session_writers::svsc_write_keepalive(reply).unwrap();
    answers::replied(sent as u32)
}

// What the connection needs: to be closed, to be asked, or nothing.
fn attend(
    connections: &mut [u8],
    leases: &mut [u8],
    time: u64,
    c: u8,
    reply: &mut [u8],
    relay: &mut [u8],
) -> Answer
    requires { Askable connections.old c reply.old relay.old }
    ensures { (al : List ℕ)
        → handled result connections.new leases.new reply.new relay.new
        ≡ applied (plan_keepalive (lent connections.old leases.old al) time c) reply.old
        relay.old }
{
    if keepalives::is_dead(connections, time, c) {
        return end(connections, leases, c, relay);
    }
    if keepalives::is_due(connections, time, c) {
        return ask(connections, time, c, reply);
    }
    answers::sent_nothing(0)
}

#[unsafe(no_mangle)]
pub extern "C" fn crondelith_keepalive(
    connections: &mut [u8],
    leases: &mut [u8],
    allowances: &mut [u8],
    map: u64,
    time: u64,
    connection: u64,
    reply: &mut [u8],
    relay: &mut [u8],
) -> CallAnswer
    ensures { returned result (lent connections.new leases.new allowances.new) reply.new
        relay.new
        ≡ as_returned (step_recorded (lent connections.old leases.old allowances.old) map
        (keepalive time connection reply.old relay.old)) }
{
    let checked = refusals::keepalive::check(
        connections,
        leases,
        allowances,
        time,
        connection,
        reply.len(),
        relay.len(),
    );
    match checked {
        Err(refusal) => {
            let number = refusal.number();
            let recorded = journal_records::keepalive_record(number, time, connection);
            call_answers::refused(number, map, recorded)
        }
        Ok(c) => {
            let answer = attend(connections, leases, time, c, reply, relay);
            keepalives::sent(connections, time, c, answer);
            allowance_table::set_clock(allowances, time);
            let recorded = journal_records::keepalive_record(0, time, connection);
            call_answers::closed_if_disconnected(answer, map, c, recorded)
        }
    }
}
