// What a connection record says of keepalives: whether one is unanswered, and the times of the last message sent and of that keepalive.
// Who is dead, who is to be asked, and what is written of messages sent and heard.
#![tactic(auto)]

ghost use Rattle.std.specs.Prelude.{◌≡◌, ◌+◌, ◌<◌, length};
ghost use Rattle.octets.specs.Octets.{number_at};
ghost use Rattle.rules.specs.Sizes.{connection_count, connections_size};
ghost use Rattle.rules.specs.Tables.{connection_at, is_unanswered};
ghost use Rattle.rules.specs.Keepalives.{elapsed, is_dead, is_due, ask, answered, stamp};

use answers::Answer;
use connection_table::connection_at;

// ---- who is dead, and who is to be asked

#[tactic(auto, unfolding(rules::specs::Tables::is_unanswered))]
fn is_unanswered(connections: &[u8], c: u8) -> bool
    ensures { result ≡ is_unanswered connections.now c }
{
    octets::byte(connections, connection_at(c) + rules::UNANSWERED_AT) == 1
}

// How long ago the time is that a record has in this place: no time, if it is to come.
fn elapsed(connections: &[u8], time: u64, c: u8, place: usize) -> u64
    requires { (length connections.now ≡ connections_size) × (c < connection_count) × (place < 16) }
    ensures { result ≡ elapsed time (number_at connections.now (connection_at c + place) 5) }
{
    let since = octets::number::<5>(connections, connection_at(c) + place);
    time.saturating_sub(since)
}

// Whether a keepalive has been unanswered for too long. Of tables of the right size: no answer would serve where the times aren't there.
#[tactic(auto, unfolding(rules::specs::Keepalives::is_dead, rules::specs::Tables::keepalive_sent))]
pub fn is_dead(connections: &[u8], time: u64, c: u8) -> bool
    requires { (length connections.now ≡ connections_size) × (c < connection_count) }
    ensures { result ≡ is_dead connections.now time c }
{
    let waited = elapsed(connections, time, c, rules::KEEPALIVE_AT);
    is_unanswered(connections, c) & (rules::ANSWER_TIMEOUT <= waited)
}

// Whether none is unanswered and nothing has been sent for long enough; of the same tables.
#[tactic(auto, unfolding(rules::specs::Keepalives::is_due, rules::specs::Tables::last_sent))]
pub fn is_due(connections: &[u8], time: u64, c: u8) -> bool
    requires { (length connections.now ≡ connections_size) × (c < connection_count) }
    ensures { result ≡ is_due connections.now time c }
{
    let quiet = elapsed(connections, time, c, rules::LAST_SENT_AT);
    !is_unanswered(connections, c) & (rules::KEEPALIVE_TIMEOUT <= quiet)
}

// ---- what is written

// A keepalive goes to the connection: its time, and that it is unanswered.
#[tactic(auto, unfolding(rules::specs::Keepalives::ask))]
pub fn ask(connections: &mut [u8], time: u64, c: u8)
    ensures { connections.new ≡ ask connections.old time c }
{
    let at = connection_at(c);
    octet_stores::write8(connections, at + rules::UNANSWERED_AT, 1);
    octet_stores::write::<5>(connections, at + rules::KEEPALIVE_AT, time);
}

// A message from the connection is done: whatever keepalive there was is answered.
#[tactic(auto, unfolding(rules::specs::Keepalives::answered))]
pub fn answered(connections: &mut [u8], c: u8)
    ensures { connections.new ≡ answered connections.old c }
{
    octet_stores::write8(connections, connection_at(c) + rules::UNANSWERED_AT, 0);
}

// A message of n bytes goes to the connection; one of none is not sent.
#[tactic(auto, unfolding(rules::specs::Keepalives::stamp))]
fn stamp(connections: &mut [u8], time: u64, n: u32, c: u32)
    ensures { connections.new ≡ stamp connections.old time n c }
{
    if n != 0 {
        let at = rules::CONNECTION_BYTES * c as usize; // of any number of four bytes, as an answer has its destination
        octet_stores::write::<5>(connections, at + rules::LAST_SENT_AT, time);
    }
}

// What a call of connection c sends: to c itself, and to the answer's destination.
pub fn sent(connections: &mut [u8], time: u64, c: u8, answer: Answer)
    ensures { connections.new
        ≡ stamp (stamp connections.old time answer.reply c) time answer.relay answer.destination }
{
    stamp(connections, time, answer.reply, c as u32);
    stamp(connections, time, answer.relay, answer.destination);
}
