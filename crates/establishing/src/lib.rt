// Sessions: what was decided on a request, carried out. Numbers in range and the room in the buffers are what the checks have shown,
// and no answer would serve where they fail.
#![tactic(auto)]

ghost use Rattle.std.specs.Prelude.{◌≡◌, List, ℕ, ◌≤◌, length};
ghost use Rattle.svsc.specs.Messages.{encode, established, establish_notification};
ghost use Rattle.rules.specs.Sizes.{least_buffer, random_bytes};
ghost use Rattle.rules.specs.Tables.{lent};
ghost use Rattle.rules.specs.Sessions.{refused_with, established_with};
ghost use Rattle.rules.specs.Sessions.{random_session_id, callers_peer_id, callers_key, holders_peer_id, holders_key};
ghost use Rattle.rules.specs.Plans.{plan_establish};
ghost use Rattle.answers.specs.Applied.{handled, applied};
ghost use Rattle.statuses.specs.Decisions.{numbered_as};
ghost use Rattle.establishing.specs.Asked.{Wrote, Joinable, InStatuses};

use answers::Answer;

fn refuse(reply: &mut [u8], id: u32, status: u8) -> Answer
    requires { (1 ≤ status) × (status ≤ 5) × (least_buffer ≤ length reply.old) }
    ensures { (cs ls al random relay : List ℕ) (c : ℕ) → handled result cs ls reply.new relay
        ≡ applied (plan_establish (lent cs ls al) c id random (refused_with status)) reply.old relay }
{
    let sent = svsc_session_writers::svsc_write_establish_refused(reply, id, status).unwrap();
    answers::replied(sent as u32)
}

// The caller is told its own pair.
fn tell_caller(reply: &mut [u8], id: u32, random: &[u8]) -> u32
    requires { (least_buffer ≤ length reply.old) × (length random.now ≡ random_bytes) }
    ensures { Wrote (encode (established id (random_session_id random.now) (callers_peer_id random.now)
        (callers_key random.now)))
        result reply.old reply.new }
{
    let session = octets::part(random, 0, svsc::KEY);
    let peer = octets::part(random, 16, svsc::KEY);
    let key = octets::part(random, 32, svsc::KEY);
    let sent = svsc_session_writers::svsc_write_established(reply, id, session, peer, key);
    sent.unwrap() as u32
}

// The holder is told its own pair.
fn tell_holder(relay: &mut [u8], random: &[u8]) -> u32
    requires { (least_buffer ≤ length relay.old) × (length random.now ≡ random_bytes) }
    ensures { Wrote (encode (establish_notification (random_session_id random.now) (holders_peer_id random.now)
        (holders_key random.now))) result relay.old relay.new }
{
    let session = octets::part(random, 0, svsc::KEY);
    let peer = octets::part(random, 48, svsc::KEY);
    let key = octets::part(random, 64, svsc::KEY);
    let sent = svsc_session_writers::svsc_write_establish_notification(relay, session, peer, key);
    sent.unwrap() as u32
}

// Both records, the reply to the caller and the notification to the holder.
fn join(
    connections: &mut [u8],
    c: u8,
    holder: u8,
    id: u32,
    random: &[u8],
    reply: &mut [u8],
    relay: &mut [u8],
) -> Answer
    requires { Joinable random.now reply.old relay.old }
    ensures { (ls al : List ℕ) → handled result connections.new ls reply.new relay.new
        ≡ applied (plan_establish (lent connections.old ls al) c id random.now (established_with holder))
        reply.old relay.old }
{
    session_records::establish(connections, c, holder, random);
    let told = tell_caller(reply, id, random);
    let notified = tell_holder(relay, random);
    answers::both(told, notified, holder)
}

// Type 6: what was decided, carried out.
pub fn establish(
    connections: &mut [u8],
    c: u8,
    id: u32,
    decision: Result<u8, u8>,
    random: &[u8],
    reply: &mut [u8],
    relay: &mut [u8],
) -> Answer
    requires { (Joinable random.now reply.old relay.old) × (InStatuses (numbered_as decision)) }
    ensures { (ls al : List ℕ) → handled result connections.new ls reply.new relay.new
        ≡ applied (plan_establish (lent connections.old ls al) c id random.now (numbered_as decision))
        reply.old relay.old }
{
    match decision {
        Ok(holder) => join(connections, c, holder, id, random, reply, relay),
        Err(status) => refuse(reply, id, status),
    }
}
