// The reader of the fourteen messages: the first byte picks the reader of its type.
#![tactic(auto)]

ghost use Rattle.std.specs.Prelude.{◌≡◌, false, get_or};
ghost use Rattle.svsc.specs.Messages.{decode, is_some, from_peer, sent_by_peers};
ghost use Rattle.svsc_decoded.specs.Reading.{answer, meaning};

use svsc_decoded::Decoded;

// What the bytes are, if they are a message; None is the number 6.
pub fn read(m: &[u8]) -> Option<Decoded>
    ensures { meaning result m.now ≡ answer (decode m.now) }
{
    let kind = *m.first()?;
    match kind {
        0 => svsc_version_readers::version(m),
        1 => svsc_version_readers::version_answer(m),
        2 => svsc_lease_readers::lease_request(m),
        3 => svsc_lease_readers::lease_response(m),
        4 => svsc_lease_readers::extension_request(m),
        5 => svsc_lease_readers::extension_response(m),
        6 => svsc_session_readers::establish_request(m),
        7 => svsc_session_readers::establish_response(m),
        _ => svsc_session_readers::plain(m, kind),
    }
}

// Whether the bytes are a message.
#[tactic(auto, using(svsc_decoded::proofs::Cases::is_read))]
pub fn is_message(m: &[u8]) -> bool
    ensures { result ≡ is_some (decode m.now) }
{
    read(m).is_some()
}

// The types that peers send.
const SENT_BY_PEERS: [bool; 14] = [
    false, true, true, false, true, false, true, false, false, true, false, true, false, true,
];

fn sent_by_peers(kind: usize) -> bool
    ensures { result ≡ get_or sent_by_peers kind false }
{
    SENT_BY_PEERS.get(kind).copied().unwrap_or(false)
}

// Whether the bytes are a message that peers send.
pub fn from_peer(m: &[u8]) -> bool
    ensures { result ≡ from_peer m.now }
{
    is_message(m) && sent_by_peers(octets::byte(m, 0) as usize)
}
