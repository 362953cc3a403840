// The readers of types 6 to 13, sessions and the keepalive: bytes of the type into a message.
#![tactic(auto, unfolding(svsc::specs::Messages::decode, svsc::specs::Messages::readings))]

ghost use Rattle.std.specs.Prelude.{◌≡◌, ◌<◌};
ghost use Rattle.svsc.specs.Messages.{type_of, decode};
ghost use Rattle.svsc_decoded.specs.Reading.{answer, meaning};

use svsc_decoded::Decoded;

pub fn establish_request(m: &[u8]) -> Option<Decoded>
    requires { type_of m.now ≡ 6 }
    ensures { meaning result m.now ≡ answer (decode m.now) }
{
    if m.len() == 5 {
        return Some(Decoded::EstablishRequest {
            id: octets::number::<4>(m, 1) as u32,
        });
    }
    None
}

pub fn establish_response(m: &[u8]) -> Option<Decoded>
    requires { type_of m.now ≡ 7 }
    ensures { meaning result m.now ≡ answer (decode m.now) }
{
    let status = octets::byte(m, 5);
    if (m.len() == 6) & (1 <= status) & (status <= 5) {
        return Some(Decoded::EstablishRefused {
            id: octets::number::<4>(m, 1) as u32,
            status,
        });
    }
    if (m.len() == 54) & (status == 0) {
        return Some(Decoded::Established {
            id: octets::number::<4>(m, 1) as u32,
        });
    }
    None
}

// The types above 7: the length decides.
pub fn plain(m: &[u8], kind: u8) -> Option<Decoded>
    requires { (type_of m.now ≡ kind) × (7 < kind) }
    ensures { meaning result m.now ≡ answer (decode m.now) }
{
    match kind {
        8 => (m.len() == 49).then_some(Decoded::EstablishNotification),
        9 => (m.len() == 1).then_some(Decoded::SessionEnd),
        10 => (m.len() == 1).then_some(Decoded::SessionEndNotification),
        11 => (m.len() <= svsc::LONGEST).then_some(Decoded::DataSend),
        12 => (m.len() <= svsc::LONGEST).then_some(Decoded::DataReceive),
        13 => (m.len() == 1).then_some(Decoded::Keepalive),
        _ => None,
    }
}
