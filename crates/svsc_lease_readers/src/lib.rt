// The readers of types 2 to 5, leases and their extensions: bytes of the type into a message.
#![tactic(auto, unfolding(svsc::specs::Messages::decode, svsc::specs::Messages::readings))]

ghost use Rattle.std.specs.Prelude.{◌≡◌};
ghost use Rattle.svsc.specs.Messages.{type_of, decode};
ghost use Rattle.svsc_decoded.specs.Reading.{answer, meaning};

use svsc_decoded::Decoded;

pub fn lease_request(m: &[u8]) -> Option<Decoded>
    requires { type_of m.now ≡ 2 }
    ensures { meaning result m.now ≡ answer (decode m.now) }
{
    let has_cookie = octets::byte(m, 1);
    if (m.len() == 2) & (has_cookie == 0) {
        return Some(Decoded::LeaseRequest);
    }
    if (m.len() == 26) & (has_cookie == 1) {
        return Some(Decoded::LeaseRequestWithCookie);
    }
    None
}

pub fn lease_response(m: &[u8]) -> Option<Decoded>
    requires { type_of m.now ≡ 3 }
    ensures { meaning result m.now ≡ answer (decode m.now) }
{
    let accepted = octets::byte(m, 1);
    if (m.len() == 2) & (accepted == 0) {
        return Some(Decoded::LeaseRefused);
    }
    if (m.len() == 38) & (accepted == 1) {
        return Some(Decoded::LeaseGranted {
            id: octets::number::<4>(m, 2) as u32,
            expiration: octets::number::<8>(m, 30),
        });
    }
    None
}

pub fn extension_request(m: &[u8]) -> Option<Decoded>
    requires { type_of m.now ≡ 4 }
    ensures { meaning result m.now ≡ answer (decode m.now) }
{
    (m.len() == 25).then_some(Decoded::ExtensionRequest)
}

pub fn extension_response(m: &[u8]) -> Option<Decoded>
    requires { type_of m.now ≡ 5 }
    ensures { meaning result m.now ≡ answer (decode m.now) }
{
    let extended = octets::byte(m, 1);
    if (m.len() == 2) & (extended == 0) {
        return Some(Decoded::ExtensionRefused);
    }
    if (m.len() == 10) & (extended == 1) {
        return Some(Decoded::ExtensionGranted {
            expiration: octets::number::<8>(m, 2),
        });
    }
    None
}
