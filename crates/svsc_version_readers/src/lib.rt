// The readers of types 0 and 1, the versions: bytes of the type into a message.
#![tactic(auto)]

ghost use Rattle.std.specs.Prelude.{◌≡◌, ◌+◌, ◌-◌, ◌*◌, ◌≤◌, length};
ghost use Rattle.octets.specs.Octets.{part};
ghost use Rattle.svsc.specs.Messages.{type_of, decode, is_digit, are_digits, is_version};
ghost use Rattle.svsc_decoded.specs.Reading.{answer, meaning};

use svsc_decoded::Decoded;

fn is_digit(x: u8) -> bool
    ensures { result ≡ is_digit x }
{
    (48 <= x) & (x <= 57)
}

// Whether the three bytes from a place on are digits.
fn are_digits(s: &[u8], at: usize) -> bool
    requires { at + 3 ≤ length s.now }
    ensures { result ≡ are_digits (part s.now at 3) }
{
    is_digit(s[at]) & is_digit(s[at + 1]) & is_digit(s[at + 2])
}

fn digit(x: u8) -> u16
    ensures { result ≡ x - 48 }
{
    if 48 <= x {
        return (x - 48) as u16;
    }
    0
}

// The number that three digits say.
fn three(a: u8, b: u8, c: u8) -> u16
    ensures { result ≡ (a - 48) * 100 + (b - 48) * 10 + (c - 48) }
{
    digit(a) * 100 + digit(b) * 10 + digit(c)
}

// The fixed parts are compared byte for byte.
fn is_version(m: &[u8]) -> bool
    requires { length m.now ≡ 13 }
    ensures { result ≡ is_version m.now }
{
    octet_comparisons::equal_at(m, 1, &svsc::VERSION_NAME)
        & are_digits(m, 6)
        & octet_comparisons::equal_at(m, 9, &svsc::VERSION_POINT)
        & are_digits(m, 10)
}

pub fn version(m: &[u8]) -> Option<Decoded>
    requires { type_of m.now ≡ 0 }
    ensures { meaning result m.now ≡ answer (decode m.now) }
{
    if m.len() != 13 {
        return None;
    }
    if !is_version(m) {
        return None;
    }
    Some(Decoded::Version {
        major: three(m[6], m[7], m[8]),
        minor: three(m[10], m[11], m[12]),
    })
}

#[tactic(auto, unfolding(svsc::specs::Messages::decode, svsc::specs::Messages::readings))]
pub fn version_answer(m: &[u8]) -> Option<Decoded>
    requires { type_of m.now ≡ 1 }
    ensures { meaning result m.now ≡ answer (decode m.now) }
{
    let ok = octets::byte(m, 1);
    ((m.len() == 2) & (ok <= 1)).then_some(Decoded::VersionAnswer { ok })
}
