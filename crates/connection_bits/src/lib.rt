// One bit of the map of the connections, set or cleared.
#![tactic(auto)]

ghost use Rattle.std.specs.Prelude.{◌≡◌, ◌<◌};
ghost use Rattle.rules.specs.Sizes.{connection_count};
ghost use Rattle.connection_map.specs.Bits.{with_bit, without_bit};

// The map with connection c not closed.
pub fn with_bit(map: u64, c: u8) -> u64
    requires { c < connection_count }
    ensures { result ≡ with_bit map c }
{
    map | (1 << (c as u64))
}

// The map with connection c closed.
pub fn without_bit(map: u64, c: u8) -> u64
    requires { c < connection_count }
    ensures { result ≡ without_bit map c }
{
    map & !(1 << (c as u64))
}
