// The map of a connection table, for tables that come without one.
#![tactic(auto)]

ghost use Rattle.std.specs.Prelude.{◌≡◌, ◌<◌, if◌then◌else◌};
ghost use Rattle.rules.specs.Sizes.{connection_count};
ghost use Rattle.rules.specs.Tables.{is_closed};
ghost use Rattle.connection_map.specs.Bits.{with_bit};
ghost use Rattle.connection_map.specs.Maps.{map_of, rebuild};
ghost use Rattle.relay_rebuild.specs.Coded.{coded};

use connection_table::ConnectionState;

// The answer to a table of another size.
const WRONG_SIZE: u32 = 1;

// number: 0, or 1; then the map, or 0.
#[repr(C)]
#[derive(Clone, Copy)]
pub struct Rebuilt {
    pub number: u32,
    pub map: u64,
}

// The map with connection c, unless that is closed.
fn with_connection(connections: &[u8], map: u64, c: u8) -> u64
    requires { c < connection_count }
    ensures { result ≡ (if is_closed connections.now c then map else with_bit map c) }
{
    if connection_table::state(connections, c) == ConnectionState::Closed {
        return map;
    }
    connection_bits::with_bit(map, c)
}

fn map_of(connections: &[u8]) -> u64
    ensures { result ≡ map_of connections.now }
{
    let mut map = 0;
    for c in 0..rules::CONNECTION_COUNT as u8 {
        map = with_connection(connections, map, c);
    }
    map
}

#[unsafe(no_mangle)]
pub extern "C" fn crondelith_rebuild(connections: &[u8]) -> Rebuilt
    ensures { result ≡ coded (rebuild connections.now) }
{
    if connections.len() != rules::CONNECTIONS_SIZE {
        return Rebuilt {
            number: WRONG_SIZE,
            map: 0,
        };
    }
    Rebuilt {
        number: 0,
        map: map_of(connections),
    }
}
