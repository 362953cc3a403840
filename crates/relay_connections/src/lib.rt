// How many connections a partner has, and which number a new one gets: read from the map alone.
#![tactic(auto)]

ghost use Rattle.std.specs.Prelude.{◌≡◌, ◌/◌, ◌%◌, ◌^◌, ◌<◌};
ghost use Rattle.rules.specs.Sizes.{partners, connections_per_partner};
ghost use Rattle.connection_map.specs.Maps.{first_connection, connections_of, lowest_closed, partner_connections};
ghost use Rattle.relay_connections.specs.Coded.{coded};

// Bits of the map that a partner has, and how many values they can take.
const WIDTH: u64 = rules::CONNECTIONS_PER_PARTNER as u64;

const PATTERNS: u64 = 1 << WIDTH;

// The answer where there is no such partner.
const NO_SUCH_PARTNER: u32 = 3;

// number: 0, or 3; then how many connections the partner has, and the lowest closed number of the partner, or 255.
#[repr(C)]
#[derive(Clone, Copy)]
pub struct PartnerConnections {
    pub number: u32,
    pub connections: u32,
    pub lowest: u32,
}

// The bits of a partner's connections, the first one's lowest.
fn bits_of(map: u64, partner: u64) -> u64
    requires { partner < partners }
    ensures { result ≡ map / 2 ^ first_connection partner % 2 ^ connections_per_partner }
{
    (map >> (WIDTH * partner)) % PATTERNS
}

fn count(map: u64, partner: u64) -> u32
    requires { partner < partners }
    ensures { result ≡ connections_of map partner }
{
    u64::count_ones(bits_of(map, partner))
}

// Above a partner's bits the complement has ones, so that the zeros end there at the latest.
fn lowest(map: u64, partner: u64) -> u32
    requires { partner < partners }
    ensures { result ≡ lowest_closed map partner }
{
    let taken = u64::trailing_zeros(!bits_of(map, partner));
    if taken < WIDTH as u32 {
        return (WIDTH * partner) as u32 + taken;
    }
    rules::NOBODY as u32
}

#[unsafe(no_mangle)]
pub extern "C" fn crondelith_connections_of(map: u64, partner: u64) -> PartnerConnections
    ensures { result ≡ coded (partner_connections map partner) }
{
    if rules::PARTNERS as u64 <= partner {
        return PartnerConnections {
            number: NO_SUCH_PARTNER,
            connections: 0,
            lowest: rules::NOBODY as u32,
        };
    }
    PartnerConnections {
        number: 0,
        connections: count(map, partner),
        lowest: lowest(map, partner),
    }
}
