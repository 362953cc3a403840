// A connection that ends, by a close or because it is dead: its session, the rows that name it, and its record. That it is one of the
// table's, and that the buffer has room, the checks have shown.
#![tactic(auto)]

ghost use Rattle.std.specs.Prelude.{◌≡◌, List, ℕ, ◌≤◌, ◌<◌, length};
ghost use Rattle.rules.specs.Tables.{lent};
ghost use Rattle.rules.specs.Sizes.{connection_count, least_buffer};
ghost use Rattle.rules.specs.Plans.{plan_close};
ghost use Rattle.answers.specs.Applied.{handled, applied};

use answers::Answer;

pub fn close(connections: &mut [u8], leases: &mut [u8], c: u8, relay: &mut [u8]) -> Answer
    requires { (c < connection_count) × (least_buffer ≤ length relay.old) }
    ensures { (al reply : List ℕ) → handled result connections.new leases.new reply relay.new
        ≡ applied (plan_close (lent connections.old leases.old al) c) reply relay.old }
{
    let answer = sessions::end_if_any(connections, c, relay);
    lease_writes::release(leases, c);
    connection_table::clear(connections, c);
    answer
}
