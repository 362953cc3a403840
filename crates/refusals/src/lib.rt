// The checks of a call in their order: the first that applies refuses it. They only read, and of a buffer they get the length, which is all
// that counts. Those of a message have a crate of their own, `message_refusal`.
#![tactic(auto)]

ghost use Rattle.std.specs.Prelude.{◌≡◌, ◌<◌, ltb, if◌then◌else◌, IfOk};
ghost use Rattle.allowance.specs.Bucket.{level_now};
ghost use Rattle.rules.specs.Sizes.{connection_count};
ghost use Rattle.rules.specs.Tables.{lent, partner_of, bucket_of};
ghost use Rattle.refusal_numbers.specs.Numbers.{answer_number};
ghost use Rattle.refusals.specs.Passed.{first_three};

use allowance_table::Allowances;
use refusal_numbers::Refusal;

pub mod fresh; // making a fresh relay
pub mod open; // opening a connection
pub mod close; // closing a connection
pub mod keepalive; // finding out whether a connection is dead

// Checks 1 to 3, which calls on a connection share. A number that passes them is below 64, so from here on it is a byte.
pub fn first_three(
    connections: &[u8],
    leases: &[u8],
    allowances: &[u8],
    time: u64,
    connection: u64,
) -> Result<u8, Refusal>
    ensures number { answer_number result ≡ first_three (lent connections.now leases.now allowances.now) time connection }
    ensures same { IfOk result (λ c. c ≡ connection) }
{
    if !checks::sized(connections, leases, allowances) {
        return Err(Refusal::WrongSizes);
    }
    if checks::is_wrong_time(&Allowances::new(allowances), time) {
        return Err(Refusal::WrongTime);
    }
    if rules::CONNECTION_COUNT as u64 <= connection {
        return Err(Refusal::UnknownConnection);
    }
    Ok(connection as u8)
}

// Check 9: what is above the level of the connection's partner is refused.
pub fn last(allowances: &Allowances, time: u64, c: u8, price: u64) -> Result<(), Refusal>
    requires { c < connection_count }
    ensures { answer_number result
        ≡ (if ltb (level_now (bucket_of allowances.now (partner_of c)) time) price then 9 else 0) }
{
    let partner = connection_table::partner_of(c);
    if allowances.level(partner, time) < price {
        return Err(Refusal::OverAllowance);
    }
    Ok(())
}
