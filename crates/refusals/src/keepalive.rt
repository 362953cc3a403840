// Finding out whether a connection is dead: the checks of a close, and the reply buffer.
ghost use Rattle.std.specs.Prelude.{◌≡◌, List, ℕ, length, IfOk};
ghost use Rattle.rules.specs.Tables.{lent};
ghost use Rattle.rules.specs.Calls.{keepalive};
ghost use Rattle.rules.specs.Checks.{check};
ghost use Rattle.refusal_numbers.specs.Numbers.{answer_number};

use refusal_numbers::Refusal;

pub fn check(
    connections: &[u8],
    leases: &[u8],
    allowances: &[u8],
    time: u64,
    connection: u64,
    reply_length: usize,
    relay_length: usize,
) -> Result<u8, Refusal>
    ensures number { (reply relay : List ℕ) → length reply ≡ reply_length → length relay ≡ relay_length
        → answer_number result ≡ check (lent connections.now leases.now allowances.now) (keepalive time connection reply
        relay) }
    ensures same { IfOk result (λ c. c ≡ connection) }
{
    let c = crate::close::check(
        connections,
        leases,
        allowances,
        time,
        connection,
        relay_length,
    )?;
    if reply_length < rules::LEAST_BUFFER {
        return Err(Refusal::WrongLengths);
    }
    Ok(c)
}
