// Closing a connection.
ghost use Rattle.std.specs.Prelude.{◌≡◌, List, ℕ, length, IfOk};
ghost use Rattle.rules.specs.Tables.{lent};
ghost use Rattle.rules.specs.Calls.{closing};
ghost use Rattle.rules.specs.Checks.{check};
ghost use Rattle.refusal_numbers.specs.Numbers.{answer_number};

use connection_table::ConnectionState;
use refusal_numbers::Refusal;

pub fn check(
    connections: &[u8],
    leases: &[u8],
    allowances: &[u8],
    time: u64,
    connection: u64,
    relay_length: usize,
) -> Result<u8, Refusal>
    ensures number { (relay : List ℕ) → length relay ≡ relay_length
        → answer_number result ≡ check (lent connections.now leases.now allowances.now) (closing time connection relay) }
    ensures same { IfOk result (λ c. c ≡ connection) }
{
    let c = crate::first_three(connections, leases, allowances, time, connection)?;
    if connection_table::state(connections, c) == ConnectionState::Closed {
        return Err(Refusal::WrongState);
    }
    if relay_length < rules::LEAST_BUFFER {
        return Err(Refusal::WrongLengths);
    }
    Ok(c)
}
