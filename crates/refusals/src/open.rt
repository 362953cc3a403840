// Opening a connection.
ghost use Rattle.std.specs.Prelude.{◌≡◌, List, ℕ, length, IfOk};
ghost use Rattle.rules.specs.Tables.{lent};
ghost use Rattle.rules.specs.Calls.{opening};
ghost use Rattle.rules.specs.Checks.{precheck, check};
ghost use Rattle.refusal_numbers.specs.Numbers.{answer_number};

use allowance_table::Allowances;
use connection_table::ConnectionState;
use refusal_numbers::Refusal;

// All but the check of the allowance, of which an explanation tells more than whether it passes.
pub fn first_eight(
    connections: &[u8],
    leases: &[u8],
    allowances: &[u8],
    time: u64,
    connection: u64,
    reply_length: usize,
) -> Result<u8, Refusal>
    ensures number { (reply : List ℕ) → length reply ≡ reply_length
        → answer_number result ≡ precheck (lent connections.now leases.now allowances.now) (opening time connection reply) }
    ensures same { IfOk result (λ c. c ≡ connection) }
{
    let c = crate::first_three(connections, leases, allowances, time, connection)?;
    if connection_table::state(connections, c) != ConnectionState::Closed {
        return Err(Refusal::WrongState);
    }
    if reply_length < rules::LEAST_BUFFER {
        return Err(Refusal::WrongLengths);
    }
    Ok(c)
}

pub fn check(
    connections: &[u8],
    leases: &[u8],
    allowances: &[u8],
    time: u64,
    connection: u64,
    reply_length: usize,
) -> Result<u8, Refusal>
    ensures number { (reply : List ℕ) → length reply ≡ reply_length
        → answer_number result ≡ check (lent connections.now leases.now allowances.now) (opening time connection reply) }
    ensures same { IfOk result (λ c. c ≡ connection) }
{
    let c = first_eight(
        connections,
        leases,
        allowances,
        time,
        connection,
        reply_length,
    )?;
    let allowances = Allowances::new(allowances);
    crate::last(&allowances, time, c, rules::OPEN_COST)?;
    Ok(c)
}
