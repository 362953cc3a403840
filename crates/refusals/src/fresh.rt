// Making a fresh relay.
ghost use Rattle.std.specs.Prelude.{◌≡◌};
ghost use Rattle.rules.specs.Tables.{lent};
ghost use Rattle.rules.specs.Checks.{check_start};
ghost use Rattle.refusal_numbers.specs.Numbers.{answer_number};

use refusal_numbers::Refusal;

// Checks 1 and 2, and then 6, of the term.
pub fn check(
    connections: &[u8],
    leases: &[u8],
    allowances: &[u8],
    time: u64,
    term: u64,
) -> Result<(), Refusal>
    ensures { answer_number result ≡ check_start (lent connections.now leases.now allowances.now) time term }
{
    if !checks::sized(connections, leases, allowances) {
        return Err(Refusal::WrongSizes);
    }
    if rules::TIME_LIMIT <= time {
        return Err(Refusal::WrongTime);
    }
    if lease_terms::is_wrong(term) {
        return Err(Refusal::Malformed);
    }
    Ok(())
}
