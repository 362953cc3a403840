// Why a close is answered as it is.
#![tactic(auto)]

ghost use Rattle.std.specs.Prelude.{◌≡◌, List, ℕ, length};
ghost use Rattle.rules.specs.Tables.{lent};
ghost use Rattle.rules.specs.Calls.{closing};
ghost use Rattle.rules.specs.Reasons.{explain};
ghost use Rattle.reasons.specs.Coded.{coded};

use reasons::{Named, Reason};

#[unsafe(no_mangle)]
pub extern "C" fn crondelith_explain_close(
    connections: &[u8],
    leases: &[u8],
    allowances: &[u8],
    time: u64,
    connection: u64,
    relay_length: u64,
) -> Reason
    ensures { (relay : List ℕ) → length relay ≡ relay_length
        → result ≡ coded (explain (lent connections.now leases.now allowances.now)
        (closing time connection relay)) }
{
    let checked = refusals::close::check(
        connections,
        leases,
        allowances,
        time,
        connection,
        relay_length as usize,
    );
    let check = refusal_numbers::answer_number(checked);
    reasons::without_headroom(check, Named::Nothing)
}
