// Why a keepalive is answered as it is.
#![tactic(auto)]

ghost use Rattle.std.specs.Prelude.{◌≡◌, List, ℕ, length};
ghost use Rattle.rules.specs.Tables.{lent};
ghost use Rattle.rules.specs.Calls.{keepalive};
ghost use Rattle.rules.specs.Reasons.{explain};
ghost use Rattle.reasons.specs.Coded.{coded};

use reasons::{Named, Reason};

#[unsafe(no_mangle)]
pub extern "C" fn crondelith_explain_keepalive(
    connections: &[u8],
    leases: &[u8],
    allowances: &[u8],
    time: u64,
    connection: u64,
    reply_length: u64,
    relay_length: u64,
) -> Reason
    ensures { (reply relay : List ℕ) → length reply ≡ reply_length → length relay ≡ relay_length
        → result ≡ coded (explain (lent connections.now leases.now allowances.now)
        (keepalive time connection reply relay)) }
{
    let checked = refusals::keepalive::check(
        connections,
        leases,
        allowances,
        time,
        connection,
        reply_length as usize,
        relay_length as usize,
    );
    let check = refusal_numbers::answer_number(checked);
    reasons::without_headroom(check, Named::Nothing)
}
