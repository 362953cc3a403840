// Why an open is answered as it is.
#![tactic(auto)]

ghost use Rattle.std.specs.Prelude.{◌≡◌, List, ℕ, length};
ghost use Rattle.rules.specs.Tables.{lent};
ghost use Rattle.rules.specs.Calls.{opening};
ghost use Rattle.rules.specs.Reasons.{explain};
ghost use Rattle.reasons.specs.Coded.{coded};

use allowance_table::Allowances;
use reasons::{Named, Reason};

#[unsafe(no_mangle)]
pub extern "C" fn crondelith_explain_open(
    connections: &[u8],
    leases: &[u8],
    allowances: &[u8],
    time: u64,
    connection: u64,
    reply_length: u64,
) -> Reason
    ensures { (reply : List ℕ) → length reply ≡ reply_length
        → result ≡ coded (explain (lent connections.now leases.now allowances.now)
        (opening time connection reply)) }
{
    let checked = refusals::open::first_eight(
        connections,
        leases,
        allowances,
        time,
        connection,
        reply_length as usize,
    );
    match checked {
        Err(refusal) => reasons::without_headroom(refusal.number(), Named::Nothing),
        Ok(c) => {
            let allowances = Allowances::new(allowances);
            let last = refusals::last(&allowances, time, c, rules::OPEN_COST);
            let check = refusal_numbers::answer_number(last);
            let level = allowances.level(lease_table::partner_of(c), time);
            reasons::with_headroom(check, Named::Nothing, level, rules::OPEN_COST)
        }
    }
}
