// Why a message is answered as it is: the check that stops it, what decided a done lease or establish, and its headroom.
#![tactic(auto)]

ghost use Rattle.std.specs.Prelude.{◌≡◌, List, ℕ, ◌≤◌, ◌<◌, length, Ok};
ghost use Rattle.rules.specs.Tables.{lent};
ghost use Rattle.rules.specs.Calls.{message};
ghost use Rattle.rules.specs.Sizes.{connection_count, greatest_price};
ghost use Rattle.rules.specs.Checks.{precheck};
ghost use Rattle.rules.specs.Reasons.{explain};
ghost use Rattle.reasons.specs.Coded.{coded};
ghost use Rattle.message_refusal.specs.Assessed.{assessed_as, assessed};

use allowance_table::Allowances;
use message_refusal::Assessment;
use reasons::{Named, Reason};

mod naming; // what decided a message

// The reason of a message that has passed checks 1 to 8, by what they hand on.
fn judged(allowances: &Allowances, time: u64, m: &[u8], assessment: Assessment) -> Reason
    requires { (assessment.connection < connection_count) × (assessment.price ≤ greatest_price) }
    ensures { (cs ls random reply relay : List ℕ)
        → 0 ≡ precheck (lent cs ls allowances.now) (message time assessment.connection m.now random reply relay)
        → assessed_as (Ok assessment) m.now random
        ≡ assessed (lent cs ls allowances.now) time assessment.connection m.now random reply relay
        → result ≡ coded (explain (lent cs ls allowances.now) (message time assessment.connection m.now random reply relay)) }
{
    let check = refusal_numbers::answer_number(assessment.last);
    let decision = assessment.decision;
    let named = naming::decided(check, decision);
    if octets::byte(m, 0) == 9 {
        return reasons::without_headroom(check, named);
    }
    let partner = lease_table::partner_of(assessment.connection);
    let level = allowances.level(partner, time);
    reasons::with_headroom(check, named, level, assessment.price)
}

#[unsafe(no_mangle)]
pub extern "C" fn crondelith_explain_message(
    connections: &[u8],
    leases: &[u8],
    allowances: &[u8],
    time: u64,
    connection: u64,
    m: &[u8],
    random: &[u8],
    reply_length: u64,
    relay_length: u64,
) -> Reason
    ensures { (reply relay : List ℕ) → length reply ≡ reply_length → length relay ≡ relay_length
        → result ≡ coded (explain (lent connections.now leases.now allowances.now)
        (message time connection m.now random.now reply relay)) }
{
    let assessed = message_refusal::assess(
        connections,
        leases,
        allowances,
        time,
        connection,
        m,
        random,
        reply_length as usize,
        relay_length as usize,
    );
    match assessed {
        Err(refusal) => reasons::without_headroom(refusal.number(), Named::Nothing),
        Ok(assessment) => judged(&Allowances::new(allowances), time, m, assessment),
    }
}
