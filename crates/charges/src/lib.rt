// Paying for a call. Check 9 has shown that its partner has as much; no answer would serve where it hasn't.
#![tactic(auto)]

ghost use Rattle.std.specs.Prelude.{◌≡◌, List, ℕ};
ghost use Rattle.allowance.specs.Bucket.{spend};
ghost use Rattle.rules.specs.Tables.{partner_of, bucket_of, set_bucket, set_clock};
ghost use Rattle.rules.specs.Calls.{message};
ghost use Rattle.rules.specs.Charges.{charge};
ghost use Rattle.refusals.specs.Passed.{Payable};

use allowance_table::Allowances;

// Takes the cost from what the connection's partner has, and sets the clock.
pub fn pay(allowances: &mut [u8], time: u64, c: u8, cost: u64)
    requires { Payable allowances.old time c cost }
    ensures { allowances.new
        ≡ set_clock (set_bucket allowances.old (partner_of c) (spend (bucket_of allowances.old
        (partner_of c)) time cost)) time }
{
    let partner = connection_table::partner_of(c);
    let level = Allowances::new(allowances).level(partner, time);
    allowance_table::store(allowances, partner, level - cost, time);
    allowance_table::set_clock(allowances, time);
}

// Charges the message with its price, unless it ends a session, and sets the clock.
pub fn settle(allowances: &mut [u8], time: u64, c: u8, m: &[u8], price: u64)
    requires { Payable allowances.old time c price }
    ensures { (random reply relay : List ℕ) → allowances.new
        ≡ set_clock (charge allowances.old (message time c m.now random reply relay) price) time }
{
    if octets::byte(m, 0) == 9 {
        allowance_table::set_clock(allowances, time);
    } else {
        pay(allowances, time, c, price);
    }
}
