// Leases: what was decided on a request, and on an extension, carried out. Sizes, numbers in range and the room in the buffer are what
// the checks have shown, and no answer would serve where they fail.
#![tactic(auto)]

ghost use Rattle.std.specs.Prelude.{◌≡◌, List, ℕ, length};
ghost use Rattle.rules.specs.Tables.{lent};
ghost use Rattle.rules.specs.Sizes.{random_bytes};
ghost use Rattle.rules.specs.Plans.{plan_lease, plan_extension};
ghost use Rattle.leases.specs.Leases.{meaning};
ghost use Rattle.answers.specs.Applied.{handled, applied};
ghost use Rattle.granting.specs.Asked.{Leasable};
ghost use Rattle.leasing.specs.Asked.{InRows};

use allowance_table::Allowances;
use answers::Answer;
use leases::{LeaseGrant, LeaseRefusal};

// Type 2.
#[tactic(auto, using(crate::proofs::Ways::refusing))]
pub fn lease(
    leases: &mut [u8],
    allowances: &Allowances,
    time: u64,
    c: u8,
    decision: Result<LeaseGrant, LeaseRefusal>,
    random: &[u8],
    reply: &mut [u8],
) -> Answer
    requires { (Leasable leases.old time c reply.old) × (length random.now ≡ random_bytes)
        × (InRows (meaning decision random.now)) }
    ensures { (cs relay : List ℕ) → handled result cs leases.new reply.new relay
        ≡ applied (plan_lease (lent cs leases.old allowances.now) time c (meaning decision random.now))
        reply.old relay }
{
    match decision {
        Ok(LeaseGrant::Renewed { row }) => granting::renew(leases, allowances, time, c, reply, row),
        Ok(LeaseGrant::New { row, id }) => granting::grant(
            leases, allowances, time, c, random, reply, row, id,
        ),
        Err(refusal) => granting::refuse(reply),
    }
}

// Type 4: the row, or the end of the partner's rows.
pub fn extend(
    leases: &mut [u8],
    allowances: &Allowances,
    time: u64,
    c: u8,
    row: usize,
    reply: &mut [u8],
) -> Answer
    requires { Leasable leases.old time c reply.old }
    ensures { (cs relay : List ℕ) → handled result cs leases.new reply.new relay
        ≡ applied (plan_extension (lent cs leases.old allowances.now) time c row) reply.old relay }
{
    if row < lease_table::end_row(lease_table::partner_of(c)) {
        let until = lease_terms::lease_end(allowances, time);
        lease_writes::extend(leases, row, until);
        let sent = svsc_lease_writers::svsc_write_extension_granted(reply, until).unwrap();
        return answers::replied(sent as u32);
    }
    let sent = svsc_lease_writers::svsc_write_extension_refused(reply).unwrap();
    answers::replied(sent as u32)
}
