// What decided a message.
ghost use Rattle.std.specs.Prelude.{◌≡◌, List, ℕ, eqb, if◌then◌else◌};
ghost use Rattle.rules.specs.Reasons.{condition_of, status_of, undecided};
ghost use Rattle.leases.specs.Leases.{meaning as leaseMeaning};
ghost use Rattle.statuses.specs.Decisions.{numbered_as};
ghost use Rattle.reasons.specs.Coded.{named};
ghost use Rattle.decisions.specs.Decided.{meaning};
ghost use Rattle.explain_message.specs.Naming.{decided_by};

use decisions::Decision;
use leases::{LeaseGrant, LeaseRefusal};
use reasons::Named;

// The number of the first condition that fails, in 01's order; 0 if all hold.
fn condition_of(decision: Result<LeaseGrant, LeaseRefusal>) -> u32
    ensures { (random : List ℕ) → result ≡ condition_of (leaseMeaning decision random) }
{
    match decision {
        Ok(grant) => 0,
        Err(refusal) => refusal.number(),
    }
}

// The number of the status that refuses; 0 if none does.
fn status_of(decision: Result<u8, u8>) -> u32
    ensures { result ≡ status_of (numbered_as decision) }
{
    match decision {
        Ok(holder) => 0,
        Err(status) => u32::from(status),
    }
}

// What a decision on a lease or on a session was.
fn named(decision: Decision) -> Named
    ensures { (m random : List ℕ) → result ≡ named (decided_by (meaning decision m random)) }
{
    match decision {
        Decision::Lease(lease) => Named::Lease {
            condition: condition_of(lease),
        },
        Decision::Establish(id, session) => Named::Session {
            status: status_of(session),
        },
        _ => Named::Nothing,
    }
}

// What decided a message that is answered with this number, 0 or 9: nothing, if it is not done.
pub fn decided(number: u32, decision: Decision) -> Named
    ensures { (m random : List ℕ)
        → result ≡ named (if eqb number 0 then decided_by (meaning decision m random) else undecided) }
{
    if number != 0 {
        return Named::Nothing;
    }
    named(decision)
}
