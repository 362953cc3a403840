// What was decided on a message, carried out. Sizes, numbers in range and the room in the buffers are what the checks have shown, and no
// answer would serve where they fail.
#![tactic(auto)]

ghost use Rattle.std.specs.Prelude.{◌≡◌};
ghost use Rattle.rules.specs.Tables.{lent};
ghost use Rattle.rules.specs.Plans.{plan_decided};
ghost use Rattle.answers.specs.Applied.{handled, applied};
ghost use Rattle.decisions.specs.Decided.{meaning};
ghost use Rattle.dispatch.specs.Asked.{Admitted, Feasible};

use allowance_table::Allowances;
use answers::Answer;
use decisions::Decision;

// Acts on a decision, whichever it is: nothing is looked up again.
pub fn handle(
    connections: &mut [u8],
    leases: &mut [u8],
    allowances: &Allowances,
    time: u64,
    c: u8,
    decision: Decision,
    m: &[u8],
    random: &[u8],
    reply: &mut [u8],
    relay: &mut [u8],
) -> Answer
    requires { (Admitted leases.old time c m.now random.now reply.old relay.old)
        × (Feasible (meaning decision m.now random.now)) }
    ensures { handled result connections.new leases.new reply.new relay.new
        ≡ applied (plan_decided (lent connections.old leases.old allowances.now) time c
        random.now
        (meaning decision m.now random.now)) reply.old relay.old }
{
    match decision {
        Decision::AnswerVersion(ok) => sessions::answer_version(connections, c, ok),
        Decision::Lease(lease) => leasing::lease(leases, allowances, time, c, lease, random, reply),
        Decision::Extend(row) => leasing::extend(leases, allowances, time, c, row, reply),
        Decision::Establish(id, session) => establishing::establish(
            connections,
            c,
            id,
            session,
            random,
            reply,
            relay,
        ),
        Decision::EndSession(other) => sessions::end(connections, c, other, relay),
        Decision::SendData(other) => sessions::send(m, other, relay),
        Decision::Nothing => answers::sent_nothing(0),
    }
}
