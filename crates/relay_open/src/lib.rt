// Opening a connection: refused, or accepted.
#![tactic(auto)]

ghost use Rattle.std.specs.Prelude.{◌≡◌, List, [], ℕ, ◌≤◌, length};
ghost use Rattle.rules.specs.Tables.{lent};
ghost use Rattle.rules.specs.Sizes.{open_cost, least_buffer};
ghost use Rattle.rules.specs.Calls.{opening};
ghost use Rattle.rules.specs.Plans.{plan};
ghost use Rattle.rules.specs.Step.{done};
ghost use Rattle.journal.specs.Steps.{step_recorded};
ghost use Rattle.answers.specs.Results.{call_result, shown};
ghost use Rattle.refusals.specs.Passed.{Payable};
ghost use Rattle.call_answers.specs.Returned.{returned, as_returned};

use answers::Answer;
use call_answers::CallAnswer;

// The work of an open that passes its checks.
fn accept(
    connections: &mut [u8],
    allowances: &mut [u8],
    time: u64,
    c: u8,
    reply: &mut [u8],
) -> Answer
    requires { (Payable allowances.old time c open_cost) × (least_buffer ≤ length reply.old) }
    ensures { (ls : List ℕ) → call_result result (lent connections.new ls allowances.new) reply.new []
        ≡ shown (done (lent connections.old ls allowances.old) (opening time c reply.old)
        (plan (lent connections.old ls allowances.old) (opening time c reply.old))) }
{
    connection_table::await_version(connections, c);
    charges::pay(allowances, time, c, rules::OPEN_COST);
    let sent = svsc_version_writers::svsc_write_version(reply, 1, 0).unwrap();
    let answer = answers::replied(sent as u32);
    keepalives::sent(connections, time, c, answer);
    answer
}

#[unsafe(no_mangle)]
pub extern "C" fn crondelith_open(
    connections: &mut [u8],
    leases: &mut [u8],
    allowances: &mut [u8],
    map: u64,
    time: u64,
    connection: u64,
    reply: &mut [u8],
) -> CallAnswer
    ensures { returned result (lent connections.new leases.new allowances.new) reply.new []
        ≡ as_returned (step_recorded (lent connections.old leases.old allowances.old) map
        (opening time connection reply.old)) }
{
    let checked = refusals::open::check(
        connections,
        leases,
        allowances,
        time,
        connection,
        reply.len(),
    );
    match checked {
        Err(refusal) => {
            let number = refusal.number();
            let recorded = journal_records::open_record(number, time, connection);
            call_answers::refused(number, map, recorded)
        }
        Ok(c) => {
            let answer = accept(connections, allowances, time, c, reply);
            let recorded = journal_records::open_record(0, time, connection);
            call_answers::opened(answer, map, c, recorded)
        }
    }
}
