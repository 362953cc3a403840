// Closing a connection: refused, or accepted.
#![tactic(auto)]

ghost use Rattle.std.specs.Prelude.{◌≡◌, [], ◌≤◌, ◌<◌, length};
ghost use Rattle.rules.specs.Tables.{lent};
ghost use Rattle.rules.specs.Sizes.{connection_count, least_buffer};
ghost use Rattle.rules.specs.Calls.{closing};
ghost use Rattle.rules.specs.Plans.{plan};
ghost use Rattle.rules.specs.Step.{done};
ghost use Rattle.journal.specs.Steps.{step_recorded};
ghost use Rattle.answers.specs.Results.{call_result, shown};
ghost use Rattle.call_answers.specs.Returned.{returned, as_returned};

use answers::Answer;
use call_answers::CallAnswer;

// The work of a close that passes its checks: what ends, who is told, and the clock.
fn accept(
    connections: &mut [u8],
    leases: &mut [u8],
    allowances: &mut [u8],
    time: u64,
    c: u8,
    relay: &mut [u8],
) -> Answer
    requires { (c < connection_count) × (least_buffer ≤ length relay.old) }
    ensures { call_result result (lent connections.new leases.new allowances.new) [] relay.new
        ≡ shown (done (lent connections.old leases.old allowances.old) (closing time c
        relay.old)
        (plan (lent connections.old leases.old allowances.old) (closing time c relay.old))) }
{
    let answer = closing::close(connections, leases, c, relay);
    keepalives::sent(connections, time, c, answer);
    allowance_table::set_clock(allowances, time);
    answer
}

#[unsafe(no_mangle)]
pub extern "C" fn crondelith_close(
    connections: &mut [u8],
    leases: &mut [u8],
    allowances: &mut [u8],
    map: u64,
    time: u64,
    connection: u64,
    relay: &mut [u8],
) -> CallAnswer
    ensures { returned result (lent connections.new leases.new allowances.new) [] relay.new
        ≡ as_returned (step_recorded (lent connections.old leases.old allowances.old) map
        (closing time connection relay.old)) }
{
    let checked = refusals::close::check(
        connections,
        leases,
        allowances,
        time,
        connection,
        relay.len(),
    );
    match checked {
        Err(refusal) => {
            let number = refusal.number();
            let recorded = journal_records::close_record(number, time, connection);
            call_answers::refused(number, map, recorded)
        }
        Ok(c) => {
            let answer = accept(connections, leases, allowances, time, c, relay);
            let recorded = journal_records::close_record(0, time, connection);
            call_answers::closed(answer, map, c, recorded)
        }
    }
}
