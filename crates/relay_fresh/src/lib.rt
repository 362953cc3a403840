// Making a fresh relay: refused, or each table written.
#![tactic(auto)]

ghost use Rattle.std.specs.Prelude.{◌≡◌, []};
ghost use Rattle.rules.specs.Tables.{lent};
ghost use Rattle.journal.specs.Steps.{start_recorded};
ghost use Rattle.call_answers.specs.Returned.{returned, as_returned};

use call_answers::CallAnswer;

#[unsafe(no_mangle)]
pub extern "C" fn crondelith_fresh(
    connections: &mut [u8],
    leases: &mut [u8],
    allowances: &mut [u8],
    map: u64,
    time: u64,
    term: u64,
) -> CallAnswer
    ensures { returned result (lent connections.new leases.new allowances.new) [] []
        ≡ as_returned (start_recorded (lent connections.old leases.old allowances.old) map time term) }
{
    let none = [0u8; journal_records::RECORD_BYTES];
    if let Err(refusal) = refusals::fresh::check(connections, leases, allowances, time, term) {
        return call_answers::refused(refusal.number(), map, none);
    }
    fresh_tables::fresh_connections(connections);
    fresh_tables::fresh_leases(leases);
    fresh_tables::fresh_allowances(allowances, time, term);
    call_answers::answered(answers::sent_nothing(0), 0, none)
}
