// A message from a connection: refused, or carried out and charged.
#![tactic(auto)]

ghost use Rattle.std.specs.Prelude.{◌≡◌};
ghost use Rattle.octets.specs.Octets.{byte_at};
ghost use Rattle.rules.specs.Tables.{lent};
ghost use Rattle.rules.specs.Calls.{message, refusal as refused_with};
ghost use Rattle.journal.specs.Records.{record_with, answer_record};
ghost use Rattle.journal.specs.Steps.{step_recorded};
ghost use Rattle.refusal_numbers.specs.Numbers.{number_of};
ghost use Rattle.answers.specs.Applied.{coded};
ghost use Rattle.call_answers.specs.Returned.{answer_with, returned, as_returned};

use allowance_table::Allowances;
use call_answers::CallAnswer;
use refusal_numbers::Refusal;

// Refused: the record has the price that was compared, if one was.
fn refused(
    refusal: Refusal,
    map: u64,
    time: u64,
    connection: u64,
    m: &[u8],
    price: u64,
) -> CallAnswer
    ensures { result ≡ answer_with (coded (refused_with (number_of refusal))) map
        (answer_record (number_of refusal) (record_with (number_of refusal) time connection 1 (byte_at m.now 0) price)) }
{
    let number = refusal.number();
    let recorded = journal_records::message_record(number, time, connection, m, price);
    call_answers::refused(number, map, recorded)
}

#[unsafe(no_mangle)]
pub extern "C" fn crondelith_message(
    connections: &mut [u8],
    leases: &mut [u8],
    allowances: &mut [u8],
    map: u64,
    time: u64,
    connection: u64,
    m: &[u8],
    random: &[u8],
    reply: &mut [u8],
    relay: &mut [u8],
) -> CallAnswer
    ensures { returned result (lent connections.new leases.new allowances.new) reply.new
        relay.new
        ≡ as_returned (step_recorded (lent connections.old leases.old allowances.old) map
        (message time connection m.now random.now reply.old relay.old)) }
{
    let assessed = message_refusal::assess(
        connections,
        leases,
        allowances,
        time,
        connection,
        m,
        random,
        reply.len(),
        relay.len(),
    );
    let assessment = match assessed {
        Err(refusal) => return refused(refusal, map, time, connection, m, 0),
        Ok(assessment) => assessment,
    };
    let price = assessment.price;
    if let Err(refusal) = assessment.last {
        return refused(refusal, map, time, connection, m, price);
    }
    let c = assessment.connection;
    let decision = assessment.decision;
    let answer = dispatch::handle(
        connections,
        leases,
        &Allowances::new(allowances),
        time,
        c,
        decision,
        m,
        random,
        reply,
        relay,
    );
    keepalives::answered(connections, c);
    keepalives::sent(connections, time, c, answer);
    charges::settle(allowances, time, c, m, price);
    let recorded = journal_records::message_record(0, time, connection, m, price);
    call_answers::closed_if_disconnected(answer, map, c, recorded)
}
