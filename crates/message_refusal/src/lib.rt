// The checks of a message in their order, what it will do, and its price. They only read, and of a buffer they get the length.
#![tactic(auto)]

ghost use Rattle.std.specs.Prelude.{◌≡◌, List, ℕ, length, IfOk};
ghost use Rattle.rules.specs.Tables.{lent};
ghost use Rattle.rules.specs.Calls.{message};
ghost use Rattle.rules.specs.Checks.{precheck};
ghost use Rattle.refusal_numbers.specs.Numbers.{answer_number};
ghost use Rattle.message_refusal.specs.Own.{own_checks, session_check, found};
ghost use Rattle.message_refusal.specs.Assessed.{assessed_as, assessed};

use allowance_table::Allowances;
use connection_table::ConnectionState;
use decisions::Decision;
use lease_table::Leases;
use refusal_numbers::Refusal;

// What is known of a message that passes checks 1 to 8, before anything is written: its connection, its price, what it will do, and whether
// check 9 stops it.
#[derive(Clone, Copy)]
pub struct Assessment {
    pub connection: u8,
    pub price: u64,
    pub decision: Decision,
    pub last: Result<(), Refusal>,
}

// A message that passes checks 1 to 8: its connection, and the one that check 8 found in session with it, if its type needs one. For types 9
// and 11 the session is looked up here and nowhere else: whoever needs the other connection is handed this.
#[derive(Clone, Copy)]
struct Passed {
    c: u8,
    peer: Option<u8>,
}

// Checks 4 to 7.
fn own_checks(
    connections: &[u8],
    c: u8,
    m: &[u8],
    random: &[u8],
    reply_length: usize,
    relay_length: usize,
) -> Result<(), Refusal>
    ensures { (time : ℕ) (reply relay : List ℕ) → length reply ≡ reply_length → length relay ≡ relay_length
        → answer_number result ≡ own_checks connections.now (message time c m.now random.now reply relay) }
{
    let state = connection_table::state(connections, c);
    if state == ConnectionState::Closed {
        return Err(Refusal::WrongState);
    }
    if checks::are_wrong_lengths(m, random, reply_length, relay_length) {
        return Err(Refusal::WrongLengths);
    }
    if !svsc_reader::from_peer(m) {
        return Err(Refusal::Malformed);
    }
    if !checks::is_permitted(state.number(), octets::byte(m, 0)) {
        return Err(Refusal::NotPermitted);
    }
    Ok(())
}

// Check 8: the one look-up, of a type that needs a session.
fn session(connections: &[u8], c: u8, kind: u8) -> Result<Option<u8>, Refusal>
    ensures { result ≡ session_check connections.now c kind }
{
    if !checks::needs_session(kind) {
        return Ok(None);
    }
    let peer = session_records::peer(connections, c);
    if !session_records::in_session(connections, c, peer) {
        return Err(Refusal::NoSession);
    }
    Ok(Some(peer))
}

// Checks 1 to 8.
fn first_eight(
    connections: &[u8],
    leases: &[u8],
    allowances: &[u8],
    time: u64,
    connection: u64,
    m: &[u8],
    random: &[u8],
    reply_length: usize,
    relay_length: usize,
) -> Result<Passed, Refusal>
    ensures number { (reply relay : List ℕ) → length reply ≡ reply_length → length relay ≡ relay_length
        → answer_number result ≡ precheck (lent connections.now leases.now allowances.now)
        (message time connection m.now random.now reply relay) }
    ensures same { IfOk result (λ p. p.c ≡ connection) }
    ensures peer { IfOk result (λ p. p.peer ≡ found connections.now connection m.now) }
{
    let c = refusals::first_three(connections, leases, allowances, time, connection)?;
    own_checks(connections, c, m, random, reply_length, relay_length)?;
    let peer = session(connections, c, octets::byte(m, 0))?;
    Ok(Passed { c, peer })
}

// Checks 1 to 8, then the decision, then its price, then check 9.
pub fn assess(
    connections: &[u8],
    leases: &[u8],
    allowances: &[u8],
    time: u64,
    connection: u64,
    m: &[u8],
    random: &[u8],
    reply_length: usize,
    relay_length: usize,
) -> Result<Assessment, Refusal>
    ensures eight { (reply relay : List ℕ) → length reply ≡ reply_length → length relay ≡ relay_length
        → answer_number result ≡ precheck (lent connections.now leases.now allowances.now)
        (message time connection m.now random.now reply relay) }
    ensures same { IfOk result (λ a. a.connection ≡ connection) }
    ensures all { (reply relay : List ℕ) → length reply ≡ reply_length → length relay ≡ relay_length
        → assessed_as result m.now random.now
        ≡ assessed (lent connections.now leases.now allowances.now) time connection
        m.now random.now reply relay }
{
    let passed = first_eight(
        connections,
        leases,
        allowances,
        time,
        connection,
        m,
        random,
        reply_length,
        relay_length,
    )?;
    let c = passed.c;
    let other = passed.peer.unwrap_or(rules::NOBODY);
    let leases = Leases::new(leases);
    let decision = decisions::decide(connections, &leases, time, c, other, m, random);
    let price = decisions::price(decision, c, m);
    Ok(Assessment {
        connection: c,
        price,
        decision,
        last: refusals::last(&Allowances::new(allowances), time, c, price),
    })
}
