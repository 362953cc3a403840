// What the two replays of a journal share: what refuses them, whether a record contradicts the rules, the judging of all records over what either
// of them keeps, and their answer.
#![tactic(auto)]

ghost use Rattle.std.specs.Prelude.{◌≡◌, ◌<◌, ◌&&◌, ◌||◌, not, leb, ltb, if◌then◌else◌};
ghost use Rattle.rules.specs.Sizes.{partners, connection_count, time_limit};
ghost use Rattle.rules.specs.Tables.{partner_of};
ghost use Rattle.journal.specs.Records.{unrecorded, priced};
ghost use Rattle.journal.specs.Contradictions.{has_charge, is_free, contradicts};
ghost use Rattle.journal.specs.Replays.{Ledger, is_contradicted, advance, replay_from, check_replay};
ghost use Rattle.journal_records.specs.Items.{as_record};
ghost use Rattle.refusal_numbers.specs.Numbers.{answer_number};
ghost use Rattle.replay_parts.specs.Answers.{answer_of, verdict_of};
ghost use Rattle.replay_parts.specs.Settled.{Settleable};
ghost use Rattle.replay_parts.specs.Turns.{passes, taken};

use journal_records::{Call, Item, Record};
use refusal_numbers::Refusal;

// What a replay answers: 0 or what refuses it; 1 where the journal is contradicted, and the byte at which the first record that contradicts, or a
// short tail, begins.
#[repr(C)]
#[derive(Clone, Copy)]
pub struct Replayed {
    pub number: u32,
    pub contradicted: u32,
    pub place: u64,
}

pub fn refused(number: u32) -> Replayed
    ensures { result ≡ answer_of number 0 0 }
{
    Replayed {
        number,
        contradicted: 0,
        place: 0,
    }
}

pub fn agreed() -> Replayed
    ensures { result ≡ answer_of 0 0 0 }
{
    refused(0)
}

pub fn contradicted(place: usize) -> Replayed
    ensures { result ≡ answer_of 0 1 place }
{
    Replayed {
        number: 0,
        contradicted: 1,
        place: place as u64,
    }
}

// Checks 1 and 2 of a fresh start, of the one table that is lent, and then 6, of the term.
pub fn check(allowances: &[u8], time: u64, term: u64) -> Result<(), Refusal>
    ensures { answer_number result ≡ check_replay allowances.now time term }
{
    if allowances.len() != rules::ALLOWANCES_SIZE {
        return Err(Refusal::WrongSizes);
    }
    if rules::TIME_LIMIT <= time {
        return Err(Refusal::WrongTime);
    }
    if lease_terms::is_wrong(term) {
        return Err(Refusal::Malformed);
    }
    Ok(())
}

// Its connection, call number or answer is out of range.
fn is_out_of_range(made: Record) -> bool
    ensures { result ≡ (leb connection_count made.connection || leb 4 made.call
        || (unrecorded made.answer || ltb 9 made.answer)) }
{
    let unrecorded = journal_records::is_unrecorded(made.answer as u32);
    (rules::CONNECTION_COUNT as u8 <= made.connection)
        | (4 <= made.call)
        | (unrecorded | (9 < made.answer))
}

// Its time is past the limit or below that of the latest done record.
fn is_out_of_time(made: Record, clock: u64) -> bool
    ensures { result ≡ (leb time_limit made.time || ltb made.time clock) }
{
    (rules::TIME_LIMIT <= made.time) | (made.time < clock)
}

fn is_free(made: Record) -> bool
    ensures { result ≡ is_free (as_record made) }
{
    (made.call == Call::Close.number())
        | (made.call == Call::Keepalive.number())
        | ((made.call == Call::Message.number()) & (made.kind == 9))
}

// It has a charge that its call or its answer can't have.
fn is_wrongly_charged(made: Record) -> bool
    ensures { result ≡ (has_charge (as_record made) && (is_free (as_record made) || not (priced made.answer))) }
{
    let free = is_free(made);
    let priced = journal_records::is_priced(made.answer as u32);
    !(made.charge == 0) & (free | !priced)
}

// Whether a record contradicts the rules, where the latest done one has the time of the clock and the record's partner the level.
pub fn contradicts(made: Record, clock: u64, level: u64) -> bool
    ensures { result ≡ contradicts clock level (as_record made) }
{
    let range = is_out_of_range(made);
    let time = is_out_of_time(made, clock);
    let charged = is_wrongly_charged(made);
    let charge = made.charge as u64;
    range
        | time
        | charged
        | ((made.answer == 0) & (level < charge))
        | ((made.answer == 9) & (charge <= level))
}

// What a replay keeps from record to record: a ledger of the rules.
pub trait Ledger {
    ghost ledger: { Ledger Self };

    // The time of the latest done record.
    fn clock(&self) -> u64
        ensures { result ≡ ledger.clock self.now };

    // The partner whose connection it is. Each ledger works it out for itself, so that two of them share no arithmetic.
    fn partner(&self, connection: u8) -> usize
        ensures { result ≡ partner_of connection };

    // What a partner has at a time.
    fn level(&self, partner: usize, time: u64) -> u64
        requires { partner < partners }
        ensures { result ≡ ledger.level self.now partner time };

    // A done record is paid for and moves the clock. That it doesn't contradict is required: no answer would serve where it does.
    fn settle(&mut self, made: Record)
        requires { Settleable ledger self.old (as_record made) }
        ensures { self.new ≡ ledger.settle self.old (as_record made) };
}

// Whether the record contradicts the rules, after those before it.
fn is_contradicted<L: Ledger>(ledger: &L, made: Record) -> bool
    ensures { result ≡ is_contradicted L.ledger ledger.now (as_record made) }
{
    if rules::CONNECTION_COUNT as u8 <= made.connection {
        return true;
    }
    let partner = ledger.partner(made.connection);
    let level = ledger.level(partner, made.time);
    contradicts(made, ledger.clock(), level)
}

// A record that doesn't contradict is settled, if it is done.
fn take_record<L: Ledger>(ledger: &mut L, made: Record) -> bool
    ensures { (result ≡ not (is_contradicted L.ledger ledger.old (as_record made)))
        × (ledger.new ≡ (if result then advance L.ledger ledger.old (as_record made) else ledger.old)) }
{
    if is_contradicted(ledger, made) {
        return false;
    }
    let done = made.answer == 0;
    if done {
        ledger.settle(made);
    }
    true
}

// What stands at a place, if it is a record that doesn't contradict.
fn take<L: Ledger>(ledger: &mut L, journal: &[u8], place: usize) -> bool
    ensures { (result ≡ passes L.ledger journal.now place ledger.old)
        × (ledger.new ≡ taken L.ledger journal.now place ledger.old) }
{
    match journal_records::read(journal, place) {
        Item::Record(made) => take_record(ledger, made),
        Item::Tail => false,
        Item::End => false,
    }
}

// Where a journal contradicts the rules: the byte at which the first record that contradicts, or a short tail, begins.
#[derive(Clone, Copy)]
pub struct Contradiction {
    pub place: usize,
}

// All of a journal's records, one by one. Where it is contradicted nothing is said of the ledger, which its owner drops.
pub fn judge<L: Ledger>(ledger: &mut L, journal: &[u8]) -> Result<(), Contradiction>
    ensures { verdict_of result ledger.new ≡ replay_from L.ledger ledger.old journal.now }
{
    for place in (0..journal.len()).step_by(journal_records::RECORD_BYTES) {
        if !take(ledger, journal, place) {
            return Err(Contradiction { place });
        }
    }
    Ok(())
}
