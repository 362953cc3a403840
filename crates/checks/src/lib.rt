// Single checks, of which a call has some: what each looks at. They only read. What a call is refused with, crates `refusals` and
// `message_refusal` say.
#![tactic(auto)]

ghost use Rattle.std.specs.Prelude.{◌≡◌, ◌||◌, List, ℕ, max, length, ltb};
ghost use Rattle.rules.specs.Tables.{lent, sized, clock};
ghost use Rattle.rules.specs.Calls.{message};
ghost use Rattle.rules.specs.Checks.{past_limit, wrong_lengths, permits, needs_session};

use allowance_table::Allowances;

// 1: whether the tables have their sizes.
pub fn sized(connections: &[u8], leases: &[u8], allowances: &[u8]) -> bool
    ensures { result ≡ sized (lent connections.now leases.now allowances.now) }
{
    (connections.len() == rules::CONNECTIONS_SIZE)
        & (leases.len() == rules::LEASES_SIZE)
        & (allowances.len() == rules::ALLOWANCES_SIZE)
}

// 2: whether the time is past the limit or below the latest.
pub fn is_wrong_time(allowances: &Allowances, time: u64) -> bool
    ensures { result ≡ (past_limit time || ltb time (clock allowances.now)) }
{
    let clock = allowances.clock();
    (rules::TIME_LIMIT <= time) | (time < clock)
}

// 5, of a message: its random bytes, and both buffers by their lengths.
pub fn are_wrong_lengths(m: &[u8], random: &[u8], reply_length: usize, relay_length: usize) -> bool
    ensures { (time c : ℕ) (reply relay : List ℕ) → length reply ≡ reply_length → length relay ≡ relay_length
        → result ≡ wrong_lengths (message time c m.now random.now reply relay) }
{
    let least = rules::LEAST_BUFFER.max(m.len());
    (random.len() != rules::RANDOM_BYTES)
        | (reply_length < rules::LEAST_BUFFER)
        | (relay_length < least)
}

const YES: bool = true;

const NO: bool = false;

// 7: which type may come in which state: closed, awaiting the version answer, open.
const PERMITTED: [[bool; 14]; 3] = [
    [NO, NO, NO, NO, NO, NO, NO, NO, NO, NO, NO, NO, NO, NO],
    [NO, YES, NO, NO, NO, NO, NO, NO, NO, NO, NO, NO, NO, NO],
    [NO, NO, YES, NO, YES, NO, YES, NO, NO, YES, NO, YES, NO, YES],
];

pub fn is_permitted(state: u8, kind: u8) -> bool
    ensures { result ≡ permits state kind }
{
    let s = state as usize;
    let k = kind as usize;
    if s < 3 {
        if k < 14 {
            return PERMITTED[s][k];
        }
    }
    false
}

// For 8: whether the type needs a session.
pub fn needs_session(kind: u8) -> bool
    ensures { result ≡ needs_session kind }
{
    (kind == 9) | (kind == 11)
}
