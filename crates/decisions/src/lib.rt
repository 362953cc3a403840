// What a message will do and what it costs, decided on shared slices before anything is written. Whoever acts on a decision searches
// nothing again.
// Sizes and numbers in range are what the checks have shown, and no answer would serve where they fail.
#![tactic(auto)]

ghost use Rattle.std.specs.Prelude.{◌≡◌, List, ℕ, ◌≤◌, ◌<◌, length, if◌then◌else◌};
ghost use Rattle.svsc.specs.Messages.{longest_message, decode};
ghost use Rattle.rules.specs.Sizes.{connection_count, random_bytes};
ghost use Rattle.rules.specs.Effects.{is_accepted};
ghost use Rattle.rules.specs.Decisions.{decide_message, extension_decided, session_decided};
ghost use Rattle.rules.specs.Prices.{sent_bytes};
ghost use Rattle.leases.specs.Leases.{meaning as leaseMeaning};
ghost use Rattle.statuses.specs.Decisions.{numbered_as};
ghost use Rattle.decisions.specs.Decided.{meaning, naming, price_of};

use lease_table::Leases;
use leases::{LeaseGrant, LeaseRefusal};
use statuses::Status;
use svsc_decoded::Decoded;

// The version answer; what was decided on a lease; the row to extend, or the end of the partner's rows; the id asked for and what was
// decided on a session with its holder; the other connection of the session that ends, or that the data goes to; or nothing.
// The status is a number, not a `Status`: `price` is promised for any (docs/STATEMENTS.md).
#[derive(Clone, Copy)]
pub enum Decision {
    AnswerVersion(u8),
    Lease(Result<LeaseGrant, LeaseRefusal>),
    Extend(usize),
    Establish(u32, Result<u8, u8>),
    EndSession(u8),
    SendData(u8),
    Nothing,
}

// Bytes of the messages that are sent.
const REFUSAL: u64 = 2; // of a lease, or of an extension

const LEASE: u64 = 38;

const EXTENSION: u64 = 10;

const STATUS: u64 = 6;

const SESSION: u64 = 103; // to the caller 54, and to the holder 49

const SESSION_END: u64 = 1;

// What a message does. `other` is the connection that check 8 found in session with the caller, for a type that needs one: it is named, and
// not looked up again.
pub fn decide(
    connections: &[u8],
    leases: &Leases,
    time: u64,
    c: u8,
    other: u8,
    m: &[u8],
    random: &[u8],
) -> Decision
    requires { (c < connection_count) × (length random.now ≡ random_bytes) }
    ensures { meaning result m.now random.now
        ≡ naming other (decide_message connections.now leases.now time c random.now
        (decode m.now)) }
{
    let Some(d) = svsc_reader::read(m) else {
        return Decision::Nothing;
    };
    match d {
        Decoded::VersionAnswer { ok } => Decision::AnswerVersion(ok),
        Decoded::LeaseRequest | Decoded::LeaseRequestWithCookie => {
            let cookie = octets::part(m, 2, svsc::COOKIE);
            let lease = leases::decide_lease(connections, leases, time, c, random, cookie);
            Decision::Lease(lease)
        }
        Decoded::ExtensionRequest => {
            let cookie = octets::part(m, 1, svsc::COOKIE);
            let row = lease_search::row_to_extend(leases, time, c, cookie);
            Decision::Extend(row.unwrap_or(lease_table::end_row(lease_table::partner_of(c))))
        }
        Decoded::EstablishRequest { id } => {
            let session = statuses::decide(connections, leases, time, c, id);
            Decision::Establish(id, session.map_err(Status::number))
        }
        Decoded::SessionEnd => Decision::EndSession(other),
        Decoded::DataSend => Decision::SendData(other),
        _ => Decision::Nothing,
    }
}

fn lease_bytes(lease: Result<LeaseGrant, LeaseRefusal>) -> u64
    ensures { (random : List ℕ) → result ≡ (if is_accepted (leaseMeaning lease random) then 38 else 2) }
{
    match lease {
        Ok(grant) => LEASE,
        Err(refusal) => REFUSAL,
    }
}

fn extension_bytes(c: u8, row: usize) -> u64
    requires { c < connection_count }
    ensures { result ≡ sent_bytes c (extension_decided row) }
{
    if row < lease_table::end_row(lease_table::partner_of(c)) {
        return EXTENSION;
    }
    REFUSAL
}

fn session_bytes(session: Result<u8, u8>) -> u64
    ensures { (c id : ℕ) → result ≡ sent_bytes c (session_decided id (numbered_as session)) }
{
    match session {
        Ok(holder) => SESSION,
        Err(status) => STATUS,
    }
}

// The bytes that go into both buffers.
fn sent_bytes(decision: Decision, c: u8, m: &[u8]) -> u64
    requires { (c < connection_count) × (1 ≤ length m.now) }
    ensures { (random : List ℕ) → result ≡ sent_bytes c (meaning decision m.now random) }
{
    match decision {
        Decision::AnswerVersion(ok) => 0,
        Decision::Lease(lease) => lease_bytes(lease),
        Decision::Extend(row) => extension_bytes(c, row),
        Decision::Establish(id, session) => session_bytes(session),
        Decision::EndSession(other) => SESSION_END,
        Decision::SendData(other) => m.len() as u64,
        Decision::Nothing => 0,
    }
}

// What a message costs: nothing, if it ends a session; else 32, its bytes and those that it sends.
pub fn price(decision: Decision, c: u8, m: &[u8]) -> u64
    requires { (c < connection_count) × (1 ≤ length m.now) × (length m.now ≤ longest_message) }
    ensures { (random : List ℕ) → result ≡ price_of c m.now (meaning decision m.now random) }
{
    if octets::byte(m, 0) == 9 {
        return 0;
    }
    rules::CALL_COST + m.len() as u64 + sent_bytes(decision, c, m)
}
