// Leases: the id of a new one, and what decides a request.
// Random bytes of the right size, and numbers in range, are required: the relay's checks 1, 2, 3 and 5 come before anything here
// is called, and no answer would serve where they fail.
#![tactic(auto)]

ghost use Rattle.std.specs.Prelude.{◌≡◌, List, ℕ, ◌<◌, length, Ok};
ghost use Rattle.rules.specs.Sizes.{partners, connection_count, candidate_count, random_bytes};
ghost use Rattle.rules.specs.Leases.{candidate, random_cookie, renew_or_grant, decide_lease};
ghost use Rattle.leases.specs.Leases.{condition_number, free_id, meaning};

use lease_table::Leases;

// Why a lease is refused: the first of the four conditions that fails, by its number.
#[derive(Clone, Copy)]
pub enum LeaseRefusal {
    HoldsLease = 1,
    NoSpareRow = 2,
    CookieInUse = 3,
    NoFreeId = 4,
}

impl LeaseRefusal {
    pub fn number(self) -> u32
        ensures { result ≡ condition_number self }
    {
        self as u32
    }
}

// How a lease is given: a row is renewed, or a new lease gets a row and an id.
#[derive(Clone, Copy)]
pub enum LeaseGrant {
    Renewed { row: usize },
    New { row: usize, id: u32 },
}

// Candidate k of the random bytes.
pub fn candidate(random: &[u8], k: usize) -> u32
    requires { (length random.now ≡ random_bytes) × (k < candidate_count) }
    ensures { result ≡ candidate random.now k }
{
    octets::number::<4>(random, svsc::COOKIE + rules::CANDIDATE_BYTES * k) as u32 % rules::ID_LIMIT
}

// The first of the candidates that no live row of any partner has, if there is one.
pub fn free_id(leases: &Leases, time: u64, random: &[u8]) -> Option<u32>
    requires { length random.now ≡ random_bytes }
    ensures { result ≡ free_id leases.now time random.now }
{
    'candidates: for k in 0..rules::CANDIDATE_COUNT {
        let id = candidate(random, k);
        for row in 0..rules::ROW_COUNT {
            if leases.is_live_with_id(time, id, row) {
                continue 'candidates;
            }
        }
        return Some(id);
    }
    None
}

// The lowest row that the cookie renews, or else the row and the id of a new lease.
fn renew_or_grant(
    connections: &[u8],
    leases: &Leases,
    time: u64,
    partner: usize,
    cookie: &[u8],
    row: usize,
    id: u32,
) -> LeaseGrant
    requires { partner < partners }
    ensures { (random : List ℕ) → meaning (Ok result) random
        ≡ renew_or_grant connections.now leases.now time partner cookie.now row id (random_cookie random) }
{
    if let Some(old) = renewals::row_to_renew(connections, leases, time, partner, cookie) {
        return LeaseGrant::Renewed { row: old };
    }
    LeaseGrant::New { row, id }
}

// The first condition that fails, each looked at only where the earlier ones hold; or what is renewed or granted. The cookie is
// the request's, no bytes if it has none; that of a new lease is the first bytes of the random ones.
pub fn decide_lease(
    connections: &[u8],
    leases: &Leases,
    time: u64,
    c: u8,
    random: &[u8],
    cookie: &[u8],
) -> Result<LeaseGrant, LeaseRefusal>
    requires { (c < connection_count) × (length random.now ≡ random_bytes) }
    ensures { meaning result random.now
        ≡ decide_lease connections.now leases.now time c random.now cookie.now }
{
    if lease_search::holds_row(leases, time, c) {
        return Err(LeaseRefusal::HoldsLease);
    }
    let partner = lease_table::partner_of(c);
    let Some(row) = spare_rows::spare_row(leases, time, partner) else {
        return Err(LeaseRefusal::NoSpareRow);
    };
    if lease_search::cookie_taken(leases, time, partner, octets::part(random, 0, svsc::COOKIE)) {
        return Err(LeaseRefusal::CookieInUse);
    }
    let id = free_id(leases, time, random).ok_or(LeaseRefusal::NoFreeId)?;
    Ok(renew_or_grant(connections, leases, time, partner, cookie, row, id))
}
