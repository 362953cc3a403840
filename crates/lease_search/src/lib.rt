// The searches over a partner's lease rows. Numbers in range are required: the relay's check 3 comes before anything here is called, and no
// answer would serve where it fails.
#![tactic(auto)]

ghost use Rattle.std.specs.Prelude.{◌≡◌, ◌<◌, ℕ, Bool};
ghost use Rattle.rules.specs.Sizes.{partners, connection_count, row_count};
ghost use Rattle.rules.specs.Searches.{first_own};
ghost use Rattle.rules.specs.Tables.{partner_of};
ghost use Rattle.rules.specs.Leases.{holds_row, cookie_taken, row_to_extend};
ghost use Rattle.rules.specs.Sessions.{row_of_id};
ghost use Rattle.lease_table.specs.Rows.{row_if_own};
ghost use Rattle.lease_search.specs.Searches.{Tests};

use lease_table::Leases;

// The partner's lowest row that is sought: of each row the closure tells whether it is. Of a closure whose `post` is no test nothing is promised.
pub fn first_own<F: Fn(usize) -> bool>(partner: usize, sought: F) -> Option<usize>
    requires in_range { partner < partners }
    requires callable { (row : ℕ) → row < row_count → F.pre sought row }
    ensures { (test : ℕ → Bool) → Tests (F.post sought) test
        → result ≡ row_if_own partner (first_own partner test) }
{
    let end = lease_table::end_row(partner);
    (rules::ROWS_PER_PARTNER * partner..end).find(
        |&row|
            requires { F.pre sought row }
        { sought(row) },
    )
}

// Whether a connection holds a live row.
pub fn holds_row(leases: &Leases, time: u64, c: u8) -> bool
    requires { c < connection_count }
    ensures { result ≡ holds_row leases.now time c }
{
    let partner = lease_table::partner_of(c);
    first_own(partner, |row| {
        leases.is_live(time, row) && leases.holder(row) == c
    })
    .is_some()
}

// Whether a live row of the partner has the cookie.
pub fn cookie_taken(leases: &Leases, time: u64, partner: usize, cookie: &[u8]) -> bool
    requires { partner < partners }
    ensures { result ≡ cookie_taken leases.now time partner cookie.now }
{
    first_own(partner, |row| {
        leases.is_live(time, row) && octet_comparisons::equal(leases.cookie_of(row), cookie)
    })
    .is_some()
}

// The lowest live row that a connection holds and that has the cookie.
pub fn row_to_extend(leases: &Leases, time: u64, c: u8, cookie: &[u8]) -> Option<usize>
    requires { c < connection_count }
    ensures { result ≡ row_if_own (partner_of c) (row_to_extend leases.now time c cookie.now) }
{
    let partner = lease_table::partner_of(c);
    first_own(partner, |row| {
        leases.is_live(time, row)
            && leases.holder(row) == c
            && octet_comparisons::equal(leases.cookie_of(row), cookie)
    })
}

// The partner's lowest live row that has the id.
pub fn row_of_id(leases: &Leases, time: u64, partner: usize, id: u32) -> Option<usize>
    requires { partner < partners }
    ensures { result ≡ row_if_own partner (row_of_id leases.now time partner id) }
{
    first_own(partner, |row| leases.is_live_with_id(time, id, row))
}
