// Which lease a request's cookie renews. Numbers in range are required: the relay's check 3 comes before anything here is called, and
// no answer would serve where it fails.
#![tactic(auto)]

ghost use Rattle.std.specs.Prelude.{◌≡◌, ◌&&◌, ◌<◌};
ghost use Rattle.rules.specs.Sizes.{partners, row_count};
ghost use Rattle.rules.specs.Tables.{live, holder_counts};
ghost use Rattle.rules.specs.Leases.{id_elsewhere, renewable, row_to_renew};
ghost use Rattle.lease_table.specs.Rows.{row_if_own};

use lease_table::Leases;

// Whether the row is live and has a holder that counts.
fn is_held(connections: &[u8], leases: &Leases, time: u64, row: usize) -> bool
    requires { row < row_count }
    ensures { result ≡ (live leases.now time row && holder_counts connections.now leases.now row) }
{
    let holder = leases.holder(row);
    leases.is_live(time, row) & holders::holder_counts(connections, row, holder)
}

// Whether another live row, of any partner, has the row's id.
fn id_elsewhere(leases: &Leases, time: u64, row: usize) -> bool
    requires { row < row_count }
    ensures { result ≡ id_elsewhere leases.now time row }
{
    let id = leases.id_of(row);
    (0..rules::ROW_COUNT).any(|other| other != row && leases.is_live_with_id(time, id, other))
}

// Whether a row may be renewed by this cookie. The id comes last: it is looked for in all rows.
fn is_renewable(connections: &[u8], leases: &Leases, time: u64, cookie: &[u8], row: usize) -> bool
    requires { row < row_count }
    ensures { result ≡ renewable connections.now leases.now time cookie.now row }
{
    octet_comparisons::equal(leases.cookie_of(row), cookie)
        && leases.expiry(row) != 0
        && !is_held(connections, leases, time, row)
        && !id_elsewhere(leases, time, row)
}

// The partner's lowest row that may be renewed by this cookie.
pub fn row_to_renew(
    connections: &[u8],
    leases: &Leases,
    time: u64,
    partner: usize,
    cookie: &[u8],
) -> Option<usize>
    requires { partner < partners }
    ensures { result ≡ row_if_own partner (row_to_renew connections.now leases.now time partner cookie.now) }
{
    lease_search::first_own(partner, |row| {
        is_renewable(connections, leases, time, cookie, row)
    })
}
