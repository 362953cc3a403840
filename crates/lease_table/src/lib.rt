// The lease table: a partner's rows and their fields.
// Numbers in range are required where a field is read or a place worked out, and the size of a table of `Leases`: the relay's checks 1
// and 3 come before anything here is called, and no answer would serve where they fail.
#![tactic(auto)]

ghost use Rattle.std.specs.Prelude.{◌≡◌, ◌<◌, List, ℕ, length};
ghost use Rattle.rules.specs.Sizes.{partners, row_count, leases_size};
ghost use Rattle.rules.specs.Searches.{end_row};
ghost use Rattle.rules.specs.Tables.{partner_of, expiry, id_of, holder_at, holder, cookie_at, cookie_of, live, live_with_id};

use std::marker::Model;

// ---- partners and their rows

// The partner that a connection belongs to.
pub fn partner_of(c: u8) -> usize
    ensures { result ≡ partner_of c }
{
    connection_table::partner_of(c)
}

// The row behind the partner's last.
pub fn end_row(partner: usize) -> usize
    requires { partner < partners }
    ensures { result ≡ end_row partner }
{
    rules::ROWS_PER_PARTNER * partner + rules::ROWS_PER_PARTNER
}

// ---- the table and the fields of its rows

// Where a row's holder lies.
fn holder_at(row: usize) -> usize
    requires { row < row_count }
    ensures { result ≡ holder_at row }
{
    rules::LEASE_BYTES * row + rules::HOLDER_AT
}

// Where a row's cookie begins.
fn cookie_at(row: usize) -> usize
    requires { row < row_count }
    ensures { result ≡ cookie_at row }
{
    rules::LEASE_BYTES * row + rules::COOKIE_AT
}

// The connection that holds a row of a table of whatever size, or 255.
pub fn holder(bytes: &[u8], row: usize) -> u8
    requires { row < row_count }
    ensures { result ≡ holder bytes.now row }
{
    octets::byte(bytes, holder_at(row))
}

// The cookie of a row, of the same tables.
pub fn cookie_of(bytes: &[u8], row: usize) -> &[u8]
    requires { row < row_count }
    ensures { result.now ≡ cookie_of bytes.now row }
{
    octets::part(bytes, cookie_at(row), svsc::COOKIE)
}

// A lease table of the right size.
#[derive(Drop)]
pub struct Leases<'a> {
    bytes: &'a [u8],
}

impl<'a> Model for Leases<'a> {
    ghost Value = { List ℕ };

    ghost view = { λ leases. leases.bytes.now };

    ghost invariant = { λ leases. length leases.bytes.now ≡ leases_size };
}

impl<'a> Leases<'a> {
    pub fn new(bytes: &'a [u8]) -> Self
        requires { length bytes.now ≡ leases_size }
        ensures { result ≡ bytes.now }
    {
        Leases { bytes }
    }

    pub fn expiry(&self, row: usize) -> u64
        requires { row < row_count }
        ensures { result ≡ expiry self.now row }
    {
        octets::number::<8>(self.bytes, rules::LEASE_BYTES * row)
    }

    pub fn id_of(&self, row: usize) -> u32
        requires { row < row_count }
        ensures { result ≡ id_of self.now row }
    {
        octets::number::<4>(self.bytes, rules::LEASE_BYTES * row + rules::ID_AT) as u32
    }

    // The connection that holds the row, or 255. Searches call this and cookie_of: the size is known, so their loops compare no length.
    pub fn holder(&self, row: usize) -> u8
        requires { row < row_count }
        ensures { result ≡ holder self.now row }
    {
        self.bytes[holder_at(row)]
    }

    pub fn cookie_of(&self, row: usize) -> &[u8]
        requires { row < row_count }
        ensures { result.now ≡ cookie_of self.now row }
    {
        let at = cookie_at(row);
        &self.bytes[at..at + svsc::COOKIE]
    }

    pub fn is_live(&self, time: u64, row: usize) -> bool
        requires { row < row_count }
        ensures { result ≡ live self.now time row }
    {
        time < self.expiry(row)
    }

    // Whether the row is live and has the id. Live first: with the id first, a search over ended rows that have it took twice the time.
    pub fn is_live_with_id(&self, time: u64, id: u32, row: usize) -> bool
        requires { row < row_count }
        ensures { result ≡ live_with_id self.now time id row }
    {
        self.is_live(time, row) & (self.id_of(row) == id)
    }
}
