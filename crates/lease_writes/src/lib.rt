// What is written to the rows of leases: by a new lease, a renewal, an extension and a close. Numbers in range are required: the relay's checks come
// before anything here is called, and no answer would serve where they fail.
#![tactic(auto)]

ghost use Rattle.std.specs.Prelude.{◌≡◌, ◌<◌};
ghost use Rattle.rules.specs.Sizes.{connection_count, row_count};
ghost use Rattle.rules.specs.Tables.{set_expiry};
ghost use Rattle.rules.specs.Leases.{grant, renew, release};
ghost use Rattle.lease_writes.specs.Rows.{release_row};

// Writes a new lease to a row; bytes 13 to 15 stay.
pub fn grant(leases: &mut [u8], row: usize, until: u64, id: u32, cookie: &[u8], c: u8)
    requires { row < row_count }
    ensures { leases.new ≡ grant leases.old row until id cookie.now c }
{
    let at = rules::LEASE_BYTES * row;
    octet_stores::write::<8>(leases, at, until);
    octet_stores::write::<4>(leases, at + rules::ID_AT, id as u64);
    octet_stores::write8(leases, at + rules::HOLDER_AT, c);
    octet_stores::copy(leases, at + rules::COOKIE_AT, cookie);
}

// Writes when a lease ends.
pub fn extend(leases: &mut [u8], row: usize, until: u64)
    requires { row < row_count }
    ensures { leases.new ≡ set_expiry leases.old row until }
{
    octet_stores::write::<8>(leases, rules::LEASE_BYTES * row, until);
}

// Writes when a renewed lease ends, and who holds it; its id, its cookie and bytes 13 to 15 stay.
pub fn renew(leases: &mut [u8], row: usize, until: u64, c: u8)
    requires { row < row_count }
    ensures { leases.new ≡ renew leases.old row until c }
{
    extend(leases, row, until);
    octet_stores::write8(leases, rules::LEASE_BYTES * row + rules::HOLDER_AT, c);
}

// Takes a connection off a row, if it is the holder.
fn release_row(leases: &mut [u8], row: usize, c: u8)
    requires { row < row_count }
    ensures { leases.new ≡ release_row leases.old row c }
{
    if lease_table::holder(leases, row) == c {
        octet_stores::write8(
            leases,
            rules::LEASE_BYTES * row + rules::HOLDER_AT,
            rules::NOBODY,
        );
    }
}

// Takes a connection off its partner's rows. The leases run on.
pub fn release(leases: &mut [u8], c: u8)
    requires { c < connection_count }
    ensures { leases.new ≡ release leases.old c }
{
    let partner = lease_table::partner_of(c);
    for row in rules::ROWS_PER_PARTNER * partner..lease_table::end_row(partner) {
        release_row(leases, row, c);
    }
}
