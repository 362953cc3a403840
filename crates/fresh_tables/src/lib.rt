// The tables of a fresh relay. Tables of the right size are required: check 1 comes before anything here is called.
#![tactic(auto)]

ghost use Rattle.std.specs.Prelude.{◌≡◌, ℕ, ◌*◌, ◌≤◌, length};
ghost use Rattle.octets.specs.Octets.{put};
ghost use Rattle.rules.specs.Sizes.{connections_size, leases_size, allowances_size};
ghost use Rattle.rules.specs.Tables.{records, fresh};

// Stores a row a number of times from the start of a table on.
fn fill_records(table: &mut [u8], row: &[u8], count: usize)
    requires { count * length row.now ≤ length table.old }
    ensures { table.new ≡ put table.old 0 (records count row.now) }
{
    for i in 0..count {
        octet_stores::copy(table, i * row.len(), row);
    }
}

pub fn fresh_connections(connections: &mut [u8])
    requires { length connections.old ≡ connections_size }
    ensures { (t term : ℕ) → connections.new ≡ (fresh t term).connections }
{
    let mut row = [0u8; rules::CONNECTION_BYTES];
    row[rules::PEER_AT] = rules::NOBODY;
    fill_records(connections, &row, rules::CONNECTION_COUNT);
}

pub fn fresh_leases(leases: &mut [u8])
    requires { length leases.old ≡ leases_size }
    ensures { (t term : ℕ) → leases.new ≡ (fresh t term).leases }
{
    let mut row = [0u8; rules::LEASE_BYTES];
    row[rules::HOLDER_AT] = rules::NOBODY;
    fill_records(leases, &row, rules::ROW_COUNT);
}

pub fn fresh_allowances(allowances: &mut [u8], time: u64, term: u64)
    requires { length allowances.old ≡ allowances_size }
    ensures { allowances.new ≡ (fresh time term).allowances }
{
    let kept = lease_terms::named_term(term);
    let mut row = [0u8; rules::ALLOWANCE_BYTES];
    octet_stores::write::<8>(&mut row, 0, allowance::CAPACITY);
    octet_stores::write::<8>(&mut row, rules::UPDATED_AT, time);
    fill_records(allowances, &row, rules::PARTNERS);
    octet_stores::write::<8>(allowances, rules::TERM_AT, kept);
    octet_stores::write::<8>(allowances, rules::CLOCK_AT, time);
}
