// Who holds a lease row.
#![tactic(auto)]

ghost use Rattle.std.specs.Prelude.{◌≡◌, ◌&&◌, eqb};
ghost use Rattle.rules.specs.Tables.{partner_of, owner_of, is_open};

// Whether the holder of a row counts: an open connection of the row's partner.
pub fn holder_counts(connections: &[u8], row: usize, holder: u8) -> bool
    ensures { result ≡ (eqb (partner_of holder) (owner_of row) && is_open connections.now holder) }
{
    (connection_table::partner_of(holder) == row / rules::ROWS_PER_PARTNER)
        & connection_table::is_open(connections, holder)
}
