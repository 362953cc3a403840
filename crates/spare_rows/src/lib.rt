// The row of a new lease. Numbers in range are required: the relay's check 3 comes before anything here is called, and no answer would serve
// where it fails.
#![tactic(auto)]

ghost use Rattle.std.specs.Prelude.{◌≡◌, ◌≤◌, ◌<◌};
ghost use Rattle.rules.specs.Sizes.{partners, row_count};
ghost use Rattle.rules.specs.Leases.{spare_row};
ghost use Rattle.lease_table.specs.Rows.{row_if_own};
ghost use Rattle.spare_rows.specs.Earliest.{earlier_of};

use lease_table::Leases;

// Of the row found so far (the end, if none is) and another behind it: the one that a new lease takes.
fn earlier_of(leases: &Leases, time: u64, end: usize, best: usize, row: usize) -> usize
    requires { (row < row_count) × (best ≤ end) × (end ≤ row_count) }
    ensures { result ≡ earlier_of leases.now time end best row }
{
    if leases.is_live(time, row) {
        return best;
    }
    if best == end {
        return row;
    }
    if leases.expiry(row) < leases.expiry(best) {
        return row;
    }
    best
}

// The partner's row with the earliest expiry among those that aren't live, the lowest on a tie.
pub fn spare_row(leases: &Leases, time: u64, partner: usize) -> Option<usize>
    requires { partner < partners }
    ensures { result ≡ row_if_own partner (spare_row leases.now time partner) }
{
    let end = lease_table::end_row(partner);
    let mut best = end;
    for row in rules::ROWS_PER_PARTNER * partner..end {
        best = earlier_of(leases, time, end, best, row);
    }
    if best != end {
        return Some(best);
    }
    None
}
