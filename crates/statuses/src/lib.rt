// Whether a session may be established: the status that refuses it, or the holder that it is with. Only reads.
// A connection in range is what the checks have shown, and no answer would serve where they fail.
#![tactic(auto)]

ghost use Rattle.std.specs.Prelude.{◌≡◌, ◌<◌};
ghost use Rattle.rules.specs.Sizes.{connection_count};
ghost use Rattle.rules.specs.Sessions.{decide_establish};
ghost use Rattle.statuses.specs.Decisions.{status_number, decided_as};

use lease_table::Leases;

// Why a session is refused, by the protocol's number. A holder that is the caller is its "other error".
#[derive(Clone, Copy)]
pub enum Status {
    IdNotFound = 1,
    HolderOffline = 2,
    HolderBusy = 3,
    CallerBusy = 4,
    HolderIsCaller = 5,
}

impl Status {
    pub fn number(self) -> u8
        ensures { result ≡ status_number self }
    {
        self as u8
    }
}

// The holder that the session is with, or the first status that applies.
pub fn decide(connections: &[u8], leases: &Leases, time: u64, c: u8, id: u32) -> Result<u8, Status>
    requires { c < connection_count }
    ensures { decided_as result ≡ decide_establish connections.now leases.now time c id }
{
    if session_records::has_session(connections, c) {
        return Err(Status::CallerBusy);
    }
    let partner = lease_table::partner_of(c);
    let Some(row) = lease_search::row_of_id(leases, time, partner, id) else {
        return Err(Status::IdNotFound);
    };
    let holder = leases.holder(row);
    if !holders::holder_counts(connections, row, holder) {
        return Err(Status::HolderOffline);
    }
    if holder == c {
        return Err(Status::HolderIsCaller);
    }
    if session_records::has_session(connections, holder) {
        return Err(Status::HolderBusy);
    }
    Ok(holder)
}
