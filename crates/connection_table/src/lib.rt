// The connection table: the state of each connection, and the records of those who open and close. A connection is a byte, so that the
// place of its record never overflows.
#![tactic(auto)]

ghost use Rattle.std.specs.Prelude.{◌≡◌};
ghost use Rattle.rules.specs.Tables.{connection_at, partner_of, state, is_open, set_state, opened};
ghost use Rattle.rules.specs.Sessions.{clear, await};
ghost use Rattle.connection_table.specs.States.{state_number};

// Where the record of a connection stands in the table.
pub fn connection_at(c: u8) -> usize
    ensures { result ≡ connection_at c }
{
    rules::CONNECTION_BYTES * c as usize
}

// The partner whose connection it is.
pub fn partner_of(c: u8) -> usize
    ensures { result ≡ partner_of c }
{
    c as usize / rules::CONNECTIONS_PER_PARTNER
}

// The state of a connection, by its byte in the record.
#[derive(Clone, Copy, PartialEq, Eq)]
pub enum ConnectionState {
    Closed = 0,
    Awaiting = 1,
    Open = 2,
}

impl ConnectionState {
    pub fn number(self) -> u8
        ensures { result ≡ state_number self }
    {
        self as u8
    }
}

// The state of a connection; a byte above 2 reads as closed.
#[tactic(auto, unfolding(rules::specs::Tables::state))]
pub fn state(connections: &[u8], c: u8) -> ConnectionState
    ensures { state_number result ≡ state connections.now c }
{
    match octets::byte(connections, connection_at(c)) {
        1 => ConnectionState::Awaiting,
        2 => ConnectionState::Open,
        _ => ConnectionState::Closed,
    }
}

pub fn is_open(connections: &[u8], c: u8) -> bool
    ensures { result ≡ is_open connections.now c }
{
    state(connections, c) == ConnectionState::Open
}

// Puts a record back to fresh.
#[tactic(auto, unfolding(rules::specs::Sessions::clear))]
pub fn clear(connections: &mut [u8], c: u8)
    ensures { connections.new ≡ clear connections.old c }
{
    let mut record = [0u8; rules::CONNECTION_BYTES];
    record[rules::PEER_AT] = rules::NOBODY;
    octet_stores::copy(connections, connection_at(c), &record);
}

fn set_state(connections: &mut [u8], c: u8, state: ConnectionState)
    ensures { connections.new ≡ set_state connections.old c (state_number state) }
{
    octet_stores::write8(connections, connection_at(c), state.number());
}

// The record of a connection that has been opened and awaits the version answer.
pub fn await_version(connections: &mut [u8], c: u8)
    ensures { connections.new ≡ await connections.old c }
{
    clear(connections, c);
    set_state(connections, c, ConnectionState::Awaiting);
}

pub fn set_open(connections: &mut [u8], c: u8)
    ensures { connections.new ≡ set_state connections.old c opened }
{
    set_state(connections, c, ConnectionState::Open);
}
