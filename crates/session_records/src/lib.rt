// The sessions in the connection table: who is in session with whom, and what both records hold of it. Random bytes of the right length are
// required: check 5 comes before they are used.
#![tactic(auto)]

ghost use Rattle.std.specs.Prelude.{◌≡◌, ◌++◌, length};
ghost use Rattle.svsc.specs.Messages.{key_bytes};
ghost use Rattle.rules.specs.Sizes.{random_bytes};
ghost use Rattle.rules.specs.Tables.{peer, in_session, has_session};
ghost use Rattle.rules.specs.Sessions.{join, leave, end_session, establish};

use connection_table::{connection_at, partner_of};

// The connection that a connection names as its peer.
pub fn peer(connections: &[u8], c: u8) -> u8
    ensures { result ≡ peer connections.now c }
{
    octets::byte(connections, connection_at(c) + rules::PEER_AT)
}

// Whether two connections are in session: of one partner, not the same, both open, each naming the other.
#[tactic(auto, unfolding(rules::specs::Tables::in_session))]
pub fn in_session(connections: &[u8], c: u8, d: u8) -> bool
    ensures { result ≡ in_session connections.now c d }
{
    (partner_of(c) == partner_of(d))
        & ((c != d)
            & connection_table::is_open(connections, c)
            & connection_table::is_open(connections, d)
            & (peer(connections, c) == d)
            & (peer(connections, d) == c))
}

// Whether a connection has a session: it can only be with the one that it names.
#[tactic(auto, unfolding(rules::specs::Tables::has_session))]
pub fn has_session(connections: &[u8], c: u8) -> bool
    ensures { result ≡ has_session connections.now c }
{
    in_session(connections, c, peer(connections, c))
}

// Writes the other's number, the session id and the pair of peer id and key into a record.
fn join(connections: &mut [u8], c: u8, other: u8, session: &[u8], pair: &[u8])
    requires { length session.now ≡ key_bytes }
    ensures { connections.new
        ≡ join connections.old c other (session.now ++ pair.now) }
{
    let at = connection_at(c);
    octet_stores::write8(connections, at + rules::PEER_AT, other);
    octet_stores::copy(connections, at + rules::KEYS_AT, session);
    octet_stores::copy(connections, at + rules::KEYS_AT + svsc::KEY, pair);
}

// Joins the caller and the holder: one session id, and to each its own pair.
pub fn establish(connections: &mut [u8], c: u8, holder: u8, random: &[u8])
    requires { length random.now ≡ random_bytes }
    ensures { connections.new ≡ establish connections.old c holder random.now }
{
    join(connections, c, holder, &random[0..16], &random[16..48]);
    join(connections, holder, c, &random[0..16], &random[48..80]);
}

// Takes the session out of a record.
fn leave(connections: &mut [u8], c: u8)
    ensures { connections.new ≡ leave connections.old c }
{
    let at = connection_at(c);
    octet_stores::write8(connections, at + rules::PEER_AT, rules::NOBODY);
    octet_stores::fill(connections, at + rules::KEYS_AT, rules::KEYS_BYTES, 0);
}

// Takes the session out of both records.
#[tactic(auto, unfolding(rules::specs::Sessions::end_session))]
pub fn end_session(connections: &mut [u8], c: u8, d: u8)
    ensures { connections.new ≡ end_session connections.old c d }
{
    leave(connections, c);
    leave(connections, d);
}
