// The numbers of documents 01 and 02 that the relay's code uses, one place for each. The names are those of specs/Sizes.antt and specs/Tables.antt.
#![tactic(auto)]

// How many partners there are, and what each of them has.
pub const PARTNERS: usize = 8;

pub const CONNECTIONS_PER_PARTNER: usize = 8;

pub const ROWS_PER_PARTNER: usize = 16;

pub const CONNECTION_COUNT: usize = PARTNERS * CONNECTIONS_PER_PARTNER;

pub const ROW_COUNT: usize = PARTNERS * ROWS_PER_PARTNER;

pub const ALLOWANCE_COUNT: usize = PARTNERS + 1;

// The bytes of a record, and of a table.
pub const CONNECTION_BYTES: usize = 64;

pub const LEASE_BYTES: usize = 40;

pub const ALLOWANCE_BYTES: usize = 16;

pub const CONNECTIONS_SIZE: usize = CONNECTION_COUNT * CONNECTION_BYTES;

pub const LEASES_SIZE: usize = ROW_COUNT * LEASE_BYTES;

pub const ALLOWANCES_SIZE: usize = ALLOWANCE_COUNT * ALLOWANCE_BYTES;

// Where the fields of a record stand in it: of a connection the peer, whether a keepalive is unanswered, the times of the last
// message sent to it and of that keepalive, and session-id, peer-id and peer-key in a row;
pub const PEER_AT: usize = 1;

pub const UNANSWERED_AT: usize = 2;

pub const LAST_SENT_AT: usize = 4;

pub const KEEPALIVE_AT: usize = 9;

pub const KEYS_AT: usize = 16;

pub const KEYS_BYTES: usize = 48;

// of a lease the id, the holder and the cookie, behind the expiry;
pub const ID_AT: usize = 8;

pub const HOLDER_AT: usize = 12;

pub const COOKIE_AT: usize = 16;

// of an allowance the time of its last charge, behind the level. The last record is no allowance: it has the term of leases and the clock.
pub const UPDATED_AT: usize = 8;

pub const TERM_AT: usize = ALLOWANCE_BYTES * PARTNERS;

pub const CLOCK_AT: usize = TERM_AT + UPDATED_AT;

// The states of a connection.
pub const CLOSED: u8 = 0;

pub const AWAITING: u8 = 1;

pub const OPENED: u8 = 2;

// No connection: as a peer, a holder or a destination.
pub const NOBODY: u8 = 255;

// The first time that is refused.
pub const TIME_LIMIT: u64 = 1099511627776;

// After how many seconds without a message a connection is sent a keepalive, and after how many more without an answer it is dead.
pub const KEEPALIVE_TIMEOUT: u64 = 30;

pub const ANSWER_TIMEOUT: u64 = 60;

// The random bytes of a message call, and the least bytes of a buffer.
pub const RANDOM_BYTES: usize = 80;

pub const LEAST_BUFFER: usize = 64;

// What a call costs beside its bytes.
pub const CALL_COST: u64 = 32;

// What an open costs: that, and the bytes of the version message.
pub const OPEN_COST: u64 = 45;

// The seconds of a lease: where none is named, the fewest and the most that may be, and in tables from before there was a term.
pub const DEFAULT_TERM: u64 = 600;

pub const SHORTEST_TERM: u64 = 600;

pub const LONGEST_TERM: u64 = 86400;

pub const OLD_TERM: u64 = 3600;

// The candidates for a lease's id, their bytes, and the first number that is no id.
pub const CANDIDATE_COUNT: usize = 14;

pub const CANDIDATE_BYTES: usize = 4;

pub const ID_LIMIT: u32 = 67108864;
