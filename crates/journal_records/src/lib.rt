// Records of the journal: read at a place, and written.
#![tactic(auto)]

ghost use Rattle.std.specs.Prelude.{◌≡◌, ◌+◌, ◌≤◌, length, if◌then◌else◌};
ghost use Rattle.octets.specs.Octets.{byte_at};
ghost use Rattle.rules.specs.Sizes.{open_cost};
ghost use Rattle.journal.specs.Records.{record_bytes, record_at, unrecorded, priced, record_with, answer_record};
ghost use Rattle.journal_records.specs.Items.{as_record, item_at};
ghost use Rattle.journal_records.specs.Calls.{number_of};

pub const RECORD_BYTES: usize = 16;

// The calls, by the number that a record has.
#[derive(Clone, Copy)]
pub enum Call {
    Open = 0,
    Message = 1,
    Close = 2,
    Keepalive = 3,
}

impl Call {
    pub fn number(self) -> u8
        ensures { result ≡ number_of self }
    {
        self as u8
    }
}

// A record as it was read: its call is a number, since a damaged one has any.
#[derive(Clone, Copy)]
pub struct Record {
    pub time: u64,
    pub connection: u8,
    pub call: u8,
    pub kind: u8,
    pub answer: u8,
    pub charge: u32,
}

// What stands at a place of a journal: a record, fewer bytes than a record has, or nothing. Not an Option of a Result, since a reader tells all
// three.
#[derive(Clone, Copy)]
pub enum Item {
    Record(Record),
    Tail,
    End,
}

// The record at a place. A leaf with a requires: its caller knows that the bytes are there.
fn record_at(journal: &[u8], place: usize) -> Record
    requires { place + record_bytes ≤ length journal.now }
    ensures { as_record result ≡ record_at journal.now place }
{
    Record {
        time: octets::number::<8>(journal, place),
        connection: octets::byte(journal, place + 8),
        call: octets::byte(journal, place + 9),
        kind: octets::byte(journal, place + 10),
        answer: octets::byte(journal, place + 11),
        charge: octets::number::<4>(journal, place + 12) as u32,
    }
}

// What stands at any place.
pub fn read(journal: &[u8], place: usize) -> Item
    ensures { result ≡ item_at journal.now place }
{
    if journal.len() <= place {
        return Item::End;
    }
    let short = journal.len() - place < RECORD_BYTES;
    if short {
        return Item::Tail;
    }
    Item::Record(record_at(journal, place))
}

// Answers 1 to 3, which are not in the journal.
pub fn is_unrecorded(number: u32) -> bool
    ensures { result ≡ unrecorded number }
{
    (1..=3).contains(&number)
}

// Answers 0 and 9, which have a charge.
pub fn is_priced(number: u32) -> bool
    ensures { result ≡ priced number }
{
    (number == 0) | (number == 9)
}

// The record of a call, as its answer has it: the number that it is answered with, and the price that check 9 compares.
fn record_of(
    number: u32,
    time: u64,
    connection: u64,
    call: Call,
    kind: u8,
    price: u64,
) -> [u8; RECORD_BYTES]
    ensures { result ≡ answer_record number (record_with number time connection (number_of call) kind price) }
{
    if is_unrecorded(number) {
        return [0u8; RECORD_BYTES];
    }
    let called = call.number();
    let t = octets::bytes::<8>(time);
    let p = octets::bytes::<8>(charge(number, price));
    [
        t[0],
        t[1],
        t[2],
        t[3],
        t[4],
        t[5],
        t[6],
        t[7],
        (connection % 256) as u8,
        called,
        kind,
        (number % 256) as u8,
        p[4],
        p[5],
        p[6],
        p[7],
    ]
}

// The record of an open.
pub fn open_record(number: u32, time: u64, connection: u64) -> [u8; RECORD_BYTES]
    ensures { result ≡ answer_record number (record_with number time connection 0 0 open_cost) }
{
    record_of(number, time, connection, Call::Open, 0, rules::OPEN_COST)
}

// The record of a message, by its first byte.
pub fn message_record(
    number: u32,
    time: u64,
    connection: u64,
    m: &[u8],
    price: u64,
) -> [u8; RECORD_BYTES]
    ensures { result ≡ answer_record number (record_with number time connection 1 (byte_at m.now 0) price) }
{
    record_of(
        number,
        time,
        connection,
        Call::Message,
        octets::byte(m, 0),
        price,
    )
}

// The record of a close.
pub fn close_record(number: u32, time: u64, connection: u64) -> [u8; RECORD_BYTES]
    ensures { result ≡ answer_record number (record_with number time connection 2 0 0) }
{
    record_of(number, time, connection, Call::Close, 0, 0)
}

// The record of a keepalive.
pub fn keepalive_record(number: u32, time: u64, connection: u64) -> [u8; RECORD_BYTES]
    ensures { result ≡ answer_record number (record_with number time connection 3 0 0) }
{
    record_of(number, time, connection, Call::Keepalive, 0, 0)
}

// What the journal says that a call was charged, or would have cost.
fn charge(number: u32, price: u64) -> u64
    ensures { result ≡ (if priced number then price else 0) }
{
    if is_priced(number) { price } else { 0 }
}
