// What a call answers, with the map of the connections and the call's record, for C; in specs/, the rules' outcome with both, as C has it.
#![tactic(auto)]

ghost use Rattle.std.specs.Prelude.{◌≡◌, ◌<◌, eqb, if◌then◌else◌};
ghost use Rattle.rules.specs.Sizes.{connection_count};
ghost use Rattle.rules.specs.Calls.{refusal};
ghost use Rattle.connection_map.specs.Bits.{with_bit, without_bit};
ghost use Rattle.answers.specs.Applied.{coded};
ghost use Rattle.call_answers.specs.Returned.{answer_with};

use answers::Answer;
use journal_records::RECORD_BYTES;

// What a call answers (answers::Answer), the map afterwards, and its record in the journal.
#[repr(C)]
#[derive(Clone, Copy)]
pub struct CallAnswer {
    pub number: u32,
    pub reply: u32,
    pub relay: u32,
    pub destination: u32,
    pub disconnect: u32,
    pub map: u64,
    pub recorded: [u8; RECORD_BYTES], // `record` for C
}

pub fn answered(answer: Answer, map: u64, recorded: [u8; RECORD_BYTES]) -> CallAnswer
    ensures { result ≡ answer_with answer map recorded }
{
    CallAnswer {
        number: answer.number,
        reply: answer.reply,
        relay: answer.relay,
        destination: answer.destination,
        disconnect: answer.disconnect,
        map: map,
        recorded: recorded,
    }
}

// Refused: the map is given back.
pub fn refused(number: u32, map: u64, recorded: [u8; RECORD_BYTES]) -> CallAnswer
    ensures { result ≡ answer_with (coded (refusal number)) map recorded }
{
    answered(answers::sent_nothing(number), map, recorded)
}

// Done, and connection c is closed no longer.
pub fn opened(answer: Answer, map: u64, c: u8, recorded: [u8; RECORD_BYTES]) -> CallAnswer
    requires { c < connection_count }
    ensures { result ≡ answer_with answer (with_bit map c) recorded }
{
    answered(answer, connection_bits::with_bit(map, c), recorded)
}

// Done, and connection c is closed.
pub fn closed(answer: Answer, map: u64, c: u8, recorded: [u8; RECORD_BYTES]) -> CallAnswer
    requires { c < connection_count }
    ensures { result ≡ answer_with answer (without_bit map c) recorded }
{
    answered(answer, connection_bits::without_bit(map, c), recorded)
}

// Done, and connection c is closed if the host has to disconnect it.
pub fn closed_if_disconnected(
    answer: Answer,
    map: u64,
    c: u8,
    recorded: [u8; RECORD_BYTES],
) -> CallAnswer
    requires { c < connection_count }
    ensures { result ≡ answer_with answer (if eqb answer.disconnect 1 then without_bit map c else map) recorded }
{
    if answer.disconnect == 1 {
        return closed(answer, map, c, recorded);
    }
    answered(answer, map, recorded)
}
