// What a call answers beside the map, which call_answers adds; in specs/, a plan of the rules carried out, and the rules' outcome.
#![tactic(auto)]

ghost use Rattle.std.specs.Prelude.{◌≡◌};
ghost use Rattle.rules.specs.Calls.{sent_nothing};
ghost use Rattle.answers.specs.Applied.{answer_of, coded, replied, relayed, told_both, disconnected};

// What a call answers, in numbers: that of the check or 0, the bytes in the reply and relay buffers, the connection that the relayed message
// is for or 255, and 1 where the host has to disconnect the caller.
// Numbers, and no `bool` or `Option`: `call_answers` is promised for any five (docs/STATEMENTS.md).
#[derive(Clone, Copy)]
pub struct Answer {
    pub number: u32,
    pub reply: u32,
    pub relay: u32,
    pub destination: u32,
    pub disconnect: u32,
}

fn answer_of(number: u32, reply: u32, relay: u32, destination: u8, disconnect: u32) -> Answer
    ensures { result ≡ answer_of number reply relay destination disconnect }
{
    Answer {
        number,
        reply,
        relay,
        destination: destination as u32,
        disconnect,
    }
}

// Nothing sent, to nobody: of a refusal, or, with 0, of a call that is done.
pub fn sent_nothing(number: u32) -> Answer
    ensures { result ≡ coded (sent_nothing number) }
{
    answer_of(number, 0, 0, rules::NOBODY, 0)
}

// Done, with so many bytes for the caller.
pub fn replied(length: u32) -> Answer
    ensures { result ≡ coded (replied length) }
{
    answer_of(0, length, 0, rules::NOBODY, 0)
}

// Done, with so many bytes for another connection.
pub fn relayed(length: u32, destination: u8) -> Answer
    ensures { result ≡ coded (relayed length destination) }
{
    answer_of(0, 0, length, destination, 0)
}

// Done, with bytes for the caller and for another connection.
pub fn both(reply: u32, relay: u32, destination: u8) -> Answer
    ensures { result ≡ coded (told_both reply relay destination) }
{
    answer_of(0, reply, relay, destination, 0)
}

// Done, and the host has to disconnect the caller.
pub fn disconnected() -> Answer
    ensures { result ≡ coded disconnected }
{
    answer_of(0, 0, 0, rules::NOBODY, 1)
}

// The same, and the host has to disconnect the caller.
pub fn disconnecting(answer: Answer) -> Answer
    ensures { result ≡ answer_of answer.number answer.reply answer.relay answer.destination 1 }
{
    Answer {
        disconnect: 1,
        ..answer
    }
}
