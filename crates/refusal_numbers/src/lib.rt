// What may refuse a call: the numbered answers 1 to 9. Whoever checks answers `Result<_, Refusal>`, and only what goes to C or into a record is a
// number.
#![tactic(auto)]

ghost use Rattle.std.specs.Prelude.{◌≡◌};
ghost use Rattle.refusal_numbers.specs.Numbers.{number_of, answer_number};

#[derive(Clone, Copy, PartialEq, Eq)]
pub enum Refusal {
    WrongSizes = 1,
    WrongTime = 2,
    UnknownConnection = 3,
    WrongState = 4,
    WrongLengths = 5,
    Malformed = 6, // not a message that peers send, or a term that no relay has
    NotPermitted = 7,
    NoSession = 8,
    OverAllowance = 9,
}

impl Refusal {
    pub fn number(self) -> u32
        ensures { result ≡ number_of self }
    {
        self as u32
    }
}

// The number that a checked call is answered with: 0 if nothing refuses it.
pub fn answer_number<T: Copy>(checked: Result<T, Refusal>) -> u32
    ensures { result ≡ answer_number checked }
{
    match checked {
        Ok(_) => 0,
        Err(refusal) => refusal.number(),
    }
}
