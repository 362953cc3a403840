// What the functions that explain calls have in common: a reason as C has it, with and without a headroom. Each call has a crate of its own
// for its function, explain_open and so on; they only read, and are lent no buffer: of the reply and the relay buffer they are told the
// lengths.
#![tactic(auto)]

ghost use Rattle.std.specs.Prelude.{◌≡◌, ◌+◌, ◌^◌, ◌<◌, pos, ◌-ℤ◌};
ghost use Rattle.std.proofs.Math.Option.{none, some};
ghost use Rattle.reasons.specs.Coded.{request_of, condition_number, reason_of};

// A reason, for C: the check or 0; what a done call asked for, 1 a lease or 2 a session, and what decided it; 1 where there is a
// headroom, and the headroom.
#[repr(C)]
#[derive(Clone, Copy)]
pub struct Reason {
    pub check: u32,
    pub request: u32,
    pub condition: u32,
    pub charged: u32,
    pub headroom: i64,
}

// What decided a call: the condition on which a lease is refused, or the status of a session, 0 where all is granted; or nothing. C can be
// told of any other request and condition too, which no call here makes: what gives a reason promises something for any numbers.
#[derive(Clone, Copy)]
pub enum Named {
    Nothing,
    Lease { condition: u32 },
    Session { status: u32 },
    Other { request: u32, condition: u32 },
}

impl Named {
    fn request(self) -> u32
        ensures { result ≡ request_of self }
    {
        match self {
            Named::Nothing => 0,
            Named::Lease { condition } => 1,
            Named::Session { status } => 2,
            Named::Other { request, condition } => request,
        }
    }

    fn condition(self) -> u32
        ensures { result ≡ condition_number self }
    {
        match self {
            Named::Nothing => 0,
            Named::Lease { condition } => condition,
            Named::Session { status } => status,
            Named::Other { request, condition } => condition,
        }
    }
}

// The reason of a call that has no headroom.
pub fn without_headroom(check: u32, named: Named) -> Reason
    ensures { result ≡ reason_of check named none }
{
    Reason {
        check,
        request: named.request(),
        condition: named.condition(),
        charged: 0,
        headroom: 0,
    }
}

fn difference(level: u64, cost: u64) -> i64
    requires { level + cost < 2 ^ 63 }
    ensures { result ≡ pos level -ℤ pos cost }
{
    level as i64 - cost as i64
}

// The reason of a call that costs so much at such a level.
pub fn with_headroom(check: u32, named: Named, level: u64, cost: u64) -> Reason
    requires { level + cost < 2 ^ 63 }
    ensures { result ≡ reason_of check named (some (pos level -ℤ pos cost)) }
{
    let headroom = difference(level, cost);
    Reason {
        check,
        request: named.request(),
        condition: named.condition(),
        charged: 1,
        headroom,
    }
}
