// What was decided on a lease request, carried out: a new lease, a renewal, a refusal. Sizes, numbers in range and the room in the buffer
// are what the checks have shown, and no answer would serve where they fail.
#![tactic(auto)]

ghost use Rattle.std.specs.Prelude.{◌≡◌, List, ℕ, ◌≤◌, ◌<◌, length};
ghost use Rattle.rules.specs.Tables.{lent};
ghost use Rattle.rules.specs.Sizes.{row_count, random_bytes, least_buffer};
ghost use Rattle.rules.specs.Leases.{renewed, granted, random_cookie};
ghost use Rattle.rules.specs.Plans.{reply_only, plan_lease, refuse_lease};
ghost use Rattle.svsc.specs.Messages.{cookie_bytes, lease_granted, encode};
ghost use Rattle.answers.specs.Applied.{handled, applied};
ghost use Rattle.granting.specs.Asked.{Leasable};

use allowance_table::Allowances;
use answers::Answer;
use lease_table::Leases;

// Answers with a lease.
fn tell(reply: &mut [u8], id: u32, cookie: &[u8], until: u64) -> Answer
    requires { (least_buffer ≤ length reply.old) × (length cookie.now ≡ cookie_bytes) }
    ensures { (cs ls relay : List ℕ) → handled result cs ls reply.new relay
        ≡ applied (reply_only cs ls (encode (lease_granted id cookie.now until))) reply.old relay }
{
    let sent = svsc_lease_writers::svsc_write_lease_granted(reply, id, cookie, until).unwrap();
    answers::replied(sent as u32)
}

// Writes a new lease to the row that was decided on, and answers with it.
pub fn grant(
    leases: &mut [u8],
    allowances: &Allowances,
    time: u64,
    c: u8,
    random: &[u8],
    reply: &mut [u8],
    row: usize,
    id: u32,
) -> Answer
    requires { (Leasable leases.old time c reply.old) × (length random.now ≡ random_bytes) × (row < row_count) }
    ensures { (cs relay : List ℕ) → handled result cs leases.new reply.new relay
        ≡ applied (plan_lease (lent cs leases.old allowances.now) time c
        (granted row id (random_cookie random.now))) reply.old relay }
{
    let until = lease_terms::lease_end(allowances, time);
    let cookie = octets::part(random, 0, svsc::COOKIE);
    lease_writes::grant(leases, row, until, id, cookie, c);
    tell(reply, id, cookie, until)
}

// Writes the row that is renewed, and answers with the id and the cookie that it has.
pub fn renew(
    leases: &mut [u8],
    allowances: &Allowances,
    time: u64,
    c: u8,
    reply: &mut [u8],
    row: usize,
) -> Answer
    requires { (Leasable leases.old time c reply.old) × (row < row_count) }
    ensures { (cs relay : List ℕ) → handled result cs leases.new reply.new relay
        ≡ applied (plan_lease (lent cs leases.old allowances.now) time c (renewed row)) reply.old relay }
{
    let until = lease_terms::lease_end(allowances, time);
    let rows = Leases::new(leases);
    let answer = tell(reply, rows.id_of(row), rows.cookie_of(row), until);
    lease_writes::renew(leases, row, until, c);
    answer
}

pub fn refuse(reply: &mut [u8]) -> Answer
    requires { least_buffer ≤ length reply.old }
    ensures { (cs ls al relay : List ℕ) → handled result cs ls reply.new relay ≡ applied (refuse_lease (lent cs ls al))
        reply.old relay }
{
    let sent = svsc_lease_writers::svsc_write_lease_refused(reply).unwrap();
    answers::replied(sent as u32)
}
