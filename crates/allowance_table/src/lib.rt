// The allowance table: each partner's level and when it was stored, and in the last record the term and the clock. The size of a table of
// `Allowances` and a partner in range are required: the relay's checks 1 and 3 come before anything here is called, and no answer would
// serve where they fail.
#![tactic(auto)]

ghost use Rattle.std.specs.Prelude.{◌≡◌, ◌+◌, ◌<◌, List, ℕ, length};
ghost use Rattle.allowance.specs.Bucket.{level_now};
ghost use Rattle.rules.specs.Sizes.{partners, allowances_size};
ghost use Rattle.rules.specs.Tables.{bucket_of, clock, stored_term, set_bucket, set_clock};

use std::marker::Model;

// An allowance table of the right size.
#[derive(Drop)]
pub struct Allowances<'a> {
    bytes: &'a [u8],
}

impl<'a> Model for Allowances<'a> {
    ghost Value = { List ℕ };

    ghost view = { λ allowances. allowances.bytes.now };

    ghost invariant = { λ allowances. length allowances.bytes.now ≡ allowances_size };
}

impl<'a> Allowances<'a> {
    pub fn new(bytes: &'a [u8]) -> Self
        requires { length bytes.now ≡ allowances_size }
        ensures { result ≡ bytes.now }
    {
        Allowances { bytes }
    }

    // The latest time of an accepted call.
    #[tactic(auto, unfolding(rules::specs::Tables::clock))]
    pub fn clock(&self) -> u64
        ensures { result ≡ clock self.now }
    {
        octets::number::<8>(self.bytes, rules::CLOCK_AT)
    }

    // The term as it is stored.
    #[tactic(auto, unfolding(rules::specs::Tables::stored_term))]
    pub fn stored_term(&self) -> u64
        ensures { result ≡ stored_term self.now }
    {
        octets::number::<8>(self.bytes, rules::TERM_AT)
    }

    // What a partner has at a time.
    #[tactic(auto, unfolding(rules::specs::Tables::bucket_of))]
    pub fn level(&self, partner: usize, time: u64) -> u64
        requires { partner < partners }
        ensures { result ≡ level_now (bucket_of self.now partner) time }
    {
        let at = rules::ALLOWANCE_BYTES * partner;
        let stored = octets::number::<8>(self.bytes, at);
        let updated = octets::number::<8>(self.bytes, at + rules::UPDATED_AT);
        allowance::level_now(stored, updated, time)
    }
}

// Stores the level that is left, and when.
pub fn store(allowances: &mut [u8], partner: usize, level: u64, time: u64)
    requires { partner < partners }
    ensures { allowances.new ≡ set_bucket allowances.old partner (record { level = level; updated = time }) }
{
    let at = rules::ALLOWANCE_BYTES * partner;
    octet_stores::write::<8>(allowances, at, level);
    octet_stores::write::<8>(allowances, at + rules::UPDATED_AT, time);
}

pub fn set_clock(allowances: &mut [u8], time: u64)
    ensures { allowances.new ≡ set_clock allowances.old time }
{
    octet_stores::write::<8>(allowances, rules::CLOCK_AT, time);
}
