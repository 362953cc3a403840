// The allowance of a partner: a token bucket.
#![tactic(auto)]

ghost use Rattle.std.specs.Prelude.{◌≡◌};
ghost use Rattle.allowance.specs.Bucket.{level_now};

// The most that a bucket holds, what it gets for each second, and after how many seconds any bucket is full.
pub const CAPACITY: u64 = 262144;

pub const REFILL_RATE: u64 = 65536;

const FULL_AFTER: u64 = CAPACITY / REFILL_RATE;

// The level at `now` of a bucket whose level was stored at `updated`; no seconds have passed where `updated` is the later. Seconds past
// FULL_AFTER add nothing: so no product overflows.
pub fn level_now(level: u64, updated: u64, now: u64) -> u64
    ensures { result ≡ level_now record { level = level; updated = updated } now }
{
    let seconds = now.saturating_sub(updated).min(FULL_AFTER);
    (level.min(CAPACITY) + REFILL_RATE * seconds).min(CAPACITY)
}
