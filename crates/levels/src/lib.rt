// What the plain replay keeps: every partner's level at the latest done reading, filled second by second, and the table that is made of them.
#![tactic(auto)]

ghost use Rattle.std.specs.Prelude.{◌≡◌, ◌↔◌, [], ◌∷◌, ◌+◌, min, length, IsTrue, All};
ghost use Rattle.octets.specs.Octets.{put};
ghost use Rattle.allowance.specs.Bucket.{capacity, refill_rate};
ghost use Rattle.rules.specs.Sizes.{partners, allowances_size};
ghost use Rattle.journal.specs.Plain.{filled_once, filled, level_records, level_table};

// A level a second later. No sum is made that could overflow.
fn filled_level(level: u64) -> u64
    ensures { result ≡ min capacity (level + refill_rate) }
{
    level.min(allowance::CAPACITY - allowance::REFILL_RATE) + allowance::REFILL_RATE
}

// A level so many seconds later: once for each second, until it is full.
pub fn level_after(level: u64, seconds: u64) -> u64
    ensures { filled seconds (level ∷ []) ≡ result ∷ [] }
{
    let mut have = level;
    for _ in 0..seconds {
        if have == allowance::CAPACITY {
            return have;
        }
        have = filled_level(have);
    }
    have
}

// All levels a second later.
fn fill(levels: &mut [u64])
    ensures { levels.new ≡ filled_once levels.old }
{
    for p in 0..levels.len() {
        levels[p] = filled_level(levels[p]);
    }
}

fn are_full(levels: &[u64]) -> bool
    ensures { IsTrue result ↔ All (λ level. level ≡ capacity) levels.now }
{
    levels.iter().all(|level| *level == allowance::CAPACITY)
}

// All levels so many seconds later: once for each second, until all are full. A further second changes nothing then (journal's law full-stays), and a
// damaged reading would cost 2^40 turns.
pub fn fill_for(levels: &mut [u64], seconds: u64)
    ensures { levels.new ≡ filled seconds levels.old }
{
    for _ in 0..seconds {
        let full = are_full(levels);
        if full {
            return;
        }
        fill(levels);
    }
}

// Stores a record for each level, all with one time.
fn store_levels(allowances: &mut [u8], levels: &[u64; rules::PARTNERS], clock: u64)
    ensures { allowances.new ≡ put allowances.old 0 (level_records clock levels.now) }
{
    for p in 0..levels.len() {
        allowance_table::store(allowances, p, levels[p], clock);
    }
}

// The whole table: the levels, and in the ninth record the term and the clock.
pub fn store_table(allowances: &mut [u8], levels: &[u64; rules::PARTNERS], clock: u64, term: u64)
    requires { length allowances.old ≡ allowances_size }
    ensures { allowances.new ≡ level_table term (record { clock = clock; levels = levels.now }) }
{
    let kept = lease_terms::named_term(term);
    store_levels(allowances, levels, clock);
    octet_stores::write::<8>(allowances, rules::TERM_AT, kept);
    allowance_table::set_clock(allowances, clock);
}
