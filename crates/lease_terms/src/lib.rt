// How long leases last: the term that the allowance table keeps, and the one that a fresh relay is made with. A time in range is
// required, and the size of a table of `Allowances`: the relay's checks 1 and 2 come before anything here is called, and no answer would
// serve where they fail.
#![tactic(auto)]

ghost use Rattle.std.specs.Prelude.{◌≡◌, ◌<◌};
ghost use Rattle.rules.specs.Sizes.{time_limit};
ghost use Rattle.rules.specs.Tables.{term_in_range, lease_term, named_term};
ghost use Rattle.rules.specs.Leases.{lease_end};
ghost use Rattle.rules.specs.Checks.{wrong_term};

use allowance_table::Allowances;

#[tactic(auto, unfolding(rules::specs::Tables::term_in_range))]
fn is_in_range(term: u64) -> bool
    ensures { result ≡ term_in_range term }
{
    (rules::SHORTEST_TERM..=rules::LONGEST_TERM).contains(&term)
}

// Whether a fresh relay is refused this term.
#[tactic(auto, unfolding(rules::specs::Checks::wrong_term))]
pub fn is_wrong(term: u64) -> bool
    ensures { result ≡ wrong_term term }
{
    let in_range = is_in_range(term);
    !((term == 0) | in_range)
}

// What a fresh relay stores for a term that is named.
#[tactic(auto, unfolding(rules::specs::Tables::named_term))]
pub fn named_term(term: u64) -> u64
    ensures { result ≡ named_term term }
{
    if term == 0 { rules::DEFAULT_TERM } else { term }
}

// The seconds of a lease.
#[tactic(auto, unfolding(rules::specs::Tables::lease_term))]
fn lease_term(allowances: &Allowances) -> u64
    ensures { result ≡ lease_term allowances.now }
{
    let stored = allowances.stored_term();
    if stored == 0 {
        return rules::OLD_TERM;
    }
    if is_in_range(stored) {
        return stored;
    }
    rules::DEFAULT_TERM
}

// When a lease that is given, renewed or extended at a time ends.
pub fn lease_end(allowances: &Allowances, time: u64) -> u64
    requires { time < time_limit }
    ensures { result ≡ lease_end allowances.now time }
{
    time + lease_term(allowances)
}
