// Replaying a journal by filling every level once for each second: the plain way, to check the other by.
#![tactic(auto)]

ghost use Rattle.std.specs.Prelude.{◌≡◌};
ghost use Rattle.journal.specs.Plain.{plain_ledger, replay_plain};
ghost use Rattle.replay_parts.specs.Answers.{with_allowances};

use journal_records::Record;
use replay_parts::{Ledger, Replayed};
use std::marker::Model;

// Every partner's level at the time of the latest done record, and that time.
#[derive(Drop)]
struct PlainLedger {
    levels: [u64; rules::PARTNERS],
    clock: u64,
}

impl Model for PlainLedger {
    ghost use Rattle.journal.specs.Plain.{Levels};

    ghost Value = { Levels };

    ghost view = { λ l. record { clock = l.clock; levels = l.levels } };
}

impl Ledger for PlainLedger {
    ghost ledger = { plain_ledger };

    fn clock(&self) -> u64 {
        self.clock
    }

    fn partner(&self, connection: u8) -> usize {
        connection as usize / rules::CONNECTIONS_PER_PARTNER
    }

    // What is filled for it is not kept.
    fn level(&self, partner: usize, time: u64) -> u64 {
        levels::level_after(self.levels[partner], time.saturating_sub(self.clock))
    }

    // Every level is filled up to the record's time, and its partner's is less by the charge.
    fn settle(&mut self, made: Record) {
        levels::fill_for(&mut self.levels, made.time - self.clock);
        let partner = self.partner(made.connection);
        self.levels[partner] -= made.charge as u64;
        self.clock = made.time;
    }
}

#[unsafe(no_mangle)]
pub extern "C" fn crondelith_replay_plain(
    allowances: &mut [u8],
    journal: &[u8],
    time: u64,
    term: u64,
) -> Replayed
    ensures { with_allowances result allowances.new ≡ replay_plain allowances.old journal.now time term }
{
    if let Err(refusal) = replay_parts::check(allowances, time, term) {
        return replay_parts::refused(refusal.number());
    }
    let mut ledger = PlainLedger {
        levels: [allowance::CAPACITY; rules::PARTNERS],
        clock: time,
    };
    match replay_parts::judge(&mut ledger, journal) {
        Ok(()) => {
            levels::store_table(allowances, &ledger.levels, ledger.clock, term);
            replay_parts::agreed()
        }
        Err(contradiction) => replay_parts::contradicted(contradiction.place),
    }
}
