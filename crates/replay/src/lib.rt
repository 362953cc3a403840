// Replaying a journal from a fresh relay, on an allowance table as the relay keeps it.
#![tactic(auto)]

ghost use Rattle.std.specs.Prelude.{◌≡◌};
ghost use Rattle.journal.specs.Replays.{table_ledger, replay};
ghost use Rattle.replay_parts.specs.Answers.{with_allowances};

use allowance_table::Allowances;
use journal_records::Record;
use replay_parts::{Ledger, Replayed};
use std::marker::Model;

// An allowance table of its own, so that what is lent stays as it was where the journal is contradicted.
#[derive(Drop)]
struct TableLedger {
    table: [u8; rules::ALLOWANCES_SIZE],
}

impl Model for TableLedger {
    ghost use Rattle.std.specs.Prelude.{ℕ, List};

    ghost Value = { List ℕ };

    ghost view = { λ l. l.table };
}

impl Ledger for TableLedger {
    ghost ledger = { table_ledger };

    fn clock(&self) -> u64 {
        Allowances::new(&self.table).clock()
    }

    fn partner(&self, connection: u8) -> usize {
        connection_table::partner_of(connection)
    }

    fn level(&self, partner: usize, time: u64) -> u64 {
        Allowances::new(&self.table).level(partner, time)
    }

    fn settle(&mut self, made: Record) {
        let charged = made.charge != 0;
        if charged {
            let charge = made.charge as u64;
            charges::pay(&mut self.table, made.time, made.connection, charge);
        } else {
            allowance_table::set_clock(&mut self.table, made.time);
        }
    }
}

#[unsafe(no_mangle)]
pub extern "C" fn crondelith_replay(
    allowances: &mut [u8],
    journal: &[u8],
    time: u64,
    term: u64,
) -> Replayed
    ensures { with_allowances result allowances.new ≡ replay allowances.old journal.now time term }
{
    if let Err(refusal) = replay_parts::check(allowances, time, term) {
        return replay_parts::refused(refusal.number());
    }
    let mut table = [0u8; rules::ALLOWANCES_SIZE];
    fresh_tables::fresh_allowances(&mut table, time, term);
    let mut ledger = TableLedger { table };
    match replay_parts::judge(&mut ledger, journal) {
        Ok(()) => {
            allowances.copy_from_slice(&ledger.table);
            replay_parts::agreed()
        }
        Err(contradiction) => replay_parts::contradicted(contradiction.place),
    }
}
