// A reader of a journal: a struct that holds the bytes and a place in them, with thin methods. `read` and `next` leave the work to functions
// on the slice and the number.
#![tactic(auto)]

ghost use Rattle.std.specs.Prelude.{◌≡◌};
ghost use Rattle.journal_records.specs.Items.{item_at};
ghost use Rattle.journal_reader.specs.Places.{place_in, place_after};

use journal_records::Item;

#[derive(Clone, Copy)]
pub struct Reader<'a> {
    pub journal: &'a [u8],
    pub place: usize,
}

// The place behind the record that stands at a place, or the end where fewer bytes are left.
fn place_after(journal: &[u8], place: usize) -> usize
    ensures { result ≡ place_after journal.now place }
{
    let at = place.min(journal.len());
    (at + journal_records::RECORD_BYTES).min(journal.len())
}

impl<'a> Reader<'a> {
    // At the journal's first byte.
    pub fn new(journal: &'a [u8]) -> Reader<'a>
        ensures { (result.journal ≡ journal.entry) × (result.place ≡ 0) }
    {
        Reader { journal, place: 0 }
    }

    // Its place; past the end it is at the end.
    pub fn at(self) -> usize
        ensures { result ≡ place_in self.entry.journal.now self.entry.place }
    {
        self.place.min(self.journal.len())
    }

    // What stands there, also where no record of the journal begins.
    pub fn read(self) -> Item
        ensures { result ≡ item_at self.entry.journal.now self.entry.place }
    {
        journal_records::read(self.journal, self.place)
    }

    // The reader behind it: behind a tail, and at the end, it is at the end.
    pub fn next(self) -> Reader<'a>
        ensures { (result.journal ≡ self.entry.journal) × (result.place ≡ place_after self.entry.journal.now self.entry.place) }
    {
        Reader {
            place: place_after(self.journal, self.place),
            ..self
        }
    }
}
