// The reader of an entry.
ghost use Rattle.entries.specs.Read.{ReadsEntry};

use crate::{Entry, step};
use mcdr::MmRecord;
use scdr::Record;

// A record of either kind.
#[derive(Clone, Copy)]
pub enum Cdr {
    Pdp(Record),
    Mm(MmRecord),
}

// What stands at a place, as the stepper finds it, and what the reader of its kind answers of the record there.
#[derive(Clone, Copy)]
pub struct ReadEntry {
    pub entry: Entry,
    // the record that was found has the tag of an M-CDR: told of a refused one too, which is no Cdr
    pub mm: bool,
    // None is the refusal 20 (`ber::answer::answer_of` says the number): no entry was found, or one whose octets are no record within the rules
    pub cdr: Option<Cdr>,
}

// Reads the entry at a place of s.
pub fn read_entry(s: &[u8], at: usize) -> ReadEntry
    ensures { ReadsEntry s.now at result }
{
    let entry = step::entry_at(s, at);
    let Entry::Found(a, e) = entry else {
        return ReadEntry {
            entry,
            mm: false,
            cdr: None,
        };
    };
    let octets = &s[a..e];
    if s[a] == 0xA2 {
        return ReadEntry {
            entry,
            mm: true,
            cdr: mcdr::read::read_record(octets).map(Cdr::Mm),
        };
    }
    ReadEntry {
        entry,
        mm: false,
        cdr: scdr::read::read_record(octets).map(Cdr::Pdp),
    }
}
