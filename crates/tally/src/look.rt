// One step: over the record that follows the mark at the front.
ghost use Rattle.std.specs.Prelude.{◌≡◌, ◌<◌, ◌≤◌, length};
ghost use Rattle.entries.specs.declared.Entry.TheVariants.{Found};
ghost use Rattle.tally.specs.Look.{past, stops, said, contents_of, look_on, look_of};
ghost use Rattle.tally.specs.Say.{say_of};

use crate::{Fault, Tally, say};
use ber::tlv;
use entries::{Entry, step};

// What stands at the front of s, and what it says of the name.
pub fn look(s: &[u8], id: u32, ggsn: u32) -> Tally
    ensures { result ≡ look_of id ggsn s.now }
{
    match step::entry_at(s, 0) {
        Entry::Found(a, e) => found(s, a, e, id, ggsn),
        Entry::End => stops(Fault::Cut, 0),
        Entry::NoMark(p) => stops(Fault::Mark, p),
        Entry::Cut(p) => stops(Fault::Cut, p),
        Entry::NoValue(p) => stops(Fault::Value, p),
    }
}

// The record that was found from one place of s to another. By its tag an M-CDR says nothing of any name.
fn found(s: &[u8], from: usize, end: usize, id: u32, ggsn: u32) -> Tally
    requires { (from < end) × (end ≤ length s.now) }
    ensures { result ≡ look_on id ggsn s.now (Found from end) }
{
    if 1024 < end - from {
        return stops(Fault::Value, from);
    }
    if s[from] == 0xA2 {
        return past(end);
    }
    of_record(&s[from..end], end, id, ggsn)
}

// An S-CDR, which ends at a place.
fn of_record(x: &[u8], end: usize, id: u32, ggsn: u32) -> Tally
    requires { length x.now ≤ end }
    ensures { result ≡ said end (say_of id ggsn (contents_of x.now)) }
{
    let contents = contents_of(x);
    match say::say(contents, id, ggsn) {
        Ok(None) => past(end),
        Ok(Some(number)) => Tally {
            fault: Fault::None,
            at: end,
            count: 1,
            number,
        },
        Err(p) => stops(Fault::Field, end - (contents.len() - p)),
    }
}

// The contents of an S-CDR, and no octets where it is none.
fn contents_of(x: &[u8]) -> &[u8]
    ensures is { result.now ≡ contents_of x.now }
    ensures fits { length result.now ≤ length x.now }
{
    match tlv::part_at(x, 0, 0xA0) {
        Some((contents, _)) => contents,
        None => &x[..0],
    }
}

// Over a record that is not of the name.
fn past(end: usize) -> Tally
    ensures { result ≡ past end }
{
    Tally {
        fault: Fault::None,
        at: end,
        count: 0,
        number: 0,
    }
}

// Over nothing: what stands at a place does not fit, and nothing is counted.
pub fn stops(fault: Fault, at: usize) -> Tally
    ensures { result ≡ stops fault at }
{
    Tally {
        fault,
        at,
        count: 0,
        number: 0,
    }
}
