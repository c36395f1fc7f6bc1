// The stepper: the entry at a place, by its mark and its length alone.
ghost use Rattle.std.specs.Prelude.{◌≡◌};
ghost use Rattle.entries.specs.Entry.{is_tag, entry_at, value_at};

use crate::Entry;
use ber::length;

// What stands at a place of s. The next entry of a list begins where the record that was found ends.
pub fn entry_at(s: &[u8], at: usize) -> Entry
    ensures { result ≡ entry_at s.now at }
{
    if s.len() <= at {
        return Entry::End;
    }
    if s[at] != 0xC3 {
        return Entry::NoMark(at);
    }
    let b = at + 1;
    if s.len() <= b {
        return Entry::Cut(at);
    }
    if s[b] != 0x5A {
        return Entry::NoMark(at);
    }
    value_at(s, at, at + 2)
}

// The value after the mark of the entry that begins at a place.
fn value_at(s: &[u8], from: usize, at: usize) -> Entry
    ensures { result ≡ value_at s.now from at }
{
    if s.len() <= at {
        return Entry::Cut(from);
    }
    if !is_tag(s[at]) {
        return Entry::NoValue(at);
    }
    let b = at + 1;
    let Some((n, a)) = length::len_at(s, b) else {
        if s.len() - b < 3 {
            return Entry::Cut(from);
        }
        return Entry::NoValue(at);
    };
    if n <= s.len() - a {
        return Entry::Found(at, a + n);
    }
    if 1020 < n {
        return Entry::NoValue(at);
    }
    Entry::Cut(from)
}

// May a record of a list have this tag?
fn is_tag(t: u8) -> bool
    ensures { result ≡ is_tag t }
{
    (t == 0xA0) | (t == 0xA2)
}
