// The location changes of a record: what must hold between them, what they come to, and the places of an array that they do not use.
ghost use Rattle.std.specs.Prelude.{◌≡◌, ◌&&◌, leb, take, drop};
ghost use Rattle.mcdr.specs.Change.{no_change, follows};
ghost use Rattle.mcdr.specs.Changes.{changes_ok, last_time, place_now, is_blank, blanks};

use crate::{Change, Place};
use calendar::Stamp;

// No change: what a place of the array holds that is not used.
pub fn no_change() -> Change
    ensures { result ≡ no_change }
{
    Change {
        place: Place { lac: 0, rac: 0 },
        time: Stamp {
            seconds: 0,
            zone: 0,
        },
    }
}

// May a change follow in a record: with this offset, not before a time, to another place than p?
pub fn follows(c: Change, zone: u16, from: u32, p: Place) -> bool
    ensures { result ≡ follows zone from p c }
{
    let right = calendar::stamp_within(c.time);
    (p != c.place) & right & (from <= c.time.seconds) & (c.time.zone == zone)
}

// Are the first n changes of v those of a record that opened at a time and a place, and no more than 15?
pub fn changes_ok(v: [Change; 15], n: usize, opening: Stamp, p: Place) -> bool
    ensures { result ≡ (leb n 15 && changes_ok opening.zone opening.seconds p (take n v)) }
{
    if 15 < n {
        return false;
    }
    let mut from = opening.seconds;
    let mut at = p;
    for c in &v[..n] {
        if !follows(*c, opening.zone, from, at) {
            return false;
        }
        from = c.time.seconds;
        at = c.place;
    }
    true
}

// The time of the last of the first n changes of v, and the opening's where there is none.
pub fn last_time(v: [Change; 15], n: usize, opening: u32) -> u32
    ensures { result ≡ last_time opening (take n v) }
{
    match v[..n.min(15)].last() {
        Some(c) => c.time.seconds,
        None => opening,
    }
}

// The place in force after the first n changes of v.
pub fn place_now(v: [Change; 15], n: usize, p: Place) -> Place
    ensures { result ≡ place_now p (take n v) }
{
    match v[..n.min(15)].last() {
        Some(c) => c.place,
        None => p,
    }
}

// Is every field of a change zero?
pub fn is_blank(c: Change) -> bool
    ensures { result ≡ is_blank c }
{
    c == no_change()
}

// Is every change of v from the place n on all zeros?
pub fn unused_blank(v: [Change; 15], n: usize) -> bool
    ensures { result ≡ blanks (drop n v) }
{
    v.iter().skip(n).all(|c| is_blank(*c))
}
