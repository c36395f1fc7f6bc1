// The count: of a whole list, or of one that comes in parts.
ghost use Rattle.std.specs.Prelude.{◌≡◌};
ghost use Rattle.tally.specs.Tally.{answer_of, fits, start, ready, tallied, count_of};
ghost use Rattle.tally.specs.Turns.{onto, went_on};

use crate::{Fault, Tally, look};
use std::num::wrapping_add_usize;

// Nothing counted yet.
pub const START: Tally = Tally {
    fault: Fault::None,
    at: 0,
    count: 0,
    number: 0,
};

// How many records of s the name has, and the number that the last of them carries.
pub fn count(s: &[u8], id: u32, ggsn: u32) -> Tally
    ensures { result ≡ count_of id ggsn s.now }
{
    tally(s, true, id, ggsn)
}

// Counts on from t, over the next part of a list: s, which holds its end, or does not. It stops where fewer than 1,026 octets of s are left,
// unless its end is among them. (As wide as the machine counts: a list of 2^64 octets and more would count from 0 again.)
pub fn go_on(t: Tally, s: &[u8], ended: bool, id: u32, ggsn: u32) -> Tally
    ensures { result ≡ went_on ended id ggsn t s.now }
{
    let u = tally(s, ended, id, ggsn);
    onto(t, u)
}

// The number of the refusal table, 0 where all fits.
pub fn answer(f: Fault) -> u8
    ensures { result ≡ answer_of f }
{
    match f {
        Fault::None => 0,
        Fault::Mark => 21,
        Fault::Cut => 21,
        Fault::Value => 21,
        Fault::Field => 21,
    }
}

fn fits(f: Fault) -> bool
    ensures { result ≡ fits f }
{
    match f {
        Fault::None => true,
        Fault::Mark => false,
        Fault::Cut => false,
        Fault::Value => false,
        Fault::Field => false,
    }
}

fn is_ready(ended: bool, here: usize) -> bool
    ensures { result ≡ ready ended here }
{
    (1 <= here) & (ended | (1026 <= here))
}

fn tally(s: &[u8], ended: bool, id: u32, ggsn: u32) -> Tally
    ensures { result ≡ tallied ended id ggsn start s.now }
{
    let mut at: usize = 0;
    let mut count: usize = 0;
    let mut number: u64 = 0;
    // From entry to entry, each as long as its own length says: no index is counted.
    while is_ready(ended, s.len() - at) {
        let k = look::look(&s[at..], id, ggsn);
        let fault = k.fault;
        if !fits(fault) {
            return look::stops(fault, at + k.at);
        }
        at += k.at;
        count += k.count;
        if k.count != 0 {
            number = k.number;
            continue;
        }
    }
    Tally {
        fault: Fault::None,
        at,
        count,
        number,
    }
}

// What was counted, and then what was counted behind it.
fn onto(t: Tally, u: Tally) -> Tally
    ensures { result ≡ onto t u }
{
    let before = t.fault;
    if !fits(before) {
        return t;
    }
    let at = wrapping_add_usize(t.at, u.at);
    let behind = u.fault;
    if !fits(behind) {
        return look::stops(behind, at);
    }
    let count = wrapping_add_usize(t.count, u.count);
    if u.count == 0 {
        return Tally {
            fault: behind,
            at,
            count,
            number: t.number,
        };
    }
    Tally {
        fault: behind,
        at,
        count,
        number: u.number,
    }
}
