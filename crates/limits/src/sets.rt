// The sets of limits of a node: up to eight, numbered from 1 (02, W6).
ghost use Rattle.std.specs.Prelude.{◌≡◌, cond};
ghost use Rattle.limits.specs.Sets.{has_set, no_set, given, first_editions, set_ok, blank_set, sets_ok, set_at, limits_of, is_next, replaced};

use crate::{LimitSet, Limits};
use std::array;

// Has a node with so many sets one of this number?
#[tactic(auto, unfolding(crate::specs::Sets::has_set))]
pub fn has(count: usize, number: u8) -> bool
    ensures { result ≡ has_set count number }
{
    1 <= number && usize::from(number) <= count
}

// A set that is not used: all zero.
pub fn no_set() -> LimitSet
    ensures { result ≡ no_set }
{
    LimitSet {
        edition: 0,
        limits: crate::no_limits(),
    }
}

// The set of a number. There is none of a number that no set can have.
pub fn set_at(sets: [LimitSet; 8], number: u8) -> LimitSet
    ensures { result ≡ set_at number sets }
{
    match number.checked_sub(1) {
        Some(i) => sets.get(usize::from(i)).copied().unwrap_or(no_set()),
        None => no_set(),
    }
}

// The limits that are in force in the set of a number.
#[tactic(auto, unfolding(crate::specs::Sets::limits_of))]
pub fn limits_of(sets: [LimitSet; 8], number: u8) -> Limits
    ensures { result ≡ limits_of number sets }
{
    set_at(sets, number).limits
}

// Is an edition one more than that of a set?
#[tactic(auto, unfolding(crate::specs::Sets::is_next))]
pub fn is_next(sets: [LimitSet; 8], number: u8, edition: u16) -> bool
    ensures { result ≡ is_next number edition sets }
{
    set_at(sets, number).edition.checked_add(1) == Some(edition)
}

// The sets with one replaced whole. One of a number that no set can have replaces none.
pub fn replaced(sets: [LimitSet; 8], number: u8, edition: u16, limits: Limits) -> [LimitSet; 8]
    ensures { result ≡ replaced number (record { edition = edition; limits = limits }) sets }
{
    if number == 0 {
        return sets;
    }
    if 8 < number {
        return sets;
    }
    let at = number as usize - 1;
    let mut r = sets;
    r[at] = LimitSet { edition, limits };
    r
}

// Is a set that is used as it must be: limits in range, and an edition?
#[tactic(auto, unfolding(crate::specs::Sets::set_ok))]
pub fn set_ok(s: LimitSet) -> bool
    ensures { result ≡ set_ok s }
{
    1 <= s.edition && crate::limits_ok(s.limits)
}

// Is it all zero?
#[tactic(auto, unfolding(crate::specs::Sets::blank_set, crate::specs::Limits::blank_limits))]
pub fn is_blank(s: LimitSet) -> bool
    ensures { result ≡ blank_set s }
{
    s == no_set()
}

// Is a place of the sets as it must be, used or not?
fn fits(s: LimitSet, used: bool) -> bool
    ensures { result ≡ cond used (set_ok s) (blank_set s) }
{
    if used { set_ok(s) } else { is_blank(s) }
}

// Are they the sets of a node that has so many?
pub fn sets_ok(sets: [LimitSet; 8], count: usize) -> bool
    ensures { result ≡ sets_ok count sets }
{
    for (i, s) in sets.iter().enumerate() {
        if !fits(*s, i < count) {
            return false;
        }
    }
    1 <= count && count <= 8
}

// A set as a profile gives it, or a place where it gives none.
fn given(l: Limits, used: bool) -> LimitSet
    ensures { result ≡ given used l }
{
    LimitSet {
        edition: u16::from(used),
        limits: l,
    }
}

// The sets that a fresh node is given.
pub fn first_editions(limits: [Limits; 8], count: usize) -> [LimitSet; 8]
    ensures { result ≡ first_editions count limits }
{
    array::from_fn(|i| given(limits[i], i < count))
}
