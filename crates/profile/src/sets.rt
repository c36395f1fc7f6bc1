// The lines of the sets of limits: how many there are, and what they say.
ghost use Rattle.std.specs.Prelude.{◌≡◌};
ghost use Rattle.profile.specs.Sets.{sets_in, limits_in};
ghost use Rattle.profile.specs.Private.Places.{place_of};

use crate::{cut, line, three};
use limits::Limits;
use std::array;

// How many sets the text has.
pub fn sets_in(s: &[u8]) -> u8
    ensures { result ≡ sets_in s.now }
{
    let mut t = line::lines_past(s, 2);
    for n in 1..8 {
        if !cut::begins(t, b"limits") {
            return n;
        }
        t = cut::past(t, b'\n');
    }
    8
}

// The limits at place i, where there are so many sets: none after the last.
#[tactic(auto, unfolding(crate::specs::Private::Places::place_of))]
fn place_of(s: &[u8], sets: u8, i: u8) -> Limits
    ensures { result ≡ place_of sets i s.now }
{
    if i < sets {
        three::limits_of(line::value(s, i))
    } else {
        limits::no_limits()
    }
}

// The limits of so many sets, the first of which is the line at the front of s.
pub fn limits_in(s: &[u8], sets: u8) -> [Limits; 8]
    ensures { result ≡ limits_in 8 sets s.now }
{
    array::from_fn(|i| place_of(s, sets, i as u8))
}
