// How many entries stand in octets.
ghost use Rattle.std.specs.Prelude.{◌≡◌};
ghost use Rattle.entries.specs.Steps.{count_of};

use crate::{Entry, step};

// The entries of s from its start on, up to the first place where none stands.
pub fn count(s: &[u8]) -> usize
    ensures { result ≡ count_of s.now }
{
    let mut n: usize = 0;
    let mut at: usize = 0;
    loop {
        let Entry::Found(_, e) = step::entry_at(s, at) else {
            return n;
        };
        at = e;
        n += 1;
    }
}
