// Where an event ends in a file of events, which has no framing: its kind says how long it is.
ghost use Rattle.std.specs.Prelude.{◌≡◌};
ghost use Rattle.event.specs.Framing.{next_length};

use crate::kinds::Kind;

// How many octets of s, what is left of a file, are the next event: the kind's whole length where the kind is known and so many octets
// are there; else all of s, which is then no event.
pub fn next_length(s: &[u8]) -> usize
    ensures { result ≡ next_length s.now }
{
    match Kind::try_from(octets::octet(s, 2)) {
        Ok(kind) => kind.whole(s).min(s.len()),
        Err(_) => s.len(),
    }
}
