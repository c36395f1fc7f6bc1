// Octets as all crates meet them: one at a place, a part of them, characters and names, the octets that a name does not use. Nothing here is of BER or
// of a record, so that events, profiles and contexts share it with the records.
//
// chars has the characters of a text, names what is stored of one in an array.
//
// No public function has a `requires`: each answers for every input.
#![tactic(auto)]

pub mod chars;
pub mod names;

ghost use Rattle.std.specs.Prelude.{◌≡◌, get_or, take};
ghost use Rattle.octets.specs.Part.{part_of};

// The octet at a place, and 0 past the end.
pub fn octet(s: &[u8], at: usize) -> u8
    ensures { result ≡ get_or s.now at 0 }
{
    s.get(at).copied().unwrap_or(0)
}

// The octets of s from one place to another; none where that is no part of s.
#[tactic(auto, unfolding(crate::specs::Part::part_of))]
pub fn part(s: &[u8], a: usize, b: usize) -> &[u8]
    ensures { result.now ≡ part_of a b s.now }
{
    s.get(a..b).unwrap_or(&[])
}

// The first n octets of s; all where there are fewer.
pub fn front(s: &[u8], n: usize) -> &[u8]
    ensures { result.now ≡ take n s.now }
{
    &s[..n.min(s.len())]
}
