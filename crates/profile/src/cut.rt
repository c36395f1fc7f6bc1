// Octets up to a mark, and past it.
ghost use Rattle.std.specs.Prelude.{◌≡◌, ◌≤◌, length, drop, ◌==◌};
ghost use Rattle.profile.specs.Cut.{has, up_to, past, begins};
ghost use Rattle.std.specs.List.{position_or_len};

// How many octets stand before the first x; all of them where there is none.
fn ahead(s: &[u8], x: u8) -> usize
    ensures { (result ≡ position_or_len (λ y. y == x) s.now) × (result ≤ length s.now) }
{
    s.iter().position(|y| *y == x).unwrap_or(s.len())
}

// Is there an x in s?
pub fn has(s: &[u8], x: u8) -> bool
    ensures { result ≡ has x s.now }
{
    s.contains(&x)
}

// What is left after n octets.
pub fn rest(s: &[u8], n: usize) -> &[u8]
    ensures { result.now ≡ drop n s.now }
{
    &s[n.min(s.len())..]
}

// What stands before the first x.
pub fn up_to(s: &[u8], x: u8) -> &[u8]
    ensures { result.now ≡ up_to x s.now }
{
    &s[..ahead(s, x)]
}

// What stands after the first x.
pub fn past(s: &[u8], x: u8) -> &[u8]
    ensures { result.now ≡ past x s.now }
{
    rest(s, ahead(s, x) + 1)
}

// Does s begin with the name?
pub fn begins(s: &[u8], name: &[u8]) -> bool
    ensures { result ≡ begins name.now s.now }
{
    s.starts_with(name)
}
