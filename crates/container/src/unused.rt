// The places of an array of containers that no container uses.
ghost use Rattle.std.specs.Prelude.{◌≡◌, drop};
ghost use Rattle.container.specs.List.{is_blank, blanks};

use crate::{Container, one};

// Is every container of v from the place n on all zeros?
pub fn unused_blank(v: [Container; 15], n: usize) -> bool
    ensures { result ≡ blanks (drop n v) }
{
    v.iter().skip(n).all(|c| is_blank(*c))
}

// Is every field of a container zero?
pub fn is_blank(c: Container) -> bool
    ensures { result ≡ is_blank c }
{
    c == one::no_container()
}
