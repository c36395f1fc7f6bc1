// The list of containers under a tag.
ghost use Rattle.std.specs.Prelude.{◌≡◌};
ghost use Rattle.container.specs.List.{lists_at};

use crate::{Container, list};
use ber::tlv;

// The list of containers under the tag at a place of s.
pub fn list_at(s: &[u8], at: usize, tag: u8) -> Option<((usize, [Container; 15]), usize)>
    ensures { result ≡ lists_at s.now at tag }
{
    let (contents, next) = tlv::part_at(s, at, tag)?;
    Some((list::list_of(contents)?, next))
}
