// The list of containers, read and written. The first stands after none, which is as after one that ended with a QoS change.
ghost use Rattle.std.specs.Prelude.{◌≡◌};
ghost use Rattle.ber.specs.Write.{Puts};
ghost use Rattle.container.specs.List.{containers, in_array, list_form};

use crate::{Container, one};
use ber::tlv;

// The list whose octets s is, all of s: how many containers, and they, with blank ones after.
pub fn list_of(s: &[u8]) -> Option<(usize, [Container; 15])>
    ensures { result ≡ in_array (containers.dec s.now) }
{
    let mut last = one::no_container();
    let mut v = [last; 15];
    let mut n = 0;
    let mut at = 0;
    // From the end of one value to the next, each as long as its own length says: no index is counted.
    while at < s.len() {
        if n == 15 {
            return None;
        }
        let (c, next) = one::container_at(s, at, last)?;
        last = c;
        v[n] = c;
        n += 1;
        at = next;
    }
    (1 <= n).then_some((n, v))
}

// The first n containers of v, one after another under the tag, at a place of out. Not written where n is not 1 to 15, or one of
// them is not as it must be, or its QoS could not be told.
pub fn put_list(out: &mut [u8], at: usize, tag: u8, v: &[Container; 15], n: usize) -> Option<usize>
    ensures { Puts (list_form tag n v.now) out.old out.new at result }
{
    if n < 1 || 15 < n {
        return None;
    }
    let mut list = [0u8; 825];
    let mut end = 0;
    let mut last = one::no_container();
    for c in &v[..n] {
        end += one::put_container(&mut list[end..], *c, last)?;
        last = *c;
    }
    tlv::put_tlv(out, at, tag, &list[..end])
}
