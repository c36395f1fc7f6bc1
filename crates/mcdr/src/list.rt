// The location changes of a record under their tag, read and written. Where there is none, the tag is not there either.
ghost use Rattle.std.specs.Prelude.{◌≡◌};
ghost use Rattle.ber.specs.Write.{Puts};
ghost use Rattle.mcdr.specs.Changes.{changes};
ghost use Rattle.mcdr.specs.Private.List.{in_array, lists_at, list_form};

use crate::{Change, changes, one};
use ber::{place, tlv};

// The list of changes under the tag at a place of s: how many, and they, with blank ones after. None of them where the tag is not there.
pub fn list_at(s: &[u8], at: usize, tag: u8) -> Option<((usize, [Change; 15]), usize)>
    ensures { result ≡ lists_at s.now at tag }
{
    if !place::tag_at(s, at, tag) {
        return (at <= s.len()).then_some(((0, [changes::no_change(); 15]), at));
    }
    let (contents, next) = tlv::part_at(s, at, tag)?;
    Some((list_of(contents)?, next))
}

// The list whose octets s is, all of s: 1 to 15 changes.
fn list_of(s: &[u8]) -> Option<(usize, [Change; 15])>
    ensures { result ≡ in_array (changes.dec s.now) }
{
    let mut v = [changes::no_change(); 15];
    let mut n = 0;
    let mut at = 0;
    // From the end of one value to the next, each as long as its own length says: no index is counted.
    while at < s.len() {
        if n == 15 {
            return None;
        }
        let (c, next) = one::change_at(s, at)?;
        v[n] = c;
        n += 1;
        at = next;
    }
    (1 <= n).then_some((n, v))
}

// The first n changes of v, one after another under the tag, at a place of out; nothing where n is 0. Not written where there are more than
// 15, or the time of one is out of range.
pub fn put_list(out: &mut [u8], at: usize, tag: u8, v: &[Change; 15], n: usize) -> Option<usize>
    ensures { Puts (list_form tag n v.now) out.old out.new at result }
{
    if n == 0 {
        return tlv::put_all(out, at, &[]);
    }
    if 15 < n {
        return None;
    }
    let mut list = [0u8; 300];
    let mut end = 0;
    for c in &v[..n] {
        end += one::put_change(&mut list[end..], *c)?;
    }
    tlv::put_tlv(out, at, tag, &list[..end])
}
