// From field to field, by their lengths alone.
ghost use Rattle.std.specs.Prelude.{◌≡◌, drop};
ghost use Rattle.tally.specs.Seek.{seek};
ghost use Rattle.tally.specs.Private.Places.{sought_in};

use ber::tlv;

// The place of the first field of s with the tag, from a place on, or the end where none has it. An Err is the place of a field before it
// that does not end within s.
pub fn seek(s: &[u8], from: usize, tag: u8) -> Result<usize, usize>
    ensures { result ≡ sought_in s.now (seek tag (drop from s.now)) }
{
    let mut at = from;
    // From the end of one field to the next: no index is counted.
    while at < s.len() {
        let t = s[at];
        let Some((_, next)) = tlv::part_at(s, at, t) else {
            return Err(at);
        };
        if t == tag {
            return Ok(at);
        }
        at = next;
    }
    Ok(s.len())
}
