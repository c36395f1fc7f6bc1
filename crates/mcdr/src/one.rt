// One location change: its octets read and written.
ghost use Rattle.std.specs.Prelude.{◌≡◌, T, length, IsSomeAnd};
ghost use Rattle.format.specs.Maybe.{guard};
ghost use Rattle.ber.specs.Tlv.{tlv_enc};
ghost use Rattle.ber.specs.Field.{first};
ghost use Rattle.ber.specs.Read.{read_at};
ghost use Rattle.ber.specs.Write.{Puts};
ghost use Rattle.ber.specs.Private.Filled.{Filled};
ghost use Rattle.calendar.specs.Stamp.{stamp_ok};
ghost use Rattle.mcdr.specs.Change.{change_tag, change};

use crate::{Change, Place, tags};
use ber::{field, fixed, tlv};
use container::stamp;

// The change at a place of s.
pub fn change_at(s: &[u8], at: usize) -> Option<(Change, usize)>
    ensures { result ≡ read_at (first change_tag change) s.now at }
{
    let (contents, next) = tlv::part_at(s, at, tags::CHANGE)?;
    Some((change_of(contents)?, next))
}

// The change whose contents s is, all of s.
fn change_of(s: &[u8]) -> Option<Change>
    ensures { result ≡ change.dec s.now }
{
    let (lac, at) = fixed::two_octets_at(s, 0, tags::NEW_LAC)?;
    let (rac, at) = field::octet_at(s, at, tags::NEW_RAC)?;
    let (time, at) = stamp::stamp_at(s, at, tags::TIME)?;
    if at != s.len() {
        return None;
    }
    let place = Place { lac, rac };
    calendar::stamp_within(time).then_some(Change { place, time })
}

// A change at the front of out. One whose time is out of range is not written.
pub fn put_change(out: &mut [u8], c: Change) -> Option<usize>
    ensures { Puts (guard (stamp_ok c.time) (tlv_enc change_tag (change.enc c))) out.old out.new 0 result }
{
    if !calendar::stamp_within(c.time) {
        return None;
    }
    let mut b = [0u8; 18];
    let end = put_fields(&mut b, c)?;
    tlv::put_tlv(out, 0, tags::CHANGE, &b[..end])
}

// Its fields, at the front of b: how many octets they are.
fn put_fields(b: &mut [u8], c: Change) -> Option<usize>
    requires { (length b.old ≡ 18) × T (stamp_ok c.time) }
    ensures { IsSomeAnd result (λ n. Filled (change.enc c) 18 b.new n) }
{
    let at = fixed::put_two_octets(b, 0, tags::NEW_LAC, c.place.lac)?;
    let at = field::put_octet(b, at, tags::NEW_RAC, c.place.rac)?;
    stamp::put_stamp(b, at, tags::TIME, c.time)
}
