// A time stamp under a tag, read at a place of s and written at a place of out.
ghost use Rattle.std.specs.Prelude.{◌≡◌};
ghost use Rattle.format.specs.Maybe.{guard};
ghost use Rattle.ber.specs.Tlv.{tlv_enc};
ghost use Rattle.ber.specs.Field.{first};
ghost use Rattle.ber.specs.Read.{read_at};
ghost use Rattle.ber.specs.Write.{Puts};
ghost use Rattle.calendar.specs.Stamp.{stamp, stamp_ok, stamp_enc};

use ber::tlv;
use calendar::Stamp;

// The time under the tag at a place of s.
pub fn stamp_at(s: &[u8], at: usize, tag: u8) -> Option<(Stamp, usize)>
    ensures { result ≡ read_at (first tag stamp) s.now at }
{
    let (contents, next) = tlv::part_at(s, at, tag)?;
    Some((calendar::stamp_of(contents)?, next))
}

// The time t under the tag, at a place of out. One out of range is not written.
pub fn put_stamp(out: &mut [u8], at: usize, tag: u8, t: Stamp) -> Option<usize>
    ensures { Puts (guard (stamp_ok t) (tlv_enc tag (stamp_enc t))) out.old out.new at result }
{
    tlv::put_tlv(out, at, tag, &calendar::stamp_octets(t)?)
}
