// The reader of a record's fields, each from where the last ended.
ghost use Rattle.std.specs.Prelude.{◌≡◌, ◌<◌, IfSome};
ghost use Rattle.mcdr.specs.Private.Pieces.{record_of};

use crate::{MmRecord, Place, list, tags};
use ber::{address, count, field, fixed, imsi, text, word};
use container::stamp;

// The record whose fields s is, all of s.
pub fn read_fields(s: &[u8]) -> Option<MmRecord>
    ensures reads { result ≡ record_of s.now }
    ensures octet { IfSome result (λ r. r.place.rac < 256) }
{
    let at = field::const_at(s, 0, tags::RECORD_TYPE, 20)?;
    let (imsi, at) = imsi::imsi_at(s, at, tags::IMSI)?;
    let (sgsn, at) = address::address_at(s, at, tags::SGSN)?;
    let (rac, at) = field::octet_at(s, at, tags::RAC)?;
    let (lac, at) = fixed::two_octets_at(s, at, tags::LAC)?;
    let ((count, changes), at) = list::list_at(s, at, tags::CHANGES)?;
    let (opening, at) = stamp::stamp_at(s, at, tags::OPENING)?;
    let (duration, at) = word::word_at(s, at, tags::DURATION)?;
    let (cause, at) = field::octet_at(s, at, tags::CAUSE)?;
    let (number, at) = count::count_at(s, at, tags::NUMBER)?;
    let (node, at) = text::text_at(s, at, tags::NODE_ID, 20)?;
    if at != s.len() {
        return None;
    }
    let mut nodeid = [0; 20];
    nodeid[..node.len()].copy_from_slice(node);
    Some(MmRecord {
        imsi,
        sgsn,
        place: Place { lac, rac },
        changes,
        count,
        opening,
        duration,
        cause,
        number,
        nodeid,
        nodelen: node.len(),
    })
}
