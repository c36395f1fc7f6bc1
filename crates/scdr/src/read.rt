// The reader of a record: the record that the octets are, and the access point name where it lies in them.
ghost use Rattle.std.specs.Prelude.{◌≡◌, ◌&&◌, eqb};
ghost use Rattle.scdr.specs.Layout.{scdr};
ghost use Rattle.scdr.specs.Rules.{within, duration};
ghost use Rattle.scdr.specs.Apn.{ShowsApn};
ghost use Rattle.scdr.specs.Private.Taken.{Taken};

use crate::{Record, duration, fields, rules, tags};
use ber::tlv;

// Reads a record, without its mark: all of s. It answers the record whose octets s is, if that is one within the rules; else None, which is
// the refusal 20 (`ber::answer::answer_of` says the number of an answer).
pub fn read_record(s: &[u8]) -> Option<Record>
    ensures { result ≡ scdr.dec s.now }
{
    let (cdr, _) = take_apart(s)?;
    Some(cdr)
}

// The access point name of the record that s is, as the very part of s where it lies; empty where s is no record within the rules.
pub fn apn_part(s: &[u8]) -> &[u8]
    ensures { ShowsApn s.entry result }
{
    match take_apart(s) {
        Some((cdr, end)) => &s[end - cdr.apnlen..end],
        None => &s[..0],
    }
}

// The record that s is, and the place after its access point name.
fn take_apart(s: &[u8]) -> Option<(Record, usize)>
    ensures { Taken s.now result }
{
    let (contents, end) = tlv::part_at(s, 0, tags::RECORD)?;
    if end != s.len() {
        return None;
    }
    let wire = fields::read_fields(contents)?;
    if !passes(wire.cdr, wire.lasts) {
        return None;
    }
    Some((wire.cdr, end - contents.len() + wire.name_end))
}

// Is a record within the rules, and did it last as long as its octets say?
fn passes(r: Record, lasts: u64) -> bool
    ensures { result ≡ (eqb lasts (duration r) && within r) }
{
    if !rules::within(&r) {
        return false;
    }
    lasts == duration::duration(r.containers, r.count, r.opening) as u64
}
