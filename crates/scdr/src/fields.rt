// The reader of a record's fields, each from where the last ended.
ghost use Rattle.std.specs.Prelude.{◌≡◌};
ghost use Rattle.scdr.specs.Private.Pieces.{front_of, end_of, wire_of};

use crate::{Record, tags};
use ber::{address, count, field, fixed, flag, imsi, text, word};
use calendar::Stamp;
use container::{field as containers, stamp};

// A record as its fields say it, with the duration beside, and the place after the access point name.
#[derive(Clone, Copy)]
pub struct Wire {
    pub cdr: Record,
    pub lasts: u64,
    pub name_end: usize,
}

// The fields that s is, all of s.
pub fn read_fields(s: &[u8]) -> Option<Wire>
    ensures { result ≡ wire_of s.now }
{
    let ((network, imsi, sgsn, charging), at) = front_of(s)?;
    let (ggsn, at) = address::address_at(s, at, tags::GGSN)?;
    let (name, name_end) = text::octets_at(s, at, tags::APN, 0, 63)?;
    let (pdptype, at) = fixed::two_octets_at(s, name_end, tags::PDP_TYPE)?;
    let (address, at) = address::address_in_at(s, at, tags::SERVED)?;
    let ((count, containers), at) = containers::list_at(s, at, tags::CONTAINERS)?;
    let ((opening, lasts, change, cause, number), at) = end_of(s, at)?;
    let (node, at) = text::text_at(s, at, tags::NODE_ID, 20)?;
    if at != s.len() {
        return None;
    }
    let mut apn = [0; 63];
    apn[..name.len()].copy_from_slice(name);
    let mut nodeid = [0; 20];
    nodeid[..node.len()].copy_from_slice(node);
    let cdr = Record {
        network,
        imsi,
        sgsn,
        charging,
        ggsn,
        apn,
        apnlen: name.len(),
        pdptype,
        address,
        containers,
        count,
        opening,
        change,
        cause,
        number,
        nodeid,
        nodelen: node.len(),
    };
    Some(Wire {
        cdr,
        lasts,
        name_end,
    })
}

// Record type to charging ID, and the place after them. The record type says nothing.
fn front_of(s: &[u8]) -> Option<((bool, [u8; 8], u32, u32), usize)>
    ensures { result ≡ front_of s.now }
{
    let at = field::const_at(s, 0, tags::RECORD_TYPE, 18)?;
    let (network, at) = flag::flag_at(s, at, tags::NETWORK)?;
    let (imsi, at) = imsi::imsi_at(s, at, tags::IMSI)?;
    let (sgsn, at) = address::address_at(s, at, tags::SGSN)?;
    let (charging, at) = word::word_at(s, at, tags::CHARGING_ID)?;
    Some(((network, imsi, sgsn, charging), at))
}

// Opening time to number, from a place of s on, and the place after them.
fn end_of(s: &[u8], at: usize) -> Option<((Stamp, u64, bool, u8, u64), usize)>
    ensures { result ≡ end_of s.now at }
{
    let (opening, at) = stamp::stamp_at(s, at, tags::OPENING)?;
    let (lasts, at) = field::int_at(s, at, tags::DURATION)?;
    let (change, at) = flag::flag_at(s, at, tags::CHANGE)?;
    let (cause, at) = field::octet_at(s, at, tags::CAUSE)?;
    let (number, at) = count::count_at(s, at, tags::NUMBER)?;
    Some(((opening, lasts, change, cause, number), at))
}
