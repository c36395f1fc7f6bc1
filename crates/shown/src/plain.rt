// Records in the plain form: every field at its place in a block of octets (docs/FORMATS.md), in digits of sixteen, with all places of its lists.
use crate::values::Hex;
use calendar::Stamp;
use container::Container;
use mcdr::{Change, MmRecord};
use scdr::Record;
use std::fmt;
use std::fmt::{Formatter, Write};

// An S-CDR.
pub fn put_record<W: Write>(f: &mut Formatter<W>, r: &Record) -> fmt::Result {
    put_names(f, r)?;
    put_times(f, r)?;
    let mut containers = [[0u8; 28]; 15];
    for (place, c) in containers.iter_mut().zip(&r.containers) {
        *place = container_octets(c);
    }
    writeln!(
        f,
        "{}{}",
        Hex(&[lowest(r.count)]),
        Hex(containers.as_flattened())
    )
}

fn put_names<W: Write>(f: &mut Formatter<W>, r: &Record) -> fmt::Result {
    write!(
        f,
        "{}{}{}",
        Hex(&[u8::from(r.network)]),
        Hex(&r.imsi),
        Hex(&r.sgsn.to_be_bytes())
    )?;
    write!(
        f,
        "{}{}{}",
        Hex(&r.charging.to_be_bytes()),
        Hex(&r.ggsn.to_be_bytes()),
        Hex(&[lowest(r.apnlen)])
    )?;
    write!(
        f,
        "{}{}{}",
        Hex(&r.apn),
        Hex(&r.pdptype.to_be_bytes()),
        Hex(&r.address.to_be_bytes())
    )
}

// From the opening time to the node ID.
fn put_times<W: Write>(f: &mut Formatter<W>, r: &Record) -> fmt::Result {
    put_time(f, r.opening)?;
    write!(
        f,
        "{}{}",
        Hex(&[u8::from(r.change), r.cause]),
        Hex(&r.number.to_be_bytes())
    )?;
    write!(f, "{}{}", Hex(&[lowest(r.nodelen)]), Hex(&r.nodeid))
}

fn put_time<W: Write>(f: &mut Formatter<W>, t: Stamp) -> fmt::Result {
    write!(
        f,
        "{}{}",
        Hex(&t.seconds.to_be_bytes()),
        Hex(&t.zone.to_be_bytes())
    )
}

fn container_octets(c: &Container) -> [u8; 28] {
    let q = &c.qos;
    let mut b = [0u8; 28];
    b[..5].copy_from_slice(&[q.reliability, q.delay, q.precedence, q.peak, q.mean]);
    b[5..13].copy_from_slice(&c.uplink.to_be_bytes());
    b[13..21].copy_from_slice(&c.downlink.to_be_bytes());
    b[21] = c.condition;
    b[22..26].copy_from_slice(&c.time.seconds.to_be_bytes());
    b[26..].copy_from_slice(&c.time.zone.to_be_bytes());
    b
}

// An M-CDR.
pub fn put_mm_record<W: Write>(f: &mut Formatter<W>, r: &MmRecord) -> fmt::Result {
    write!(f, "{}{}", Hex(&r.imsi), Hex(&r.sgsn.to_be_bytes()))?;
    write!(
        f,
        "{}{}",
        Hex(&r.place.lac.to_be_bytes()),
        Hex(&[r.place.rac])
    )?;
    put_time(f, r.opening)?;
    write!(f, "{}{}", Hex(&r.duration.to_be_bytes()), Hex(&[r.cause]))?;
    write!(
        f,
        "{}{}{}",
        Hex(&r.number.to_be_bytes()),
        Hex(&[lowest(r.nodelen)]),
        Hex(&r.nodeid)
    )?;
    let mut changes = [[0u8; 9]; 15];
    for (place, c) in changes.iter_mut().zip(&r.changes) {
        *place = change_octets(c);
    }
    writeln!(
        f,
        "{}{}",
        Hex(&[lowest(r.count)]),
        Hex(changes.as_flattened())
    )
}

fn change_octets(c: &Change) -> [u8; 9] {
    let mut b = [0u8; 9];
    b[..2].copy_from_slice(&c.place.lac.to_be_bytes());
    b[2] = c.place.rac;
    b[3..7].copy_from_slice(&c.time.seconds.to_be_bytes());
    b[7..].copy_from_slice(&c.time.zone.to_be_bytes());
    b
}

// The lowest octet of a number of octets or of entries: none within the rules is longer.
fn lowest(n: usize) -> u8 {
    (n % 256) as u8
}
