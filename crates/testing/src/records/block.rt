// From a block to a record of either kind: every field at its place.
ghost use Rattle.std.specs.Prelude.{◌<◌};

use calendar::Stamp;
use container::{Container, Qos};
use mcdr::{Change, MmRecord, Place};
use octets::octet;
use scdr::Record;
use std::array;

// The octets from a place on.
fn octets_at<const N: usize>(b: &[u8], at: usize) -> [u8; N] {
    array::from_fn(|i| octet(b, at.wrapping_add(i)))
}

fn eight(b: &[u8], at: usize) -> u64 {
    u64::from_be_bytes(octets_at(b, at))
}

pub fn four(b: &[u8], at: usize) -> u32 {
    u32::from_be_bytes(octets_at(b, at))
}

pub fn two(b: &[u8], at: usize) -> usize
    ensures { result < 65536 }
{
    usize::from(short(b, at))
}

// The same as a number of 16 bits.
fn short(b: &[u8], at: usize) -> u16 {
    u16::from_be_bytes(octets_at(b, at))
}

pub fn stamp_at(b: &[u8], at: usize) -> Stamp {
    Stamp {
        seconds: four(b, at),
        zone: short(b, at.wrapping_add(4)),
    }
}

// The container whose 28 octets b is.
fn container_of(b: &[u8]) -> Container {
    Container {
        qos: Qos {
            reliability: octet(b, 0),
            delay: octet(b, 1),
            precedence: octet(b, 2),
            peak: octet(b, 3),
            mean: octet(b, 4),
        },
        uplink: eight(b, 5),
        downlink: eight(b, 13),
        condition: octet(b, 21),
        time: stamp_at(b, 22),
    }
}

// Are the two flags 0 or 1?
pub fn flags_ok(b: &[u8]) -> bool {
    octet(b, 0) < 2 && octet(b, 97) < 2
}

// The S-CDR of a block.
pub fn record_of(b: &[u8]) -> Record {
    Record {
        network: octet(b, 0) != 0,
        imsi: octets_at(b, 1),
        sgsn: four(b, 9),
        charging: four(b, 13),
        ggsn: four(b, 17),
        apn: octets_at(b, 22),
        apnlen: usize::from(octet(b, 21)),
        pdptype: short(b, 85),
        address: four(b, 87),
        containers: array::from_fn(|i| container_of(octets::part(b, 129 + 28 * i, 157 + 28 * i))),
        count: usize::from(octet(b, 128)),
        opening: stamp_at(b, 91),
        change: octet(b, 97) != 0,
        cause: octet(b, 98),
        number: eight(b, 99),
        nodeid: octets_at(b, 108),
        nodelen: usize::from(octet(b, 107)),
    }
}

// The place at a place of a block.
fn place_at(b: &[u8], at: usize) -> Place {
    Place {
        lac: short(b, at),
        rac: octet(b, at.wrapping_add(2)),
    }
}

// The location change whose 9 octets b is.
fn change_of(b: &[u8]) -> Change {
    Change {
        place: place_at(b, 0),
        time: stamp_at(b, 3),
    }
}

// The M-CDR of a block.
pub fn mm_record_of(b: &[u8]) -> MmRecord {
    MmRecord {
        imsi: octets_at(b, 0),
        sgsn: four(b, 8),
        place: place_at(b, 12),
        changes: array::from_fn(|i| change_of(octets::part(b, 56 + 9 * i, 65 + 9 * i))),
        count: usize::from(octet(b, 55)),
        opening: stamp_at(b, 15),
        duration: four(b, 21),
        cause: octet(b, 25),
        number: eight(b, 26),
        nodeid: octets_at(b, 35),
        nodelen: usize::from(octet(b, 34)),
    }
}
