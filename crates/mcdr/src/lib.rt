// The M-CDR of 12.15 (SGSNMMRecord; 02, W4): where an attached subscriber was, and when. The record, its rules, its octets.
//
// places has the place of a subscriber, changes the location changes of a record and what must hold between them, list their octets, rules a
// record within the rules, write and read its octets.
//
// No public function has a `requires`: each answers for every input.
#![tactic(auto)]

mod body;
pub mod changes;
pub mod closing;
mod fields;
mod list;
mod one;
mod parts;
pub mod places;
pub mod read;
pub mod rules;
mod tags;
pub mod write;

use calendar::Stamp;

// A place: the codes of a location area and of a routing area in it. Any are.
#[repr(C)]
#[derive(Clone, Copy, PartialEq, Eq)]
pub struct Place {
    pub lac: u16,
    pub rac: u8,
}

// A location change: the place that the subscriber moved to, and when.
#[repr(C)]
#[derive(Clone, Copy, PartialEq, Eq)]
pub struct Change {
    pub place: Place,
    pub time: Stamp,
}

// A record, by value. Octets and changes that are not used are zero.
#[derive(Clone, Copy)]
pub struct MmRecord {
    // as an event has it: low half first, later halves F
    pub imsi: [u8; 8],
    pub sgsn: u32,
    // the place at the opening
    pub place: Place,
    pub changes: [Change; 15],
    pub count: usize,
    pub opening: Stamp,
    // seconds from the opening to the closing
    pub duration: u32,
    pub cause: u8,
    // from 1 on; 0 where there is none
    pub number: u64,
    pub nodeid: [u8; 20],
    pub nodelen: usize,
}
