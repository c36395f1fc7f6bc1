// The S-CDR of 12.15 (SGSNPDPRecord): the record, its rules, its octets.
#![tactic(auto)]

mod body;
pub mod closing;
mod duration;
mod fields;
mod parts;
pub mod read;
pub mod rules;
mod tags;
pub mod write;

use calendar::Stamp;
use container::Container;

// A record, by value. Octets and container places that are not used are zero.
#[derive(Clone, Copy)]
pub struct Record {
    // initiated by the network
    pub network: bool,
    // as an event has it: low half first, later halves F
    pub imsi: [u8; 8],
    pub sgsn: u32,
    pub charging: u32,
    pub ggsn: u32,
    pub apn: [u8; 63],
    pub apnlen: usize,
    pub pdptype: u16,
    pub address: u32,
    pub containers: [Container; 15],
    pub count: usize,
    pub opening: Stamp,
    // the first record of an activation that arrived by a change of SGSN
    pub change: bool,
    pub cause: u8,
    // from 1 on; 0 where there is none
    pub number: u64,
    pub nodeid: [u8; 20],
    pub nodelen: usize,
}
