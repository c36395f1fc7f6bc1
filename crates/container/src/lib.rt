// Containers of 12.15 (ChangeOfCharCondition): the octets counted under one QoS profile and tariff, and the list of them that a record
// has. The S-CDR of the SGSN and the G-CDR of the gateway share them.
//
// profile has the QoS, stamp the time stamp under a tag, single one container, list the list as octets, field the list under a tag,
// rules what must hold between the containers of a record, open a record that is not closed yet, held its containers, unused the
// places of an array after them.
//
// No public function has a `requires`: each answers for every input.
#![tactic(auto)]

pub mod field;
mod held;
pub mod list;
pub mod one;
pub mod open;
pub mod qos_profile;
pub mod rules;
pub mod stamp;
mod tags;
pub mod unused;

// The QoS profile of a context: five numbers, each in its range.
#[repr(C)]
#[derive(Clone, Copy, PartialEq, Eq)]
pub struct Qos {
    pub reliability: u8,
    pub delay: u8,
    pub precedence: u8,
    pub peak: u8,
    pub mean: u8,
}

// What was counted under one QoS profile: octets up and down, why the container ended (0 a QoS change, 1 a tariff change, 2 the
// record's closing), and when.
#[repr(C)]
#[derive(Clone, Copy, PartialEq, Eq)]
pub struct Container {
    pub qos: Qos,
    pub uplink: u64,
    pub downlink: u64,
    pub condition: u8,
    pub time: calendar::Stamp,
}

// A record that is still open: when it opened, the QoS in force, the limits that it opened with and keeps until it closes, what was counted
// since the last container ended, how many QoS and tariff changes there were, and the containers that these ended. Places that are not used
// are zero. (Laid out as in C, include/charging.h: so the containers stand in an array, and their count beside.)
#[repr(C)]
#[derive(Clone, Copy)]
pub struct OpenRecord {
    pub opening: calendar::Stamp,
    pub qos: Qos,
    pub limits: limits::Limits,
    pub uplink: u64,
    pub downlink: u64,
    pub changes: u8,
    pub containers: [Container; 15],
    pub count: usize,
}
