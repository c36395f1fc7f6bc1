// The tags of the fields of a container and of its QoS, each once: the table is in specs/Container.antt and specs/Qos.antt.
pub const CONTAINER: u8 = 0x30;

pub const QOS: u8 = 0xA2;

pub const UPLINK: u8 = 0x83;

pub const DOWNLINK: u8 = 0x84;

pub const CONDITION: u8 = 0x85;

pub const TIME: u8 = 0x86;

pub const RELIABILITY: u8 = 0x80;

pub const DELAY: u8 = 0x81;

pub const PRECEDENCE: u8 = 0x82;

pub const PEAK: u8 = 0x83;

pub const MEAN: u8 = 0x84;
