// The tags of a record and of its fields, each once: the table is in specs/Table.antt.
pub const RECORD: u8 = 0xA0;

pub const RECORD_TYPE: u8 = 0x80;

pub const NETWORK: u8 = 0x81;

pub const IMSI: u8 = 0x83;

pub const SGSN: u8 = 0xA5;

pub const CHARGING_ID: u8 = 0x8A;

pub const GGSN: u8 = 0xAB;

pub const APN: u8 = 0x8C;

pub const PDP_TYPE: u8 = 0x8D;

pub const SERVED: u8 = 0xAE;

pub const CONTAINERS: u8 = 0xAF;

pub const OPENING: u8 = 0x90;

pub const DURATION: u8 = 0x91;

pub const CHANGE: u8 = 0x92;

pub const CAUSE: u8 = 0x93;

pub const NUMBER: u8 = 0x95;

pub const NODE_ID: u8 = 0x96;
