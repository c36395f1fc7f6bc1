// The tags of a record, of its fields and of a location change, each once: the tables are in specs/.
pub const RECORD: u8 = 0xA2;

pub const RECORD_TYPE: u8 = 0x80;

pub const IMSI: u8 = 0x81;

pub const SGSN: u8 = 0xA3;

pub const RAC: u8 = 0x85;

pub const LAC: u8 = 0x86;

pub const CHANGES: u8 = 0xA8;

pub const OPENING: u8 = 0x89;

pub const DURATION: u8 = 0x8A;

pub const CAUSE: u8 = 0x8C;

pub const NUMBER: u8 = 0x8E;

pub const NODE_ID: u8 = 0x8F;

// each change of the list, and its fields
pub const CHANGE: u8 = 0x30;

pub const NEW_LAC: u8 = 0x80;

pub const NEW_RAC: u8 = 0x81;

pub const TIME: u8 = 0x83;
