// A PDP context as the node stores it, and when it is as it must be (01, "A sound node").
//
// slots has the names of the table's slots, sound the test of a slot and of all of them.
//
// No public function has a `requires`: each answers for every input.
#![tactic(auto)]

pub mod slots;
pub mod sound;

ghost use Rattle.std.specs.Prelude.{◌≡◌};
ghost use Rattle.context.specs.Context.{no_context};

use container::{OpenRecord, open};
use event::Name;

// A slot of the node's table. One that is free is zero in every field; octets and container places that are not used are zero.
// Flags are octets, so that whatever a host hands over is a value. (Laid out as in C, include/charging.h: so the name's length stands beside it.)
#[repr(C)]
#[derive(Clone, Copy)]
pub struct Context {
    // 1, or 0 where the slot is free
    pub active: u8,
    // as an activate has them: bit 0 initiated by the network, bit 1 arrived by a change of SGSN
    pub flags: u8,
    // the number of its set of limits: each of its records opens with the edition that is then in force
    pub set: u8,
    pub name: Name,
    pub imsi: [u8; 8],
    pub apn: [u8; 63],
    pub apnlen: usize,
    pub pdptype: u16,
    pub address: u32,
    // the record that is not closed yet
    pub current: OpenRecord,
    // records of this activation that are closed
    pub closed: u64,
}

// What a free slot holds.
pub fn no_context() -> Context
    ensures { result ≡ no_context }
{
    let none = open::no_open();
    let imsi = [0u8; 8];
    let apn = [0u8; 63];
    Context {
        active: 0,
        flags: 0,
        set: 0,
        name: Name { id: 0, ggsn: 0 },
        imsi,
        apn,
        apnlen: 0,
        pdptype: 0,
        address: 0,
        current: none,
        closed: 0,
    }
}
