// An attached subscriber as the node stores it (02, W4), when it is as it must be, and what an event does to it: the subscriber after it,
// and the M-CDR that it closes.
//
// name has the number that names a subscriber, sound the test of a slot, hear the place in force and the record that opens, tell what comes
// of what is heard.
//
// No public function has a `requires`: each answers for every input.
#![tactic(auto)]

pub mod hear;
mod marked;
pub mod name;
pub mod sound;
mod standing;
pub mod tell;

ghost use Rattle.std.specs.Prelude.{◌≡◌};
ghost use Rattle.subscriber.specs.Subscriber.{no_subscriber};

use calendar::Stamp;
use mcdr::{Change, Place, changes};

// A slot of the node's table. One that is free is zero in every field; changes that are not used are zero. The flag is an octet, so that
// whatever a host hands over is a value. (Laid out as in C, include/charging.h: so the changes' count stands beside them.)
#[repr(C)]
#[derive(Clone, Copy)]
pub struct Subscriber {
    // 1, or 0 where the slot is free
    pub active: u8,
    // as an attach has it: low half first, later halves F
    pub imsi: [u8; 8],
    // the place at the opening of the record that is not closed yet
    pub place: Place,
    pub opening: Stamp,
    // the location changes since then
    pub changes: [Change; 15],
    pub count: usize,
    // records of this attachment that are closed
    pub closed: u64,
}

// What a subscriber hears.
#[derive(Clone, Copy)]
pub enum Notice {
    // it is at this place now
    Moved(Place),
    // management
    Managed,
    // the cause
    Detached(u8),
}

// What a free slot holds.
pub fn no_subscriber() -> Subscriber
    ensures { result ≡ no_subscriber }
{
    Subscriber {
        active: 0,
        imsi: [0; 8],
        place: Place { lac: 0, rac: 0 },
        opening: Stamp {
            seconds: 0,
            zone: 0,
        },
        changes: [changes::no_change(); 15],
        count: 0,
        closed: 0,
    }
}
