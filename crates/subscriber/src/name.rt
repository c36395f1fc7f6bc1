// The name of a subscriber, and what names each slot of the table.
ghost use Rattle.std.specs.Prelude.{◌≡◌, map};
ghost use Rattle.ber.specs.Int.{spelt};
ghost use Rattle.subscriber.specs.Subscriber.{slot_of};

use crate::Subscriber;
use keys::Slot;

// The number that an IMSI's eight octets spell.
pub fn name_of(imsi: [u8; 8]) -> u64
    ensures { result ≡ spelt 0 imsi }
{
    u64::from_be_bytes(imsi)
}

// What names a slot.
pub fn slot_of(s: &Subscriber) -> Slot<u64>
    ensures { result ≡ slot_of s.now }
{
    Slot {
        active: s.active,
        key: name_of(s.imsi),
    }
}

// What names each slot of the table.
pub fn slots_of(ss: &[Subscriber; 16]) -> [Slot<u64>; 16]
    ensures { result ≡ map slot_of ss.now }
{
    ss.map(|s| slot_of(&s))
}
