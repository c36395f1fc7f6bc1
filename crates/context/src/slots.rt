// The names of the table's slots: `keys` finds and tells them apart.
ghost use Rattle.std.specs.Prelude.{◌≡◌, map};
ghost use Rattle.context.specs.Slots.{slot_of};

use crate::Context;
use event::Name;
use keys::Slot;

// What names a slot.
pub fn slot_of(c: &Context) -> Slot<Name>
    ensures { result ≡ slot_of c.now }
{
    Slot {
        active: c.active,
        key: c.name,
    }
}

// What names each slot of the table.
pub fn slots_of(cs: &[Context; 16]) -> [Slot<Name>; 16]
    ensures { result ≡ map slot_of cs.now }
{
    cs.map(|c| slot_of(&c))
}
