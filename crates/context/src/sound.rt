// A slot as it must be: what 01's "A sound node" says of each context. The rules of its open record are container's.
ghost use Rattle.std.specs.Prelude.{◌≡◌};
ghost use Rattle.context.specs.Sound.{fields_ok, closed_ok, context_ok, zero_ok, slot_ok, slots_ok};

use crate::Context;
use ber::imsi;
use container::open;
use limits::sets;
use octets::{chars, names};

// Are the stored fields in range, and the octets zero that they do not use?
pub fn fields_ok(c: &Context) -> bool
    ensures { result ≡ fields_ok c.now }
{
    c.flags <= 3 && imsi::imsi_size(&c.imsi).is_some() && names::apn_ok(c.apn, c.apnlen)
}

// Are there fewer closed records than accepted events?
#[tactic(auto, unfolding(crate::specs::Sound::closed_ok))]
pub fn closed_ok(accepted: u64, c: &Context) -> bool
    ensures { result ≡ closed_ok accepted c.now }
{
    c.closed < accepted
}

// Is an active context as it must be, in a node that has so many sets of limits?
#[tactic(auto, unfolding(crate::specs::Sound::context_ok))]
pub fn context_ok(count: usize, zone: u16, clock: u32, accepted: u64, c: &Context) -> bool
    ensures { result ≡ context_ok count zone clock accepted c.now }
{
    fields_ok(c)
        && sets::has(count, c.set)
        && closed_ok(accepted, c)
        && open::is_sound(c.current, zone, clock)
}

// Is every field of a slot zero?
#[tactic(auto, unfolding(crate::specs::Sound::zero_ok))]
pub fn zero_ok(c: &Context) -> bool
    ensures { result ≡ zero_ok c.now }
{
    c.active == 0
        && c.flags == 0
        && c.set == 0
        && c.name.id == 0
        && c.name.ggsn == 0
        && chars::zeros(&c.imsi)
        && chars::zeros(&c.apn)
        && c.apnlen == 0
        && c.pdptype == 0
        && c.address == 0
        && open::is_blank(c.current)
        && c.closed == 0
}

// Is a slot as it must be: an active context, or a free one?
#[tactic(auto, unfolding(crate::specs::Sound::slot_ok))]
pub fn slot_ok(count: usize, zone: u16, clock: u32, accepted: u64, c: &Context) -> bool
    ensures { result ≡ slot_ok count zone clock accepted c.now }
{
    if c.active == 1 {
        context_ok(count, zone, clock, accepted, c)
    } else {
        zero_ok(c)
    }
}

// Is every slot of the table?
pub fn slots_ok(count: usize, zone: u16, clock: u32, accepted: u64, cs: &[Context]) -> bool
    ensures { result ≡ slots_ok count zone clock accepted cs.now }
{
    cs.iter().all(|c| slot_ok(count, zone, clock, accepted, c))
}
