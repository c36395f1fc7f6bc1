// A slot as it must be: what 02's W4 says of each subscriber of a sound node.
ghost use Rattle.std.specs.Prelude.{◌≡◌};
ghost use Rattle.subscriber.specs.Sound.{open_ok, subscriber_ok, zero_ok, slot_ok, slots_ok};

use crate::Subscriber;
use ber::imsi;
use mcdr::changes;
use octets::chars;

// Is the open record as it must be, with the node's offset, at the node's clock?
#[tactic(auto, unfolding(crate::specs::Sound::open_ok))]
pub fn open_ok(zone: u16, clock: u32, s: &Subscriber) -> bool
    ensures { result ≡ open_ok zone clock s.now }
{
    s.opening.zone == zone
        && s.count <= 14
        && changes::changes_ok(s.changes, s.count, s.opening, s.place)
        && changes::last_time(s.changes, s.count, s.opening.seconds) <= clock
        && changes::unused_blank(s.changes, s.count)
}

// Is an attached subscriber as it must be?
pub fn subscriber_ok(zone: u16, clock: u32, accepted: u64, s: &Subscriber) -> bool
    ensures { result ≡ subscriber_ok zone clock accepted s.now }
{
    imsi::imsi_size(&s.imsi).is_some() && s.closed < accepted && open_ok(zone, clock, s)
}

// Is every field of a slot zero?
#[tactic(auto, unfolding(crate::specs::Sound::zero_ok))]
pub fn zero_ok(s: &Subscriber) -> bool
    ensures { result ≡ zero_ok s.now }
{
    s.active == 0
        && chars::zeros(&s.imsi)
        && s.place.lac == 0
        && s.place.rac == 0
        && s.opening.seconds == 0
        && s.opening.zone == 0
        && changes::unused_blank(s.changes, 0)
        && s.count == 0
        && s.closed == 0
}

// Is a slot as it must be: an attached subscriber, or a free one?
#[tactic(auto, unfolding(crate::specs::Sound::slot_ok))]
pub fn slot_ok(zone: u16, clock: u32, accepted: u64, s: &Subscriber) -> bool
    ensures { result ≡ slot_ok zone clock accepted s.now }
{
    if s.active == 1 {
        subscriber_ok(zone, clock, accepted, s)
    } else {
        zero_ok(s)
    }
}

// Is every slot of the table?
pub fn slots_ok(zone: u16, clock: u32, accepted: u64, ss: &[Subscriber]) -> bool
    ensures { result ≡ slots_ok zone clock accepted ss.now }
{
    ss.iter().all(|s| slot_ok(zone, clock, accepted, s))
}
