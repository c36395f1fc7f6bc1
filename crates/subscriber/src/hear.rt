// The place that a subscriber is at, and the record that opens.
ghost use Rattle.std.specs.Prelude.{◌≡◌};
ghost use Rattle.subscriber.specs.Subscriber.{place_of};
ghost use Rattle.subscriber.specs.Hear.{opened};

use crate::Subscriber;
use calendar::Stamp;
use mcdr::{Place, changes};
use profile::Profile;

// The place in force.
#[tactic(auto, unfolding(crate::specs::Subscriber::place_of))]
pub fn place_of(s: &Subscriber) -> Place
    ensures { result ≡ place_of s.now }
{
    changes::place_now(s.changes, s.count, s.place)
}

// A subscriber whose record opens at a time and a place, after so many that are closed.
pub fn opened(p: Profile, imsi: [u8; 8], t: u32, place: Place, closed: u64) -> Subscriber
    ensures { result ≡ opened p imsi t place closed }
{
    Subscriber {
        active: 1,
        imsi,
        place,
        opening: Stamp {
            seconds: t,
            zone: p.zone,
        },
        changes: [changes::no_change(); 15],
        count: 0,
        closed,
    }
}
