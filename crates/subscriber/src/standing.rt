// What stands of a subscriber: a location change that is listed, and the record that closes.
ghost use Rattle.std.specs.Prelude.{◌≡◌, ◌^◌, ◌<◌};
ghost use Rattle.subscriber.specs.Hear.{listed, number_for, record_of};

use crate::Subscriber;
use calendar::Stamp;
use mcdr::{Change, MmRecord, Place};
use profile::Profile;

// The subscriber with one location change more.
#[tactic(auto, unfolding(crate::specs::Hear::listed))]
pub fn listed(p: Profile, s: &Subscriber, t: u32, q: Place) -> Subscriber
    requires { s.now.count < 15 }
    ensures { result ≡ listed p s.now t q }
{
    let mut n = *s;
    n.changes[s.count] = Change {
        place: q,
        time: Stamp {
            seconds: t,
            zone: p.zone,
        },
    };
    n.count += 1;
    n
}

// The number of the record that closes: 0 for none.
#[tactic(auto, unfolding(crate::specs::Hear::number_for))]
fn number_for(closed: u64, detached: bool) -> u64
    requires { closed < 10 ^ 15 }
    ensures { result ≡ number_for closed detached }
{
    if detached && closed == 0 {
        0
    } else {
        closed + 1
    }
}

// The record that closes at a time.
#[tactic(auto, unfolding(crate::specs::Hear::record_of))]
pub fn record_of(p: Profile, s: &Subscriber, t: u32, cause: u8, detached: bool) -> MmRecord
    requires { s.now.closed < 10 ^ 15 }
    ensures { result ≡ record_of p s.now t cause detached }
{
    let Subscriber {
        imsi,
        place,
        changes,
        count,
        opening,
        ..
    } = *s;
    let nodeid = p.nodeid;
    MmRecord {
        imsi,
        sgsn: p.sgsn,
        place,
        changes,
        count,
        opening,
        duration: t.saturating_sub(opening.seconds),
        cause,
        number: number_for(s.closed, detached),
        nodeid,
        nodelen: p.nodelen,
    }
}
