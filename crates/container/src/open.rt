// A record that is still open (01, "What an event does" and "A sound node"): what a report, a change and a closing make of it, what the
// limits that it opened with say of it, and its rules in a sound node. A context of the SGSN has one, and a gateway's will.
//
// Where a number could not grow or a container has no place, the record is as it was: no sound node comes to that.
ghost use Rattle.std.specs.Prelude.{◌≡◌, cond, ◌&&◌, ltb};
ghost use Rattle.container.specs.Open.{no_open, opened, reported, running, ended, changed, ample, roomy};
ghost use Rattle.container.specs.Open.{volume_met, volume_left, time_met, changes_met, sound_open, blank_open};

use crate::{Container, OpenRecord, Qos, held, one, qos_profile, unused};
use calendar::Stamp;
use limits::Limits;

// A record that opens now, with nothing counted, under these limits.
pub fn opened(now: Stamp, q: Qos, limits: Limits) -> OpenRecord
    ensures { result ≡ opened now q limits }
{
    OpenRecord {
        opening: now,
        qos: q,
        limits,
        uplink: 0,
        downlink: 0,
        changes: 0,
        containers: [one::no_container(); 15],
        count: 0,
    }
}

// No record: what a free slot holds.
pub fn no_open() -> OpenRecord
    ensures { result ≡ no_open }
{
    let never = Stamp {
        seconds: 0,
        zone: 0,
    };
    opened(never, qos_profile::no_qos(), limits::no_limits())
}

// A report is added to both counters.
pub fn reported(o: OpenRecord, up: u32, down: u32) -> OpenRecord
    ensures { result ≡ cond (ample o) (reported o up down) o }
{
    if 9223372036854775808 <= o.uplink {
        return o;
    }
    if 9223372036854775808 <= o.downlink {
        return o;
    }
    let mut n = o;
    n.uplink = o.uplink + u64::from(up);
    n.downlink = o.downlink + u64::from(down);
    n
}

// The running container, ended now with a condition.
fn running(o: OpenRecord, condition: u8, now: Stamp) -> Container
    ensures { result ≡ running o condition now }
{
    Container {
        qos: o.qos,
        uplink: o.uplink,
        downlink: o.downlink,
        condition,
        time: now,
    }
}

// The running container has ended: it stands among the others, and nothing is counted.
pub fn ended(o: OpenRecord, condition: u8, now: Stamp) -> OpenRecord
    ensures { result ≡ cond (roomy o) (ended o condition now) o }
{
    if 15 <= o.count {
        return o;
    }
    if !unused::unused_blank(o.containers, o.count) {
        return o;
    }
    let mut n = o;
    n.containers[o.count] = running(o, condition, now);
    n.count = o.count + 1;
    n.uplink = 0;
    n.downlink = 0;
    n
}

// A change that closes nothing: the running container has ended, and the next one runs under a QoS.
pub fn changed(o: OpenRecord, condition: u8, now: Stamp, q: Qos) -> OpenRecord
    ensures { result ≡ cond (roomy o && ltb o.changes 255) (changed o condition now q) o }
{
    if 255 <= o.changes {
        return o;
    }
    if 15 <= o.count {
        return o;
    }
    if !unused::unused_blank(o.containers, o.count) {
        return o;
    }
    let mut n = ended(o, condition, now);
    n.qos = q;
    n.changes = o.changes + 1;
    n
}

// Is what was counted since the record opened at least its limit?
pub fn volume_met(o: OpenRecord) -> bool
    ensures { result ≡ volume_met o }
{
    let left = held::rest_of(
        held::left_after(o.containers, o.count, o.limits.volume),
        o.uplink,
    );
    left <= o.downlink
}

// What the octets counted since the record opened leave of its limit: 0 where it is met.
pub fn volume_left(o: OpenRecord) -> u64
    ensures { result ≡ volume_left o }
{
    let left = held::rest_of(
        held::left_after(o.containers, o.count, o.limits.volume),
        o.uplink,
    );
    held::rest_of(left, o.downlink)
}

// Has it been open for at least its limit, at a time?
pub fn time_met(o: OpenRecord, t: u32) -> bool
    ensures { result ≡ time_met t o }
{
    o.limits.seconds <= t.saturating_sub(o.opening.seconds)
}

// Does one change more reach its limit?
pub fn changes_met(o: OpenRecord) -> bool
    ensures { result ≡ changes_met o }
{
    u32::from(o.limits.changes) <= u32::from(o.changes) + 1
}

// Is it as it must be in a sound node, with this offset, at this clock? Its counters keep to its own limits.
pub fn is_sound(o: OpenRecord, zone: u16, clock: u32) -> bool
    ensures { result ≡ sound_open zone clock o }
{
    let limited = limits::limits_ok(o.limits);
    let range = qos_profile::qos_ok(o.qos);
    let left = held::rest_of(held::rest_of(o.limits.volume, o.uplink), o.downlink);
    let kept = held::held_ok(
        o.containers,
        o.count,
        zone,
        o.opening.seconds,
        o.qos,
        clock,
        left,
    );
    limited
        & range
        & (o.count == usize::from(o.changes))
        & (o.changes < o.limits.changes)
        & (o.opening.zone == zone)
        & kept
}

// Is every field zero?
pub fn is_blank(o: OpenRecord) -> bool
    ensures { result ≡ blank_open o }
{
    let unlimited = limits::is_blank(o.limits);
    let same = o.qos == qos_profile::no_qos();
    let unused = unused::unused_blank(o.containers, 0);
    (o.opening.seconds == 0)
        & (o.opening.zone == 0)
        & same
        & unlimited
        & (o.uplink == 0)
        & (o.downlink == 0)
        & (o.changes == 0)
        & unused
        & (o.count == 0)
}
