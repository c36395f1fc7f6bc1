// The containers of a record that is still open, with the running one after them (01, "A sound node"): whether they keep their rules, and
// what they leave of a limit.
ghost use Rattle.std.specs.Prelude.{◌≡◌, ◌-◌, take};
ghost use Rattle.container.specs.Open.{volume_of};
ghost use Rattle.container.specs.Private.Held.{held_ok};
ghost use Rattle.container.specs.Private.Stepwise.{precedes, looked};

use crate::{Container, Qos, one, rules, unused};

// Are the first n containers of v those of a record that opened at a time in a zone, with q in force now, with less counted in them than
// a limit, and is every place after them zero? From the last place to the first, in one pass: an array is copied for each function that
// takes it.
pub fn held_ok(
    v: [Container; 15],
    n: usize,
    zone: u16,
    opening: u32,
    q: Qos,
    now: u32,
    limit: u64,
) -> bool
    ensures { result ≡ held_ok zone opening q now limit n v }
{
    let mut s = Run {
        after: q,
        until: now,
        left: limit,
    };
    for i in (0..15).rev() {
        let Some(before) = look(v[i], i < n, zone, s) else {
            return false;
        };
        s = before;
    }
    (opening <= s.until) & (0 < s.left)
}

// What the places from one on leave to those before it: the QoS that follows, the time that must not be passed, and what is left of the
// limit.
#[derive(Clone, Copy)]
struct Run {
    after: Qos,
    until: u32,
    left: u64,
}

// One place more, where it is as it must be: a container that is used must fit what follows it, one that is not must be zero.
fn look(c: Container, used: bool, zone: u16, s: Run) -> Option<Run>
    ensures { result ≡ looked zone used c s }
{
    if !used {
        return unused::is_blank(c).then_some(s);
    }
    if !precedes(c, zone, s.after, s.until) {
        return None;
    }
    Some(Run {
        after: c.qos,
        until: c.time.seconds,
        left: rest_of(rest_of(s.left, c.uplink), c.downlink),
    })
}

// Is a container as it must be, in the zone, not the end of its record, not after a time, and right before the QoS q?
fn precedes(c: Container, zone: u16, q: Qos, until: u32) -> bool
    ensures { result ≡ precedes zone q until c }
{
    let right = rules::changes(c, q);
    let ok = one::container_ok(c);
    ok & (c.condition < 2) & (c.time.zone == zone) & (c.time.seconds <= until) & right
}

// What the first n containers of v leave of a limit: 0 where it does not suffice.
pub fn left_after(v: [Container; 15], n: usize, limit: u64) -> u64
    ensures { result ≡ limit - volume_of (take n v) }
{
    let mut left = limit;
    for c in &v[..n.min(15)] {
        left = rest_of(rest_of(left, c.uplink), c.downlink);
    }
    left
}

// What is left once x is spent: 0 where it does not suffice.
pub fn rest_of(left: u64, x: u64) -> u64
    ensures { result ≡ left - x }
{
    left.saturating_sub(x)
}
