// The rules between the containers of a record.
ghost use Rattle.std.specs.Prelude.{◌≡◌, ◌&&◌, leb, take};
ghost use Rattle.container.specs.List.{list_ok, changes};
ghost use Rattle.container.specs.Private.Stepwise.{stands, follows};

use crate::{Container, Qos, one};
use calendar::Stamp;

// Do the first n containers of v keep the rules of a record that opened at a time?
pub fn list_ok(v: [Container; 15], n: usize, opening: Stamp) -> bool
    ensures { result ≡ (leb n 15 && list_ok opening (take n v)) }
{
    if n < 1 {
        return false;
    }
    if 15 < n {
        return false;
    }
    let mut from = opening.seconds;
    for i in 0..n - 1 {
        if !pair_ok(v[i], v[i + 1], opening.zone, from) {
            return false;
        }
        from = v[i].time.seconds;
    }
    let last = v[n - 1];
    let stand = stands(last, opening.zone, from);
    stand & (last.condition == 2)
}

// Is c as it must be, in the zone, and not before a time, and may d follow it?
fn pair_ok(c: Container, d: Container, zone: u16, from: u32) -> bool
    ensures { result ≡ (stands zone from c && follows c d) }
{
    stands(c, zone, from) & follows(c, d)
}

// Is a container as it must be, in the zone, and not before a time?
fn stands(c: Container, zone: u16, from: u32) -> bool
    ensures { result ≡ stands zone from c }
{
    one::container_ok(c) & (c.time.zone == zone) & (from <= c.time.seconds)
}

// May d follow c: c is not the last, and their profiles differ exactly where a QoS change ended c?
fn follows(c: Container, d: Container) -> bool
    ensures { result ≡ follows c d }
{
    (c.condition < 2) & changes(c, d.qos)
}

// Does the QoS after a container differ from its own exactly where a QoS change ended it?
pub fn changes(c: Container, q: Qos) -> bool
    ensures { result ≡ changes c q }
{
    (c.qos != q) == (c.condition == 0)
}
