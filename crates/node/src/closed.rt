// A context whose record is full: the record that it closes, and the context that goes on.
//
// emit::try_slot does this for any message, and sizes a record before it writes it. Here it is known that the record closes, by volume; the
// writer itself says whether there is room; and a list of reports may close one record after another, so nothing is copied that need not be.
ghost use Rattle.std.specs.Prelude.{◌≡◌, true, ◌+◌, ◌<◌};
ghost use Rattle.container.specs.Open.{opened, roomy};
ghost use Rattle.limits.specs.Sets.{limits_of};
ghost use Rattle.node.specs.Meaning.{report};
ghost use Rattle.node.specs.Hear.{time_at, going, closed_by};
ghost use Rattle.node.specs.Sound.{most_accepted};
ghost use Rattle.node.specs.Private.Full.{CanClose, Full, Marks};

use crate::{Settings, standing};
use calendar::Stamp;
use container::{Container, open};
use context::Context;
use limits::sets;
use profile::Profile;
use scdr::{Record, write};

// The record that closes, with so much more counted in its last container.
fn full_record(p: Profile, c: Context, t: u32, up: u64, down: u64) -> Record
    requires { CanClose c up down }
    ensures { result ≡ closed_by p c t (report up down) 16 }
{
    let at = c.current.count;
    let qos = c.current.qos;
    let x = Container {
        qos,
        uplink: c.current.uplink + up,
        downlink: c.current.downlink + down,
        condition: 2,
        time: Stamp {
            seconds: t,
            zone: p.zone,
        },
    };
    let o = c.current;
    let mut r = standing::record_of(p, c, o, 16, c.closed + 1);
    r.containers[at] = x;
    r.count = at + 1;
    r
}

// Writes it after its mark, from the start of out, and says how many octets that are: 0 where there is no room, and out is as it was.
pub fn close(p: Profile, c: Context, t: u32, up: u64, down: u64, out: &mut [u8]) -> usize
    requires { Full p c t up down }
    ensures { Marks (closed_by p c t (report up down) 16) out.old out.new result }
{
    if out.len() < 2 {
        return 0;
    }
    let r = full_record(p, c, t, up, down);
    let Ok(n) = write::write_record(&r, &mut out[2..]) else {
        return 0;
    };
    out[0] = 0xC3;
    out[1] = 0x5A;
    2 + n
}

// The context after it, whose record opens with the limits that are in force in its set. Where no container had ended, every place is blank
// already.
pub fn reopened(p: Profile, g: Settings, c: Context, t: u32) -> Context
    requires { (roomy c.current ≡ true) × (c.closed < most_accepted) }
    ensures { result ≡ going c (opened (time_at p t) c.current.qos (limits_of c.set g.sets)) (c.closed + 1) }
{
    let sets = g.sets;
    let limits = sets::limits_of(sets, c.set);
    let mut n = c;
    n.closed = c.closed + 1;
    if c.current.count != 0 {
        let now = Stamp {
            seconds: t,
            zone: p.zone,
        };
        let qos = c.current.qos;
        let o = open::opened(now, qos, limits);
        n.current = o;
        return n;
    }
    n.current.opening.seconds = t;
    n.current.opening.zone = p.zone;
    n.current.limits.volume = limits.volume;
    n.current.limits.seconds = limits.seconds;
    n.current.limits.changes = limits.changes;
    n.current.uplink = 0;
    n.current.downlink = 0;
    n.current.changes = 0;
    n
}
