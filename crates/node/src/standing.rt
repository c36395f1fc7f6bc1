// What stands of a context after a message: the record that goes on, the record that closed, the next one.
ghost use Rattle.std.specs.Prelude.{◌≡◌, ◌<◌};
ghost use Rattle.node.specs.Hear.{time_at, going, number_for, record_of, goes_on, closed_by, after_closing, change_of};
ghost use Rattle.node.specs.Sound.{most_accepted};
ghost use Rattle.node.specs.Step.{stood};
ghost use Rattle.node.specs.Private.Premises.{CanGrow};

use crate::{Message, Settings, closing};
use calendar::Stamp;
use container::{OpenRecord, open};
use context::Context;
use limits::sets;
use profile::Profile;
use scdr::Record;

// A time of this node.
fn time_at(p: Profile, t: u32) -> Stamp
    ensures { result ≡ time_at p t }
{
    Stamp {
        seconds: t,
        zone: p.zone,
    }
}

// A context with another open record, and so many closed before it.
fn going(c: Context, o: OpenRecord, closed: u64) -> Context
    ensures { result ≡ going c o closed }
{
    let mut n = c;
    n.current = o;
    n.closed = closed;
    n
}

// The number of the record that closes: 0 for none.
#[tactic(auto, unfolding(crate::specs::Hear::number_for))]
fn number_for(closed: u64, released: bool) -> u64
    requires { closed < most_accepted }
    ensures { result ≡ number_for closed released }
{
    if released & (closed == 0) {
        return 0;
    }
    closed + 1
}

// The record of a context that closes, whose last container has ended.
#[tactic(auto, unfolding(crate::specs::Hear::record_of))]
pub fn record_of(p: Profile, c: Context, o: OpenRecord, cause: u8, number: u64) -> Record
    ensures { result ≡ record_of p c o cause number }
{
    let imsi = c.imsi;
    let apn = c.apn;
    let containers = o.containers;
    let opening = o.opening;
    let nodeid = p.nodeid;
    Record {
        network: c.flags % 2 == 1,
        imsi,
        sgsn: p.sgsn,
        charging: c.name.id,
        ggsn: c.name.ggsn,
        apn,
        apnlen: c.apnlen,
        pdptype: c.pdptype,
        address: c.address,
        containers,
        count: o.count,
        opening,
        change: (c.flags / 2 % 2 == 1) & (c.closed == 0),
        cause,
        number,
        nodeid,
        nodelen: p.nodelen,
    }
}

// The context where nothing closes.
pub fn goes_on(p: Profile, c: Context, t: u32, m: Message) -> Context
    requires { CanGrow c }
    ensures { result ≡ going c (goes_on p c.current t m (change_of c.current m)) c.closed }
{
    let n = closing::reported(c.current, m);
    match closing::change_of(c.current, m) {
        Some(condition) => {
            let q = closing::qos_after(c.current, m);
            going(c, open::changed(n, condition, time_at(p, t), q), c.closed)
        }
        None => going(c, n, c.closed),
    }
}

// The record that closes with a cause.
pub fn closed_by(p: Profile, c: Context, t: u32, m: Message, cause: u8) -> Record
    requires { CanGrow c }
    ensures { result ≡ closed_by p c t m cause }
{
    let o = c.current;
    let now = time_at(p, t);
    let e = open::ended(closing::reported(o, m), 2, now);
    let number = number_for(c.closed, m.releases);
    record_of(p, c, e, cause, number)
}

// What stands in the slot after a closing: the next record opens with the limits that are in force in the context's set.
pub fn after_closing(p: Profile, g: Settings, c: Context, t: u32, m: Message) -> Context
    requires { CanGrow c }
    ensures { result ≡ stood (after_closing p g c t m) }
{
    if m.releases {
        return context::no_context();
    }
    let o = c.current;
    let q = closing::qos_after(o, m);
    let now = time_at(p, t);
    let sets = g.sets;
    let limits = sets::limits_of(sets, c.set);
    going(c, open::opened(now, q, limits), c.closed + 1)
}
