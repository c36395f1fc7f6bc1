// One call: an event's octets, a lent buffer, and the node that the last call handed back.
ghost use Rattle.std.specs.Prelude.{◌≡◌, ◌≤◌, length, IfOk, IfErr, MatchResult};
ghost use Rattle.event.specs.Fields.{imsi_of, subscriber_imsi};
ghost use Rattle.subscriber.specs.Hear as subscriber;
ghost use Rattle.subscriber.specs.Tell.{Tells};
ghost use Rattle.event.specs.Private.Activated.{Activated};
ghost use Rattle.node.specs.Refusal.{number_of};
ghost use Rattle.node.specs.Step.{Steps, brought_by, activated};
ghost use Rattle.node.specs.Private.Task.{Does, Doable};

use crate::refusal::Refusal;
use crate::task::Task;
use crate::{Node, Settings, emit, table, task};
use ber::written::NotWritten;
use calendar::Stamp;
use container::open;
use context::Context;
use event::Activation;
use limits::sets;
use mcdr::Place;
use octets::names;
use profile::Profile;
use subscriber::{Notice, Subscriber, hear, tell};

// The node after an accepted event, and how many octets were written.
#[derive(Clone, Copy)]
pub struct Stepped {
    pub node: Node,
    pub written: usize,
}

// The IMSI of an activate.
fn imsi_of(event: &[u8]) -> [u8; 8]
    requires { 37 ≤ length event.now }
    ensures { result ≡ imsi_of event.now }
{
    let mut imsi = [0u8; 8];
    imsi.copy_from_slice(&event[16..24]);
    imsi
}

// The context that an activate opens, with the limits that are in force in its set. Its name was checked with the event; here the check is asked
// for what it hands back, the name in lower case.
fn opening(p: Profile, g: Settings, t: u32, a: Activation, event: &[u8]) -> Context
    requires { Activated event.now a }
    ensures { result ≡ activated p t a.name (brought_by g a event.now) }
{
    let imsi = imsi_of(event);
    let apn = names::check_apn(&event[37..]).apn;
    let now = Stamp {
        seconds: t,
        zone: p.zone,
    };
    let limits = sets::limits_of(g.sets, a.set);
    Context {
        active: 1,
        flags: event[15],
        set: a.set,
        name: a.name,
        imsi,
        apn,
        apnlen: a.apnlen,
        pdptype: a.pdptype,
        address: a.address,
        current: open::opened(now, a.qos, limits),
        closed: 0,
    }
}

// The subscriber that an attach brings. The IMSI is octets 7 to 14 of the event.
fn attached(p: Profile, t: u32, place: Place, event: &[u8]) -> Subscriber
    requires { length event.now ≡ 18 }
    ensures { result ≡ subscriber.attached p t (subscriber_imsi event.now) place }
{
    let mut imsi = [0u8; 8];
    imsi.copy_from_slice(&event[7..15]);
    hear::opened(p, imsi, t, place, 0)
}

// A subscriber hears something: how many octets it writes.
fn notify(
    p: Profile,
    s: &mut Subscriber,
    t: u32,
    m: Notice,
    out: &mut [u8],
) -> Result<usize, Refusal>
    ensures { MatchResult result (λ written. Tells p t m s.old out.old out.new 0 s.new written)
        (λ refusal. Tells p t m s.old out.old out.new (number_of refusal) s.new 0) }
{
    match tell::tell(p, s, t, m, out) {
        Ok(written) => Ok(written),
        Err(NotWritten::NoRoom) => Err(Refusal::NoRoom),
        Err(NotWritten::OutsideRules) => Err(Refusal::Unsound),
    }
}

// Does what an event is to do: how many octets it writes. Where there is no room for them, nothing is written, and the node is given up.
fn perform(node: &mut Node, task: Task, event: &[u8], out: &mut [u8]) -> Result<usize, Refusal>
    requires { Doable node.old event.now task }
    ensures done { IfOk result (λ written. Does node.old event.now task out.old out.new 0 node.new written) }
    ensures refused { IfErr result (λ refusal. Does node.old event.now task out.old out.new (number_of refusal) node.old 0) }
{
    let p = node.profile;
    let g = node.settings;
    match task {
        Task::One(at, t, m) => {
            let written = emit::try_slot(p, g, &mut node.contexts[at], t, m, out)?;
            node.accept(t);
            Ok(written)
        }
        Task::All(t, m) => {
            let written = table::try_all(p, g, &mut node.contexts, t, m, out)?;
            node.accept(t);
            Ok(written)
        }
        Task::Open(at, t, a) => {
            node.contexts[at] = opening(p, g, t, a, event);
            node.accept(t);
            Ok(0)
        }
        Task::Notify(at, t, m) => {
            let written = notify(p, &mut node.subscribers[at], t, m, out)?;
            node.accept(t);
            Ok(written)
        }
        Task::Attach(at, t, place) => {
            node.subscribers[at] = attached(p, t, place, event);
            node.accept(t);
            Ok(0)
        }
        Task::Replace(t, r) => {
            let sets = sets::replaced(g.sets, r.set, r.edition, r.limits);
            node.settings.sets = sets;
            node.accept(t);
            Ok(0)
        }
    }
}

// Takes an event: any octets, any node, any buffer. Accepted, it answers the node after the event, and the records that it closed are
// written from the start of out, each after its mark. Else it answers the first refusal that fits: then the caller goes on with the node
// that it has, and nothing is written.
pub fn step(mut node: Node, event: &[u8], out: &mut [u8]) -> Result<Stepped, Refusal>
    ensures accepted { IfOk result (λ r. Steps node event.now out.old out.new 0 r.node r.written) }
    ensures refused { IfErr result (λ refusal. Steps node event.now out.old out.new (number_of refusal) node 0) }
{
    let task = task::task_for(&node, event)?;
    let written = perform(&mut node, task, event, out)?;
    Ok(Stepped { node, written })
}
