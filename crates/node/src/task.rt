// What a call is to do, by the names of the slots and the event.
ghost use Rattle.std.specs.Prelude.{◌≡◌, true, IfOk};
ghost use Rattle.event.specs.Event.{decoded};
ghost use Rattle.node.specs.Meaning.{meaning_of};
ghost use Rattle.node.specs.Private.Premises.{InRange};
ghost use Rattle.subscriber.specs.Hear.{notice_ok};
ghost use Rattle.node.specs.Private.Task.{named_task, open_task, replace_task, notify_task, attach_task, task_of, timely, said_task, node_task, MeaningInRange, TaskInRange};

use crate::meaning::Meaning;
use crate::refusal::Refusal;
use crate::sound::{LATEST, MOST_ACCEPTED, Surveyed};
use crate::{Message, Node, meaning, sound};
use event::{Activation, Name, Replacement};
use keys::Slot;
use limits::sets;
use mcdr::Place;
use subscriber::Notice;

#[derive(Clone, Copy)]
pub enum Task {
    // the context in a slot hears something, at a time
    One(usize, u32, Message),
    // all contexts do
    All(u32, Message),
    // an activation fills a free slot, at a time
    Open(usize, u32, Activation),
    // the subscriber in a slot hears something, at a time
    Notify(usize, u32, Notice),
    // an attach fills a free slot, at a time, with a place
    Attach(usize, u32, Place),
    // a set of limits is replaced, at a time
    Replace(u32, Replacement),
}

// The context of a name hears m.
#[tactic(auto, unfolding(crate::specs::Private::Task::named_task))]
fn named(names: &[Slot<Name>], t: u32, name: Name, m: Message) -> Result<Task, Refusal>
    requires { InRange m }
    ensures is { result ≡ named_task names.now t name m }
    ensures in_range { IfOk result TaskInRange }
{
    let i = keys::find(names, &name).ok_or(Refusal::NotActive)?;
    Ok(Task::One(i, t, m))
}

// An activation takes the lowest free slot. Its set must be one of so many.
#[tactic(auto, unfolding(crate::specs::Private::Task::open_task))]
fn open(count: usize, names: &[Slot<Name>], t: u32, a: Activation) -> Result<Task, Refusal>
    ensures is { result ≡ open_task count names.now t a }
    ensures in_range { IfOk result TaskInRange }
{
    if !sets::has(count, a.set) {
        return Err(Refusal::UnknownSet);
    }
    if keys::find(names, &a.name).is_some() {
        return Err(Refusal::Active);
    }
    let i = keys::lowest_free(names).ok_or(Refusal::NoSlot)?;
    Ok(Task::Open(i, t, a))
}

// A set of limits is replaced by its next edition. It must be one that the node has.
#[tactic(auto, unfolding(crate::specs::Private::Task::replace_task))]
fn replace(node: &Node, t: u32, r: Replacement) -> Result<Task, Refusal>
    ensures is { result ≡ replace_task node.now.profile.sets node.now.settings t r }
    ensures in_range { IfOk result TaskInRange }
{
    if !sets::has(node.profile.sets, r.set) {
        return Err(Refusal::UnknownSet);
    }
    if !sets::is_next(node.settings.sets, r.set, r.edition) {
        return Err(Refusal::Edition);
    }
    Ok(Task::Replace(t, r))
}

// The subscriber of a name hears m.
#[tactic(auto, unfolding(crate::specs::Private::Task::notify_task))]
fn notify(imsis: &[Slot<u64>], t: u32, imsi: u64, m: Notice) -> Result<Task, Refusal>
    requires { notice_ok m ≡ true }
    ensures is { result ≡ notify_task imsis.now t imsi m }
    ensures in_range { IfOk result TaskInRange }
{
    let i = keys::find(imsis, &imsi).ok_or(Refusal::NotAttached)?;
    Ok(Task::Notify(i, t, m))
}

// An attach takes the lowest free slot.
#[tactic(auto, unfolding(crate::specs::Private::Task::attach_task))]
fn attach(imsis: &[Slot<u64>], t: u32, imsi: u64, place: Place) -> Result<Task, Refusal>
    ensures is { result ≡ attach_task imsis.now t imsi place }
    ensures in_range { IfOk result TaskInRange }
{
    if keys::find(imsis, &imsi).is_some() {
        return Err(Refusal::Attached);
    }
    let i = keys::lowest_free(imsis).ok_or(Refusal::NoPlace)?;
    Ok(Task::Attach(i, t, place))
}

// What an event does that comes in time, by its meaning.
#[tactic(auto, unfolding(crate::specs::Private::Task::task_of))]
fn task_of(node: &Node, seen: &Surveyed, t: u32, w: Meaning) -> Result<Task, Refusal>
    requires { MeaningInRange w }
    ensures is { result ≡ task_of node.now seen.now.names seen.now.imsis t w }
    ensures in_range { IfOk result TaskInRange }
{
    match w {
        Meaning::Opens(a) => open(node.profile.sets, &seen.names, t, a),
        Meaning::Tells(name, m) => named(&seen.names, t, name, m),
        Meaning::TellsAll(m) => Ok(Task::All(t, m)),
        Meaning::Attaches(imsi, place) => attach(&seen.imsis, t, imsi, place),
        Meaning::Notifies(imsi, m) => notify(&seen.imsis, t, imsi, m),
        Meaning::Replaces(r) => replace(node, t, r),
    }
}

// Is it a time that a node takes, and may it accept one event more?
#[tactic(auto, unfolding(crate::specs::Private::Task::timely))]
pub fn timely(node: &Node, t: u32) -> Result<(), Refusal>
    ensures { result ≡ timely node.now t }
{
    if LATEST < t || t < node.clock {
        Err(Refusal::Time)
    } else if MOST_ACCEPTED <= node.accepted {
        Err(Refusal::TooMany)
    } else {
        Ok(())
    }
}

// The rows of the refusal table before room is looked for: 13, then those of the event's octets, then those of the time and the name.
#[tactic(auto, unfolding(crate::specs::Private::Task::node_task, crate::specs::Private::Task::said_task, crate::specs::Private::Task::timely_task, crate::specs::Private::Task::timely))]
pub fn task_for(node: &Node, event: &[u8]) -> Result<Task, Refusal>
    ensures is { result ≡ node_task node.now (decoded event.now) }
    ensures in_range { IfOk result TaskInRange }
{
    let seen = sound::survey(node);
    if !seen.sound {
        return Err(Refusal::Unsound);
    }
    let (t, e) = event::decode(event)?;
    timely(node, t)?;
    task_of(node, &seen, t, meaning::meaning_of(e))
}
