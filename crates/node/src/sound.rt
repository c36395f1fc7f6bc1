// A sound node, and a fresh one.
ghost use Rattle.std.specs.Prelude.{◌≡◌, map, IfOk, IfErr};
ghost use Rattle.context.specs.Slots.{slot_of};
ghost use Rattle.subscriber.specs.Subscriber.{slot_of as imsi_slot};
ghost use Rattle.node.specs.Sound.{sound, fresh_node, no_node, Makes};
ghost use Rattle.node.specs.Refusal.{number_of};

use crate::refusal::Refusal;
use crate::{Node, Settings};
use context::{slots, sound};
use event::Name;
use keys::Slot;
use limits::sets;
use profile::Profile;

// The last second of 2099, and as many events as a node accepts.
pub const LATEST: u32 = 3155759999;

pub const MOST_ACCEPTED: u64 = 1000000000000000;

// What a call looks at first: whether the node is sound, and what names its slots.
#[derive(Clone, Copy)]
pub struct Surveyed {
    pub sound: bool,
    pub names: [Slot<Name>; 16],
    pub imsis: [Slot<u64>; 16],
}

#[tactic(auto, unfolding(crate::specs::Sound::sound))]
pub fn survey(node: &Node) -> Surveyed
    ensures sound { result.sound ≡ sound node.now }
    ensures names { result.names ≡ map slot_of node.now.contexts }
    ensures imsis { result.imsis ≡ map imsi_slot node.now.subscribers }
{
    let p = node.profile;
    let names = slots::slots_of(&node.contexts);
    let imsis = subscriber::name::slots_of(&node.subscribers);
    let sound = profile::profile_ok(p)
        && sets::sets_ok(node.settings.sets, p.sets)
        && node.clock <= LATEST
        && node.accepted <= MOST_ACCEPTED
        && keys::all_distinct(&names)
        && sound::slots_ok(p.sets, p.zone, node.clock, node.accepted, &node.contexts)
        && keys::all_distinct(&imsis)
        && subscriber::sound::slots_ok(p.zone, node.clock, node.accepted, &node.subscribers);
    Surveyed {
        sound,
        names,
        imsis,
    }
}

// Is a node sound?
pub fn is_sound(node: Node) -> bool
    ensures { result ≡ sound node }
{
    survey(&node).sound
}

// A node that is set up with a profile, whatever that is: clock 0, no contexts, no subscribers, no accepted events.
fn set_up(p: Profile) -> Node
    ensures { result ≡ fresh_node p }
{
    let sets = sets::first_editions(p.limits, p.sets);
    let contexts = [context::no_context(); 16];
    let subscribers = [subscriber::no_subscriber(); 16];
    Node {
        profile: p,
        settings: Settings { sets },
        clock: 0,
        accepted: 0,
        contexts,
        subscribers,
    }
}

// A node that is all zero: no node is made of a bad profile. It is unsound.
pub fn no_node() -> Node
    ensures { result ≡ no_node }
{
    set_up(profile::no_profile())
}

// A fresh node: clock 0, no contexts, no accepted events. A bad profile makes none.
#[tactic(auto, unfolding(crate::specs::Sound::fresh_of))]
pub fn fresh(p: Profile) -> Result<Node, Refusal>
    ensures made { IfOk result (λ node. Makes p 0 node) }
    ensures refused { IfErr result (λ refusal. Makes p (number_of refusal) no_node) }
{
    if profile::profile_ok(p) {
        Ok(set_up(p))
    } else {
        Err(Refusal::BadProfile)
    }
}
