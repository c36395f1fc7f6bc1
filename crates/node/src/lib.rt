// The node: its profile, what it is set to, its clock, sixteen contexts and sixteen subscribers as one value; when it is sound; and what an
// event does to it.
//
// sound has the rules of a node and a fresh one; step the whole call. Under it: task finds out what a call is to do; meaning says who
// hears an event and what it is to them, closing what that does to an open record, standing what then stands, emit what is written, table
// how the slots hear one after another; refusal has the refusals by name. batch takes a list of reports: pairs runs it on one context,
// closed closes its full records.
//
// No public function has a `requires`: each answers for every input.
#![tactic(auto)]

pub mod batch;
mod closed;
mod closing;
mod emit;
mod meaning;
mod pairs;
pub mod refusal;
pub mod sound;
mod standing;
pub mod step;
mod table;
mod task;

ghost use Rattle.std.specs.Prelude.{◌≡◌, ◌<◌};
ghost use Rattle.node.specs.Sound.{most_accepted};
ghost use Rattle.node.specs.Private.Range.{accepted_at};

use container::Qos;
use context::Context;
use limits::LimitSet;
use profile::Profile;
use subscriber::Subscriber;

// What events set, and is in force now: the sets of limits. How many of them are used the profile says.
#[repr(C)]
#[derive(Clone, Copy)]
pub struct Settings {
    pub sets: [LimitSet; 8],
}

// The whole node. Once it is handed back, nothing of it is kept anywhere else. The profile is the one that it was set up with: no event
// changes it.
#[repr(C)]
#[derive(Clone, Copy)]
pub struct Node {
    pub profile: Profile,
    pub settings: Settings,
    // local seconds since 2000-01-01 00:00:00
    pub clock: u32,
    // events accepted so far
    pub accepted: u64,
    pub contexts: [Context; 16],
    pub subscribers: [Subscriber; 16],
}

impl Node {
    // One event more was accepted, at a time.
    fn accept(&mut self, t: u32)
        requires { self.old.accepted < most_accepted }
        ensures { self.new ≡ accepted_at self.old t }
    {
        self.clock = t;
        self.accepted += 1;
    }
}

// What an event is to a context that hears it. What it is not is false, or zero.
#[derive(Clone, Copy)]
pub struct Message {
    // a report, of octets up and down: the volume limit is looked at after it
    pub counts: bool,
    pub up: u32,
    pub down: u32,
    // it brings a QoS profile, which is in force from now on
    pub brings: bool,
    pub qos: Qos,
    // a tariff change
    pub tariff: bool,
    // the time limit is looked at
    pub ticks: bool,
    // it closes the record with this cause, whatever the limits are; and the context is released
    pub closes: bool,
    pub cause: u8,
    pub releases: bool,
}
