// How long one call takes on one node: a tick that closes many records (bench/run).
//
//     tick PROFILE EVENTS
//
// The events are run from a fresh node on, and the last one again and again, each time on the node that the others made. Standard output has
// one line as those of `pace`, in which only the calls of the last event are counted.
use crate::pace::{after_event, clock, load, say};
use profile::Profile;
use setup::Command;
use std::env::Env;
use std::io::{Stderr, Stdout};
use std::rt::Files;
use std::time::CpuClock;

// How often an event is run, the last of which is run again and again.
const CALLS: u64 = 5000;

// How often the last event was run, and how many octets all of them wrote.
fn run_last(profile: Profile, s: &[u8]) -> (u64, u64) {
    let mut out = [0u8; 16416];
    let mut node = setup::node_of(profile);
    let mut last: u64 = 0;
    let mut sum: u64 = 0;
    let mut at = 0;
    for _ in 0..CALLS {
        let next = after_event(s, at);
        let more = next < s.len();
        if let Ok(stepped) = node::step::step(node, octets::part(s, at, next), &mut out) {
            sum = sum.wrapping_add(stepped.written as u64);
            if more {
                node = stepped.node;
            }
        }
        if more {
            at = next;
        } else {
            last = last.wrapping_add(1);
        }
    }
    (last, sum)
}

pub fn main<R: Env + Files + CpuClock>(rt: &R, output: Stdout, error: Stderr) {
    if setup::arg_count(rt) != 4 {
        setup::say_line(error, b"usage: tick PROFILE EVENTS\n");
        return;
    }
    let command = Command {
        name: b"tick",
        error,
    };
    if let Some(p) = command.profile(rt, 2) {
        let mut held = [0u8; 65536];
        let n = load(rt, command, 3, &mut held);
        let from = clock(rt);
        let (last, sum) = run_last(p, octets::front(&held, n));
        say(rt, output, "tick", last, sum, from);
    }
}
