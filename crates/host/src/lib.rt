// The host's call: the node where it lies, for Rattle code, and by host_c for firmware in C (include/charging.h). Each function calls a
// by-value one and stores what it hands back, so it answers the same.
#![tactic(auto)]

ghost use Rattle.std.specs.Prelude.{◌≡◌};
ghost use Rattle.node.specs.Step.{Steps};
ghost use Rattle.node.specs.Batch.{name_with, Batches};
ghost use Rattle.host.specs.Begin.{begun, Begins};

use node::{Node, refusal, sound};
use profile::fault::BadLine;
use profile::text::read_profile;

// What is answered beside the node: 0 or the number of a refusal, and how many octets were written. (In C's layout, include/charging.h, as are
// the other answers here.)
#[repr(C)]
#[derive(Clone, Copy)]
pub struct Answer {
    pub answer: u8,
    pub written: usize,
}

// Takes an event: any octets, any node, any buffer.
pub fn charging_step(node: &mut Node, event: &[u8], out: &mut [u8]) -> Answer
    ensures { Steps node.old event.now out.old out.new result.answer node.new result.written }
{
    match node::step::step(*node, event, out) {
        Ok(stepped) => {
            *node = stepped.node;
            Answer {
                answer: 0,
                written: stepped.written,
            }
        }
        Err(refusal) => Answer {
            answer: refusal.into(),
            written: 0,
        },
    }
}

// What is answered beside the node: 0, or the number of a refusal; how many pairs were applied, and how many octets these wrote.
#[repr(C)]
#[derive(Clone, Copy)]
pub struct BatchAnswer {
    pub answer: u8,
    pub applied: usize,
    pub written: usize,
}

// Takes a list of reports, uplink and downlink by turns, for the context of a name at one time: any list, any node, any buffer.
pub fn charging_batch(
    node: &mut Node,
    id: u32,
    ggsn: u32,
    t: u32,
    volumes: &[u32],
    out: &mut [u8],
) -> BatchAnswer
    ensures { Batches node.old (name_with id ggsn) t volumes.now out.old
        out.new result.answer result.applied node.new result.written }
{
    let r = node::batch::batch(*node, id, ggsn, t, volumes, out);
    *node = r.node;
    BatchAnswer {
        answer: refusal::answer_of(r.refusal),
        applied: r.applied,
        written: r.written,
    }
}

// What is answered beside the node: 0 or 12, and with 12 the line of the text that does not read, or 0 where a value is out of range.
#[repr(C)]
#[derive(Clone, Copy)]
pub struct Start {
    pub answer: u8,
    pub line: u8,
}

// Why a profile's text makes no node.
#[derive(Clone, Copy, Debug, PartialEq, Eq)]
pub enum Unfit {
    // a line of it does not read
    Line(BadLine),
    // it reads, and a value is out of range
    Range,
}

// A node made of a profile's text, by value.
#[tactic(auto, unfolding(crate::specs::Begin::begun_by))]
pub fn begin(text: &[u8]) -> Result<Node, Unfit>
    ensures { result ≡ begun text.now }
{
    let profile = read_profile(text).map_err(Unfit::Line)?;
    match sound::fresh(profile) {
        Ok(node) => Ok(node),
        Err(_) => Err(Unfit::Range),
    }
}

// Makes a fresh node of a profile's text. After 12 the node is all zero, which every later call answers with 13.
pub fn charging_fresh(node: &mut Node, text: &[u8]) -> Start
    ensures { Begins text.now result.answer node.new result.line }
{
    match begin(text) {
        Ok(fresh) => {
            *node = fresh;
            Start { answer: 0, line: 0 }
        }
        Err(Unfit::Line(bad)) => {
            *node = sound::no_node();
            Start {
                answer: 12,
                line: bad.line,
            }
        }
        Err(Unfit::Range) => {
            *node = sound::no_node();
            Start {
                answer: 12,
                line: 0,
            }
        }
    }
}
