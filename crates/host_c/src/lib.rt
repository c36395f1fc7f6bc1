// The functions of host for firmware in C: the static library libhost.a, whose header is include/charging.h. Each export calls the function
// of its name and says its clause again. A slice is a pointer and a length.
#![tactic(auto)]

ghost use Rattle.node.specs.Step.{Steps};
ghost use Rattle.node.specs.Batch.{name_with, Batches};
ghost use Rattle.host.specs.Begin.{Begins};

use host::{Answer, BatchAnswer, Start};
use node::Node;

// Takes an event: any octets, any node, any buffer.
#[unsafe(no_mangle)]
pub extern "C" fn charging_step(node: &mut Node, event: &[u8], out: &mut [u8]) -> Answer
    ensures { Steps node.old event.now out.old out.new result.answer node.new result.written }
{
    host::charging_step(node, event, out)
}

// Takes a list of reports, uplink and downlink by turns, for the context of a name at one time: any list, any node, any buffer.
#[unsafe(no_mangle)]
pub extern "C" fn charging_batch(
    node: &mut Node,
    id: u32,
    ggsn: u32,
    t: u32,
    volumes: &[u32],
    out: &mut [u8],
) -> BatchAnswer
    ensures { Batches node.old (name_with id ggsn) t volumes.now out.old
        out.new result.answer result.applied node.new result.written }
{
    host::charging_batch(node, id, ggsn, t, volumes, out)
}

// Makes a fresh node of a profile's text. After 12 the node is all zero, which every later call answers with 13.
#[unsafe(no_mangle)]
pub extern "C" fn charging_fresh(node: &mut Node, text: &[u8]) -> Start
    ensures { Begins text.now result.answer node.new result.line }
{
    host::charging_fresh(node, text)
}
