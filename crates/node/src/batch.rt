// A minute of reports in one call: a list of volumes, uplink and downlink by turns, for one context at one time.
ghost use Rattle.std.specs.Prelude.{◌≡◌, ◌+◌, ◌<◌, ◌≤◌};
ghost use Rattle.node.specs.Batch.{name_with, Batches};
ghost use Rattle.node.specs.Refusal.{answer_of};
ghost use Rattle.node.specs.Sound.{most_accepted};
ghost use Rattle.node.specs.Private.Pairs.{reports_for, moved};

use crate::pairs::Told;
use crate::refusal::Refusal;
use crate::{Node, pairs, sound, task};
use event::Name;

// The refusal that ended the call, if one did; how many pairs were applied, the node then, and how many octets these wrote.
#[derive(Clone, Copy)]
pub struct Batched {
    pub refusal: Option<Refusal>,
    pub applied: usize,
    pub node: Node,
    pub written: usize,
}

// The slot of the context that a list of so many numbers is told to; none where the list is empty. 13 first, then 14; then 6, 7 and 8 of
// the first pair: the time and the name are those of every pair, so no later one is refused with 6 or 8.
#[tactic(auto, unfolding(crate::specs::Private::Pairs::reports_for, crate::specs::Private::Pairs::first_pair, crate::specs::Private::Task::timely))]
fn reports_for(node: &Node, name: Name, t: u32, count: usize) -> Result<Option<usize>, Refusal>
    ensures { result ≡ reports_for node.now name t count }
{
    let seen = sound::survey(node);
    if !seen.sound {
        return Err(Refusal::Unsound);
    }
    if count % 2 == 1 {
        return Err(Refusal::OddList);
    }
    if count == 0 {
        return Ok(None);
    }
    task::timely(node, t)?;
    let i = keys::find(&seen.names, &name).ok_or(Refusal::NotActive)?;
    Ok(Some(i))
}

// The same node, and nothing written.
fn unmoved(node: Node, refusal: Option<Refusal>) -> Batched
    ensures { (result.refusal ≡ refusal) × ((result.applied ≡ 0) × ((result.node ≡ node) × (result.written ≡ 0))) }
{
    Batched {
        refusal,
        applied: 0,
        node,
        written: 0,
    }
}

// The node with what came of one slot. The clock moves with the first pair that is applied.
fn moved(mut node: Node, i: usize, t: u32, told: Told) -> Batched
    requires { (i < 16) × (node.accepted + told.applied ≤ most_accepted) }
    ensures { (result.refusal ≡ told.refusal) × ((result.applied ≡ told.applied)
        × ((result.node ≡ moved node i t told.applied told.context) × (result.written ≡ told.written))) }
{
    if told.applied != 0 {
        node.clock = t;
    }
    node.accepted += told.applied as u64;
    node.contexts[i] = told.context;
    Batched {
        refusal: told.refusal,
        applied: told.applied,
        node,
        written: told.written,
    }
}

// Takes a list of reports for the context of a name, at one time: any list, any name, any time, any node, any buffer. Each pair does what its
// traffic event would do, on the node and in the room that the last one left; the first that is refused ends the call, and what those before
// it did stays. 13 and 14 come first, and apply none.
//
// The node is tested once.
pub fn batch(node: Node, id: u32, ggsn: u32, t: u32, volumes: &[u32], out: &mut [u8]) -> Batched
    ensures { Batches node (name_with id ggsn) t volumes.now out.old out.new
        (answer_of result.refusal) result.applied result.node result.written }
{
    match reports_for(&node, Name { id, ggsn }, t, volumes.len()) {
        Err(refusal) => unmoved(node, Some(refusal)),
        Ok(None) => unmoved(node, None),
        Ok(Some(at)) => {
            let told = pairs::tell(
                node.profile,
                node.settings,
                node.clock,
                node.accepted,
                node.contexts[at],
                t,
                volumes,
                out,
            );
            moved(node, at, t, told)
        }
    }
}
