// A file of events charged, as much of it as is in hand.
//
// No public function has a `requires`: each answers for every input.
#![tactic(auto)]

ghost use Rattle.std.specs.Prelude.{◌≡◌};
ghost use Rattle.charging.specs.Window.{ready, Charges};

use event::framing;
use node::Node;

// What was done: 0, or the number of the refusal at which it stopped; the node after the last accepted event; how many octets the accepted
// events have, how many they are, and how many octets the last of them has; how many octets were written.
#[derive(Clone, Copy)]
pub struct Charged {
    pub answer: u8,
    pub node: Node,
    pub came: usize,
    pub events: usize,
    pub last: usize,
    pub written: usize,
}

// Whether the next event is taken.
fn is_ready(ended: bool, here: usize, room: usize) -> bool
    ensures { result ≡ ready ended here room }
{
    (1 <= here) & (ended | (292 <= here)) & (16416 <= room)
}

// Charges the events that lie in a window of a file, one after another, each on the node that the last one handed back, up to the first that
// is refused. It stops where fewer than 292 octets are left, unless the file has ended there, and where less than 16,416 octets of out are:
// so that each event is whole, and there is room for what it writes.
pub fn charge(node: Node, held: &[u8], ended: bool, out: &mut [u8]) -> Charged
    ensures { Charges node held.now ended out.old out.new result }
{
    let mut now = node;
    let mut came: usize = 0;
    let mut events: usize = 0;
    let mut last: usize = 0;
    let mut written: usize = 0;
    // From event to event, each as long as its kind is: no index is counted.
    while is_ready(ended, held.len() - came, out.len() - written) {
        let n = framing::next_length(&held[came..]);
        let end = came + n;
        let full = written + 16416;
        match node::step::step(now, &held[came..end], &mut out[written..full]) {
            Ok(stepped) => {
                now = stepped.node;
                came = end;
                events += 1;
                last = n;
                written += stepped.written;
            }
            Err(refusal) => {
                return Charged {
                    answer: refusal.into(),
                    node: now,
                    came,
                    events,
                    last,
                    written,
                };
            }
        }
    }
    Charged {
        answer: 0,
        node: now,
        came,
        events,
        last,
        written,
    }
}
