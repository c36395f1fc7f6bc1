// A list of reports in a file of calls, after its room and its mark FFFF: time 4, charging ID 4, GGSN 4, how many numbers 2, and so many
// numbers of 4 octets.
use crate::records::block::{four, two};
use node::Node;
use node::batch::Batched;

// What stands for a length where a list follows.
pub const LIST: usize = 65535;

// The node is told of the list that octets are, of which it has a thousand numbers at most.
pub fn told(now: Node, b: &[u8], out: &mut [u8]) -> Batched {
    let mut numbers = [0u32; 1000];
    let count = two(b, 12).min(numbers.len());
    for (i, number) in numbers[..count].iter_mut().enumerate() {
        *number = four(b, 14usize.wrapping_add(4usize.wrapping_mul(i)));
    }
    let (t, id, ggsn) = (four(b, 0), four(b, 4), four(b, 8));
    node::batch::batch(now, id, ggsn, t, &numbers[..count], out)
}
