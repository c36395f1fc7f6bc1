// Names as they are stored: characters at the front of an array, and zeros after them. An access point name is stored in one spelling, its letters
// lowered.
ghost use Rattle.std.specs.Prelude.{◌≡◌, ◌≤◌, length};
ghost use Rattle.octets.specs.Chars.{lowered};
ghost use Rattle.octets.specs.Filled.{fill_to};
ghost use Rattle.octets.specs.Names.{stored, apn_ok, checked_apn, node_ok};

use crate::chars;
use crate::chars::Class;

// An access point name as it is stored: n octets of it, and zeros after them. What is no name has none, and n 0.
#[derive(Clone, Copy)]
pub struct Checked {
    pub apn: [u8; 63],
    pub n: usize,
}

// Are the first n octets of a characters of the class, and is every later one zero?
#[tactic(auto, unfolding(crate::specs::Names::stored))]
fn is_stored(class: Class, a: &[u8], n: usize) -> bool
    ensures { result ≡ stored class a.now n }
{
    if a.len() < n {
        return false;
    }
    let (name, rest) = a.split_at(n);
    chars::all_chars(class, name) && chars::zeros(rest)
}

// An access point name of 1 to 63 characters as a record and a node have it, its unused octets zero.
pub fn apn_ok(apn: [u8; 63], n: usize) -> bool
    ensures { result ≡ apn_ok apn n }
{
    1 <= n && is_stored(Class::Apn, &apn, n)
}

// The octets of s with A to Z lowered, filled up with zeros.
fn lowered(s: &[u8]) -> [u8; 63]
    requires { length s.now ≤ 63 }
    ensures { result ≡ fill_to 63 0 (lowered s.now) }
{
    let mut apn = [0; 63];
    for (i, x) in s.iter().enumerate() {
        apn[i] = chars::lower(*x);
    }
    apn
}

// The check of an access point name as an event spells it: the name with its letters lowered, which is one of a record, or none.
pub fn check_apn(s: &[u8]) -> Checked
    ensures { result ≡ checked_apn s.now }
{
    let n = s.len();
    if n <= 63 {
        let apn = lowered(s);
        if apn_ok(apn, n) {
            return Checked { apn, n };
        }
    }
    Checked { apn: [0; 63], n: 0 }
}

// A node ID of 0 to 20 characters, its unused octets zero.
pub fn node_ok(nodeid: [u8; 20], n: usize) -> bool
    ensures { result ≡ node_ok nodeid n }
{
    is_stored(Class::Node, &nodeid, n)
}
