// Minutes from universal time, with a sign where they are below zero.
ghost use Rattle.std.specs.Prelude.{◌≡◌};
ghost use Rattle.profile.specs.Offset.{minus, west_fault, offset_fault, east, west, zone_of};

use crate::fault::Fault;
use crate::{cut, number};
use octets::chars;
use octets::chars::Class;

// A minus sign at the front.
fn is_minus(v: &[u8]) -> bool
    ensures { result ≡ minus v.now }
{
    octets::octet(v, 0) == b'-'
}

// What is wrong with the digits after a sign.
#[tactic(auto, unfolding(crate::specs::Offset::west_fault, crate::specs::Fault::unless))]
fn west_fault(v: &[u8]) -> Option<Fault>
    ensures { result ≡ west_fault v.now }
{
    if v.is_empty() || !chars::all_chars(Class::Digit, v) {
        Some(Fault::Number)
    } else if v[0] == b'0' {
        Some(Fault::Zero)
    } else {
        None
    }
}

// What is wrong with v as an offset.
#[tactic(auto, unfolding(crate::specs::Offset::offset_fault))]
pub fn offset_fault(v: &[u8]) -> Option<Fault>
    ensures { result ≡ offset_fault v.now }
{
    if is_minus(v) {
        west_fault(cut::rest(v, 1))
    } else {
        number::number_fault(v)
    }
}

// The zone that is so many minutes ahead of universal time.
#[tactic(auto, unfolding(crate::specs::Offset::east, crate::specs::Number::at_most))]
fn east(n: u64) -> u16
    ensures { result ≡ east n }
{
    n.saturating_add(720).min(65535) as u16
}

// The zone that is so many minutes behind universal time.
#[tactic(auto, unfolding(crate::specs::Offset::west))]
fn west(n: u64) -> u16
    ensures { result ≡ west n }
{
    if n <= 720 { (720 - n) as u16 } else { 65535 }
}

// The zone of an offset.
pub fn zone(v: &[u8]) -> u16
    ensures { result ≡ zone_of v.now }
{
    if is_minus(v) {
        west(number::number(cut::rest(v, 1)))
    } else {
        east(number::number(v))
    }
}
