// A set of limits: three numbers, with one space between them.
ghost use Rattle.std.specs.Prelude.{◌≡◌};
ghost use Rattle.profile.specs.Three.{three_fault, limits_of};

use crate::fault::Fault;
use crate::{cut, number};
use limits::Limits;

// What is wrong with v as three numbers: what is wrong with the first of them that is bad.
#[tactic(auto, unfolding(crate::specs::Three::three_fault))]
pub fn three_fault(v: &[u8]) -> Option<Fault>
    ensures { result ≡ three_fault v.now }
{
    let w = cut::past(v, b' ');
    let a = number::number_fault(cut::up_to(v, b' '));
    let b = number::number_fault(cut::up_to(w, b' '));
    let c = number::number_fault(cut::past(w, b' '));
    a.or(b.or(c))
}

// The limits that the three numbers are.
pub fn limits_of(v: &[u8]) -> Limits
    ensures { result ≡ limits_of v.now }
{
    let w = cut::past(v, b' ');
    let a = number::number(cut::up_to(v, b' '));
    let b = number::number(cut::up_to(w, b' '));
    let c = number::number(cut::past(w, b' '));
    Limits {
        volume: a,
        seconds: b.min(u32::MAX as u64) as u32,
        changes: c.min(u8::MAX as u64) as u8,
    }
}
