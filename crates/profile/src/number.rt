// Numbers in decimal digits.
ghost use Rattle.std.specs.Prelude.{◌≡◌, ◌-◌, ◌^◌};
ghost use Rattle.profile.specs.Number.{at_most, numeral, number_fault, number_of};

use crate::fault::Fault;
use octets::chars;
use octets::chars::Class;

// What is wrong with v as a number.
#[tactic(auto, unfolding(crate::specs::Number::number_fault, crate::specs::Fault::unless))]
pub fn number_fault(v: &[u8]) -> Option<Fault>
    ensures { result ≡ number_fault v.now }
{
    if v.is_empty() || !chars::all_chars(Class::Digit, v) {
        Some(Fault::Number)
    } else if (v[0] == b'0') && (1 < v.len()) {
        Some(Fault::Zero)
    } else {
        None
    }
}

// The number that the digits v spell, and the largest where it does not fit.
pub fn number(v: &[u8]) -> u64
    ensures { result ≡ at_most (2 ^ 64 - 1) (numeral 0 v.now) }
{
    v.iter().fold(0u64, |n, digit| {
        n.saturating_mul(10)
            .saturating_add(digit.saturating_sub(b'0') as u64)
    })
}

// The number that v is, or what is wrong with it.
pub fn read(v: &[u8]) -> Result<u64, Fault>
    ensures { result ≡ number_of v.now }
{
    match number_fault(v) {
        Some(fault) => Err(fault),
        None => Ok(number(v)),
    }
}
