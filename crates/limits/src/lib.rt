// When a record closes by itself, and the sets of limits that a node has (01, "Profile and clock"; 02, W6).
//
// sets has the sets: their numbers, their editions, what is in force, and one that is replaced.
//
// No public function has a `requires`: each answers for every input.
#![tactic(auto)]

pub mod sets;

ghost use Rattle.std.specs.Prelude.{◌≡◌};
ghost use Rattle.limits.specs.Limits.{limits_ok, no_limits, blank_limits};

// Octets counted, seconds open, changes of QoS and tariff.
#[repr(C)]
#[derive(Clone, Copy, Debug, PartialEq, Eq)]
pub struct Limits {
    pub volume: u64,
    pub seconds: u32,
    pub changes: u8,
}

// A set of limits as a node has it: its limits, and their edition, which is 0 where the set is not used.
#[repr(C)]
#[derive(Clone, Copy, Debug, PartialEq, Eq)]
pub struct LimitSet {
    pub edition: u16,
    pub limits: Limits,
}

// Are the limits in range?
#[tactic(auto, unfolding(crate::specs::Limits::limits_ok))]
pub fn limits_ok(l: Limits) -> bool
    ensures { result ≡ limits_ok l }
{
    matches!(l.volume, 1..=1000000000000)
        && matches!(l.seconds, 1..=604800)
        && matches!(l.changes, 1..=15)
}

// No limits: all zero, which is out of range. What stands where there is no set.
pub fn no_limits() -> Limits
    ensures { result ≡ no_limits }
{
    Limits {
        volume: 0,
        seconds: 0,
        changes: 0,
    }
}

// Are they all zero?
#[tactic(auto, unfolding(crate::specs::Limits::blank_limits))]
pub fn is_blank(l: Limits) -> bool
    ensures { result ≡ blank_limits l }
{
    l == no_limits()
}
