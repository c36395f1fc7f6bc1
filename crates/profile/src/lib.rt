// The profile of a node: what it is set up with, and the text that says it.
//
// text has the rows of the text, a name and a kind of value each, and reads the lines by them; sets are the lines of the sets of limits; line is
// one line, three, number, address and offset are its values, fault is what can be wrong, and cut the octets up to a mark and past it.
//
// No public function has a `requires`: each answers for every input.
#![tactic(auto)]

pub mod address;
mod cut;
pub mod fault;
mod line;
pub mod number;
mod offset;
mod sets;
pub mod text;
mod three;

ghost use Rattle.std.specs.Prelude.{◌≡◌};
ghost use Rattle.profile.specs.Profile.{profile_ok, no_profile};

use limits::Limits;
use octets::names;

// The address of the node, the sets of limits that it is given, numbered from 1 (how many there are is sets, and the unused ones are zero), its
// offset from universal time (in minutes, plus 720), and its name, whose unused octets are zero. (Laid out as in C, include/charging.h: so how
// many sets there are and how long the name is stand beside them.)
#[repr(C)]
#[derive(Clone, Copy)]
pub struct Profile {
    pub sgsn: u32,
    pub limits: [Limits; 8],
    pub sets: usize,
    pub zone: u16,
    pub nodeid: [u8; 20],
    pub nodelen: usize,
}

// Is the profile in range?
#[tactic(auto, unfolding(crate::specs::Profile::profile_ok))]
pub fn profile_ok(p: Profile) -> bool
    ensures { result ≡ profile_ok p }
{
    let first = limits::sets::first_editions(p.limits, p.sets);
    limits::sets::sets_ok(first, p.sets) && p.zone <= 1560 && names::node_ok(p.nodeid, p.nodelen)
}

// A profile that is all zero, which is out of range: what stands where there is none.
pub fn no_profile() -> Profile
    ensures { result ≡ no_profile }
{
    Profile {
        sgsn: 0,
        limits: [limits::no_limits(); 8],
        sets: 0,
        zone: 0,
        nodeid: [0; 20],
        nodelen: 0,
    }
}
