// The text of a profile: lines in this order, each a name, one space, a value and a line feed. One to eight of them are sets of limits.
ghost use Rattle.std.specs.Prelude.{◌≡◌};
ghost use Rattle.profile.specs.Node.{node_octets};
ghost use Rattle.profile.specs.Sets.{sets_in};
ghost use Rattle.profile.specs.Text.{rows_of, first_bad, profile_of, read_of};
ghost use Rattle.profile.specs.Private.Rows.{row_fault};

use crate::fault::{BadLine, Fault};
use crate::line::Kind;
use crate::{Profile, address, cut, line, offset, sets};

// The first twenty octets of v, and zeros after them.
fn node_octets(v: &[u8]) -> [u8; 20]
    ensures { result ≡ node_octets v.now }
{
    let mut out = [0u8; 20];
    let w = octets::front(v, 20);
    out[..w.len()].copy_from_slice(w);
    out
}

// What is wrong with the line of row i at the front of s, where there are so many sets: its name, and the kind of its value.
fn row_fault(s: &[u8], sets: u8, i: u8) -> Option<Fault>
    ensures { result ≡ row_fault sets i s.now }
{
    if i == 0 {
        line::line_fault(s, b"sgsn", Kind::Dotted)
    } else if i <= sets {
        line::line_fault(s, b"limits", Kind::Three)
    } else if i - sets == 1 {
        line::line_fault(s, b"offset", Kind::Signed)
    } else {
        line::line_fault(s, b"node-id", Kind::Rest)
    }
}

// The first bad line, if there is one.
fn first_bad(s: &[u8]) -> Option<BadLine>
    ensures { result ≡ first_bad (rows_of (sets_in s.now)) 1 s.now }
{
    let sets = sets::sets_in(s);
    let mut t = s;
    for i in 0..sets + 3 {
        if let Some(fault) = row_fault(t, sets, i) {
            return Some(BadLine { line: i + 1, fault });
        }
        t = cut::past(t, b'\n');
    }
    if t.is_empty() {
        None
    } else {
        Some(BadLine {
            line: sets + 4,
            fault: Fault::More,
        })
    }
}

// The profile of a text that has no bad line.
fn profile_of(s: &[u8]) -> Profile
    ensures { result ≡ profile_of s.now }
{
    let sets = sets::sets_in(s);
    let sgsn = address::address(line::value(s, 0));
    let limits = sets::limits_in(line::lines_past(s, 1), sets);
    let zone = offset::zone(line::value(s, sets + 1));
    let id = line::value(s, sets + 2);
    let nodeid = node_octets(id);
    Profile {
        sgsn,
        limits,
        sets: sets as usize,
        zone,
        nodeid,
        nodelen: id.len(),
    }
}

// What the text says: a profile, or the first bad line and what is wrong there.
#[tactic(auto, unfolding(crate::specs::Text::read_of, crate::specs::Text::read_by))]
pub fn read_profile(s: &[u8]) -> Result<Profile, BadLine>
    ensures { result ≡ read_of s.now }
{
    match first_bad(s) {
        Some(bad) => Err(bad),
        None => Ok(profile_of(s)),
    }
}
