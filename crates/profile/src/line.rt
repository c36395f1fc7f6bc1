// The line at the front of a text, and the lines after it.
ghost use Rattle.std.specs.Prelude.{◌≡◌};
ghost use Rattle.profile.specs.Line.{lines_past, value_at, spaced, value_fault, line_fault};

use crate::fault::Fault;
use crate::{address, cut, offset, three};

// The kind of a line's value.
#[derive(Clone, Copy)]
pub enum Kind {
    // four numbers with dots between them
    Dotted,
    // three numbers with one space between them
    Three,
    // a number, with a minus sign where it is below zero
    Signed,
    // the rest of the line, any octets
    Rest,
}

// What is left of the text after n lines.
pub fn lines_past(s: &[u8], n: u8) -> &[u8]
    ensures { result.now ≡ lines_past n s.now }
{
    let mut t = s;
    for _ in 0..n {
        t = cut::past(t, b'\n');
    }
    t
}

// The value of the line after n lines: what follows its first space.
pub fn value(s: &[u8], n: u8) -> &[u8]
    ensures { result.now ≡ value_at n s.now }
{
    cut::past(cut::up_to(lines_past(s, n), b'\n'), b' ')
}

// The space before a value, of what follows the name.
fn spaced(kind: Kind, t: &[u8]) -> bool
    ensures { result ≡ spaced kind t.now }
{
    let first = octets::octet(t, 0) == b' ';
    let second = octets::octet(t, 1) == b' ';
    match kind {
        Kind::Dotted | Kind::Three | Kind::Signed => first && !second,
        Kind::Rest => t.is_empty() || (first && 2 <= t.len()),
    }
}

// What is wrong with a value.
#[tactic(auto, unfolding(crate::specs::Fault::unless))]
fn value_fault(kind: Kind, v: &[u8]) -> Option<Fault>
    ensures { result ≡ value_fault kind v.now }
{
    match kind {
        Kind::Dotted if address::address_ok(v) => None,
        Kind::Dotted => Some(Fault::Address),
        Kind::Three => three::three_fault(v),
        Kind::Signed => offset::offset_fault(v),
        Kind::Rest => None,
    }
}

// What is wrong with the line.
#[tactic(auto, unfolding(crate::specs::Line::line_fault, crate::specs::Fault::unless))]
pub fn line_fault(s: &[u8], name: &[u8], kind: Kind) -> Option<Fault>
    ensures { result ≡ line_fault name.now kind s.now }
{
    let line = cut::up_to(s, b'\n');
    if s.is_empty() {
        Some(Fault::Missing)
    } else if !cut::has(s, b'\n') {
        Some(Fault::End)
    } else if !cut::begins(line, name) {
        Some(Fault::Name)
    } else if !spaced(kind, cut::rest(line, name.len())) {
        Some(Fault::Space)
    } else {
        value_fault(kind, cut::past(line, b' '))
    }
}
