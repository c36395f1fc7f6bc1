// Characters of a text, of every class.
ghost use Rattle.std.specs.Prelude.{◌≡◌};
ghost use Rattle.octets.specs.Chars.{all_of, char_of, is_zero, lower};

// Which characters a text may have.
#[derive(Clone, Copy)]
pub enum Class {
    // of an access point name in a record or a node: no capitals
    Apn,
    // of a node ID
    Node,
    // of a decimal number
    Digit,
}

// Is x a character of the class?
#[tactic(auto, unfolding(crate::specs::Chars::apn_char, crate::specs::Chars::node_char))]
fn is_char(class: Class, x: u8) -> bool
    ensures { result ≡ char_of class x }
{
    match class {
        Class::Apn => matches!(x, b'a'..=b'z' | b'0'..=b'9' | b'.' | b'-'),
        Class::Node => matches!(x, b' '..=b'~'),
        Class::Digit => matches!(x, b'0'..=b'9'),
    }
}

// A to Z lowered, any other octet as it is.
#[tactic(auto, unfolding(crate::specs::Chars::lower))]
pub fn lower(x: u8) -> u8
    ensures { result ≡ lower x }
{
    x.to_ascii_lowercase()
}

// Are all of s characters of the class?
pub fn all_chars(class: Class, s: &[u8]) -> bool
    ensures { result ≡ all_of (char_of class) s.now }
{
    s.iter().all(|x| is_char(class, *x))
}

// Are all of s zero? The octets are gathered, with no test between them, so that many are taken at once.
pub fn zeros(s: &[u8]) -> bool
    ensures { result ≡ all_of is_zero s.now }
{
    s.iter().fold(0, |all, x| all | *x) == 0
}
