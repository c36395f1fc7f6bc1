// Numbers at a place of an event, big-endian. Octets past the end are 0.
ghost use Rattle.std.specs.Prelude.{◌≡◌, ◌<◌};
ghost use Rattle.ber.specs.Int.{number_in};

#[tactic(auto, unfolding(ber::specs::Int::spelt, ber::specs::Int::octets_from, ber::specs::Int::number_in))]
pub fn two(s: &[u8], at: usize) -> u16
    requires { at < 256 }
    ensures { result ≡ number_in 2 at s.now }
{
    u16::from_be_bytes([octets::octet(s, at), octets::octet(s, at + 1)])
}

#[tactic(auto, unfolding(ber::specs::Int::spelt, ber::specs::Int::octets_from, ber::specs::Int::number_in))]
pub fn four(s: &[u8], at: usize) -> u32
    requires { at < 256 }
    ensures { result ≡ number_in 4 at s.now }
{
    u32::from_be_bytes([
        octets::octet(s, at),
        octets::octet(s, at + 1),
        octets::octet(s, at + 2),
        octets::octet(s, at + 3),
    ])
}

#[tactic(auto, unfolding(ber::specs::Int::spelt, ber::specs::Int::octets_from, ber::specs::Int::number_in))]
pub fn eight(s: &[u8], at: usize) -> u64
    requires { at < 256 }
    ensures { result ≡ number_in 8 at s.now }
{
    u64::from_be_bytes([
        octets::octet(s, at),
        octets::octet(s, at + 1),
        octets::octet(s, at + 2),
        octets::octet(s, at + 3),
        octets::octet(s, at + 4),
        octets::octet(s, at + 5),
        octets::octet(s, at + 6),
        octets::octet(s, at + 7),
    ])
}
