// An event's octets decoded: what an event says, or the first refusal that fits. The time's range is the node's to
// look at, and so is what a context or a subscriber has to do with the event. (The IMSI of kinds 8 to 11 is octets 7 to 14 of the event.)
//
// number has numbers at a place, fields where each field stands and what is in range, kinds the kinds by their numbers, framing where an
// event ends in a file of them. One kind more is a case of `Event` here, a row of specs/Kinds.antt, and a case of `Kind` in kinds.
//
// No public function has a `requires`: each answers for every input.
#![tactic(auto)]

mod fields;
pub mod framing;
mod kinds;
mod number;

ghost use Rattle.std.specs.Prelude.{◌≡◌};
ghost use Rattle.event.specs.Rows.{number_of};
ghost use Rattle.event.specs.Event.{decoded};

use kinds::Kind;

// The name of a context.
#[repr(C)]
#[derive(Clone, Copy, PartialEq, Eq, Debug)]
pub struct Name {
    pub id: u32,
    pub ggsn: u32,
}

// What an activate says. The IMSI is octets 16 to 23 of the event, and the access point name its octets from 37 on.
#[derive(Clone, Copy)]
pub struct Activation {
    pub name: Name,
    // initiated by the network
    pub network: bool,
    // arrived by a change of SGSN
    pub change: bool,
    pub pdptype: u16,
    pub address: u32,
    pub qos: container::Qos,
    // the number of its set of limits
    pub set: u8,
    pub apnlen: usize,
}

// What a replacement of a set of limits says: the set's number, its edition from now on, and its limits.
#[derive(Clone, Copy)]
pub struct Replacement {
    pub set: u8,
    pub edition: u16,
    pub limits: limits::Limits,
}

#[derive(Clone, Copy)]
pub enum Event {
    Activate(Activation),
    // octets up and down
    Traffic(Name, u32, u32),
    // a change of QoS: the profile from now on
    Qos(Name, container::Qos),
    Tariff,
    // the cause
    Release(Name, u8),
    Tick,
    Management(Name),
    // a subscriber, by the number that its IMSI spells, attaches at a place: its location area code, its routing area code
    Attach(u64, u16, u8),
    // it moved to a place
    Location(u64, u16, u8),
    // management of a subscriber
    ManageSubscriber(u64),
    // the cause
    Detach(u64, u8),
    // a set of limits is replaced whole
    Replace(Replacement),
}

// What is wrong with an event's octets: the rows of the refusal table that these alone can meet, in its order.
#[derive(Clone, Copy, PartialEq, Eq, Debug)]
pub enum Refusal {
    // under 7 octets
    TooShort,
    // not C3 5E at the front
    NoMark,
    // the kind not 1..12
    UnknownKind,
    // not as long as its kind is
    WrongLength,
    // a field out of range
    OutOfRange,
}

// The number of the row.
impl From<Refusal> for u8 {
    ghost from_gives = { λ refusal n. n ≡ number_of refusal };

    fn from(refusal: Refusal) -> u8 {
        match refusal {
            Refusal::TooShort => 1,
            Refusal::NoMark => 2,
            Refusal::UnknownKind => 3,
            Refusal::WrongLength => 4,
            Refusal::OutOfRange => 5,
        }
    }
}

// The time and the event, or the first refusal that fits.
pub fn decode(s: &[u8]) -> Result<(u32, Event), Refusal>
    ensures { result ≡ decoded s.now }
{
    if s.len() < 7 {
        return Err(Refusal::TooShort);
    }
    if !fields::is_marked(s) {
        return Err(Refusal::NoMark);
    }
    let kind = Kind::try_from(octets::octet(s, 2))?;
    if s.len() != kind.whole(s) {
        return Err(Refusal::WrongLength);
    }
    let event = kind.event(s).ok_or(Refusal::OutOfRange)?;
    Ok((number::four(s, 3), event))
}
