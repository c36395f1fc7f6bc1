// The kinds of event: the number of each, how long an event of it is as a whole, and what such an event says.
ghost use Rattle.std.specs.Prelude.{◌≡◌};
ghost use Rattle.event.specs.Private.ByKind.{Decodes, row_by, said_in};

use crate::{Event, Refusal, fields, number};

#[derive(Clone, Copy, PartialEq, Eq, Debug)]
pub enum Kind {
    Activate,
    Traffic,
    Qos,
    Tariff,
    Release,
    Tick,
    Management,
    Attach,
    Location,
    ManageSubscriber,
    Detach,
    Replace,
}

impl TryFrom<u8> for Kind {
    type Error = Refusal;

    ghost try_from_gives = { Decodes };

    fn try_from(number: u8) -> Result<Self, Refusal> {
        match number {
            1 => Ok(Kind::Activate),
            2 => Ok(Kind::Traffic),
            3 => Ok(Kind::Qos),
            4 => Ok(Kind::Tariff),
            5 => Ok(Kind::Release),
            6 => Ok(Kind::Tick),
            7 => Ok(Kind::Management),
            8 => Ok(Kind::Attach),
            9 => Ok(Kind::Location),
            10 => Ok(Kind::ManageSubscriber),
            11 => Ok(Kind::Detach),
            12 => Ok(Kind::Replace),
            _ => Err(Refusal::UnknownKind),
        }
    }
}

impl Kind {
    // How many octets an event with these at its front has as a whole: an activate 37, and n more of name.
    pub fn whole(self, s: &[u8]) -> usize
        ensures { result ≡ (row_by self).whole s.now }
    {
        match self {
            Kind::Activate => 37 + usize::from(octets::octet(s, 36)),
            Kind::Traffic => 23,
            Kind::Qos => 20,
            Kind::Tariff => 7,
            Kind::Release => 16,
            Kind::Tick => 7,
            Kind::Management => 15,
            Kind::Attach => 18,
            Kind::Location => 18,
            Kind::ManageSubscriber => 15,
            Kind::Detach => 16,
            Kind::Replace => 23,
        }
    }

    // What an event says, where its fields are in range.
    pub fn event(self, s: &[u8]) -> Option<Event>
        ensures { result ≡ said_in (row_by self) s.now }
    {
        Some(match self {
            Kind::Activate => Event::Activate(fields::activation(s)?),
            Kind::Traffic => {
                Event::Traffic(fields::name_of(s), number::four(s, 15), number::four(s, 19))
            }
            Kind::Qos => Event::Qos(fields::name_of(s), fields::qos(s)?),
            Kind::Tariff => Event::Tariff,
            Kind::Release => Event::Release(fields::name_of(s), fields::release_cause(s)?),
            Kind::Tick => Event::Tick,
            Kind::Management => Event::Management(fields::name_of(s)),
            Kind::Attach => {
                Event::Attach(
                    fields::subscriber(s)?,
                    number::two(s, 15),
                    octets::octet(s, 17),
                )
            }
            Kind::Location => {
                Event::Location(
                    fields::subscriber(s)?,
                    number::two(s, 15),
                    octets::octet(s, 17),
                )
            }
            Kind::ManageSubscriber => Event::ManageSubscriber(fields::subscriber(s)?),
            Kind::Detach => Event::Detach(fields::subscriber(s)?, fields::detach_cause(s)?),
            Kind::Replace => Event::Replace(fields::replacement(s)?),
        })
    }
}
