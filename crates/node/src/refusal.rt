// Why a call is refused: the rows of the table of refusals that a node answers with, each by its number.
ghost use Rattle.std.specs.Prelude.{◌≡◌};
ghost use Rattle.node.specs.Refusal.{number_of, answer_of};
ghost use Rattle.node.specs.declared.refusal.Refusal.TheVariants.{Octets};

#[derive(Clone, Copy, PartialEq, Eq, Debug)]
pub enum Refusal {
    // the octets of the event are not one
    Octets(event::Refusal),
    // above the end of 2099, or below the clock
    Time,
    // so many events were accepted already
    TooMany,
    NotActive,
    Active,
    NoSlot,
    // the output is longer than the buffer
    NoRoom,
    BadProfile,
    // the node breaks a rule of a sound node
    Unsound,
    // a list of reports of odd length
    OddList,
    Attached,
    NotAttached,
    NoPlace,
    UnknownSet,
    // of a set, not the next one
    Edition,
}

impl From<event::Refusal> for Refusal {
    ghost from_gives = { λ octets refusal. refusal ≡ Octets octets };

    fn from(octets: event::Refusal) -> Refusal {
        Refusal::Octets(octets)
    }
}

// The number of its row.
impl From<Refusal> for u8 {
    ghost from_gives = { λ refusal n. n ≡ number_of refusal };

    fn from(refusal: Refusal) -> u8 {
        match refusal {
            Refusal::Octets(refusal) => refusal.into(),
            Refusal::Time => 6,
            Refusal::TooMany => 7,
            Refusal::NotActive => 8,
            Refusal::Active => 9,
            Refusal::NoSlot => 10,
            Refusal::NoRoom => 11,
            Refusal::BadProfile => 12,
            Refusal::Unsound => 13,
            Refusal::OddList => 14,
            Refusal::Attached => 15,
            Refusal::NotAttached => 16,
            Refusal::NoPlace => 17,
            Refusal::UnknownSet => 18,
            Refusal::Edition => 19,
        }
    }
}

// 0 where there is none.
pub fn answer_of(refusal: Option<Refusal>) -> u8
    ensures { result ≡ answer_of refusal }
{
    match refusal {
        Some(refusal) => refusal.into(),
        None => 0,
    }
}
