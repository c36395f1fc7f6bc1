// Why a record was not written. The writers of records share this.
ghost use Rattle.std.specs.Prelude.{◌≡◌};
ghost use Rattle.ber.specs.Written.{number_of};

#[derive(Clone, Copy, PartialEq, Eq, Debug)]
pub enum NotWritten {
    // The record breaks a rule.
    OutsideRules,
    // It is longer than the buffer.
    NoRoom,
}

impl NotWritten {
    // The number that the refusal table has for it.
    pub fn number(self) -> u8
        ensures { result ≡ number_of self }
    {
        match self {
            NotWritten::OutsideRules => 24,
            NotWritten::NoRoom => 11,
        }
    }
}
