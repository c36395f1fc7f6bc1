// The place of a subscriber.
ghost use Rattle.std.specs.Prelude.{◌≡◌};
ghost use Rattle.mcdr.specs.Change.{same_place};

use crate::Place;

// Are two places the same?
pub fn same_place(a: Place, b: Place) -> bool
    ensures { result ≡ same_place a b }
{
    a == b
}
