// How long a record lasted.
ghost use Rattle.std.specs.Prelude.{◌≡◌, ◌≤◌, ◌-◌, take};
ghost use Rattle.scdr.specs.Rules.{duration_from};

use calendar::Stamp;
use container::Container;

// The last container's time minus the opening: how long the record lasted.
pub fn duration(v: [Container; 15], n: usize, opening: Stamp) -> u32
    requires { n ≤ 15 }
    ensures { result ≡ duration_from opening.seconds (take n v) }
{
    if n == 0 {
        return 0;
    }
    let c = v[n - 1];
    lasted(c, opening)
}

// A container's time minus the opening.
pub fn lasted(c: Container, opening: Stamp) -> u32
    ensures { result ≡ c.time.seconds - opening.seconds }
{
    let last = c.time;
    if last.seconds < opening.seconds {
        return 0;
    }
    last.seconds - opening.seconds
}
