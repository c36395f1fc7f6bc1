// Two decimal digits in an octet.
ghost use Rattle.std.specs.Prelude.{◌<◌, ◌≡◌};
ghost use Rattle.calendar.specs.Private.Bound.{Is};
ghost use Rattle.calendar.specs.Stamp.{bcd, unbcd};

// The octet of a number below 100.
pub fn to_bcd(n: u32) -> u8
    requires { n < 100 }
    ensures { result ≡ bcd n }
{
    (n / 10 * 16 + n % 10) as u8
}

// The number in an octet; its halves are taken as they come, so that it may be as large as 165.
pub fn of_bcd(x: u8) -> u32
    ensures { Is (unbcd x) 165 result }
{
    u32::from(x / 16 * 10 + x % 16)
}
