// The zone: minutes from universal time, plus 720. In octets it is a sign and a size.
ghost use Rattle.std.specs.Prelude.{◌≡◌};
ghost use Rattle.calendar.specs.Stamp.{sign, away, zone_val};

use crate::digits::of_bcd;

// S: 2D below zero, else 2B.
pub fn sign_of(zone: u16) -> u8
    ensures { result ≡ sign zone }
{
    if zone < 720 { 0x2D } else { 0x2B }
}

// The offset's size, in minutes.
pub fn away_of(zone: u16) -> u32
    ensures { result ≡ away zone }
{
    u32::from(zone.abs_diff(720))
}

// The zone that the octets S hh mm name: below zero it is at least 0, whatever they say.
pub fn zone_of(sign: u8, hours: u8, minutes: u8) -> u16
    ensures { result ≡ zone_val sign hours minutes }
{
    let size = of_bcd(hours) * 60 + of_bcd(minutes);
    if sign == 0x2D {
        720_u32.saturating_sub(size) as u16
    } else {
        (720 + size) as u16
    }
}
