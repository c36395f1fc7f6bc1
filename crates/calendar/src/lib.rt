// The calendar: local seconds from 2000 to 2099, and the nine octets of a TimeStamp, YY MM DD hh mm ss S hh mm in BCD.
//
// No public function has a `requires`: each answers for every input.
#![tactic(auto)]

mod digits;
mod month;
mod table;
mod zone;

ghost use Rattle.std.specs.Prelude.{◌≡◌, ◌<◌, ◌≤◌, ◌↔◌, IsTrue};
ghost use Rattle.std.specs.Bool.{then_some};
ghost use Rattle.calendar.specs.Private.Bound.{Is};
ghost use Rattle.calendar.specs.Stamp.{stamp_ok, stamp_enc, stamp, clock_val, octets_of};

use digits::{of_bcd, to_bcd};
use month::{Date, date_of, days_of, month_named};
use zone::{away_of, sign_of, zone_of};

// Local seconds since 2000-01-01 00:00:00, up to 3,155,759,999 at the end of 2099. The zone is the offset from universal time in
// minutes, plus 720: 0 is -720, 720 is no offset, and 1560, the last, is 840.
#[repr(C)]
#[derive(Clone, Copy, PartialEq, Eq, Debug)]
pub struct Stamp {
    pub seconds: u32,
    pub zone: u16,
}

// Whether the time and the zone are in range.
#[tactic(auto, unfolding(crate::specs::Stamp::stamp_ok))]
pub fn stamp_within(t: Stamp) -> bool
    ensures { result ≡ stamp_ok t }
{
    t.seconds < 3155760000 && t.zone <= 1560
}

// The nine octets of a TimeStamp, of a time and a zone in range.
pub fn stamp_octets(t: Stamp) -> Option<[u8; 9]>
    ensures { result ≡ then_some (stamp_ok t) (stamp_enc t) }
{
    if !stamp_within(t) {
        return None;
    }
    Some(octets_of(date_of(t.seconds / 86400), t.seconds % 86400, t.zone))
}

// The nine octets of a date, a second of the day, and a zone.
fn octets_of(date: Date, second: u32, zone: u16) -> [u8; 9]
    requires { (date.month < 1200) × (date.place < 31) × (second < 86400) × (zone ≤ 1560) }
    ensures { result ≡ octets_of (date.month, date.place) second zone }
{
    let size = away_of(zone);
    [
        to_bcd(date.month / 12),
        to_bcd(date.month % 12 + 1),
        to_bcd(date.place + 1),
        to_bcd(second / 3600),
        to_bcd(second / 60 % 60),
        to_bcd(second % 60),
        sign_of(zone),
        to_bcd(size / 60),
        to_bcd(size % 60),
    ]
}

// The second of the day at hh mm ss.
fn second_of(hours: u8, minutes: u8, seconds: u8) -> u32
    ensures { Is (clock_val hours minutes seconds) 604065 result }
{
    of_bcd(hours) * 3600 + of_bcd(minutes) * 60 + of_bcd(seconds)
}

// Reads the whole contents of a TimeStamp: a time in range whose octets they are. What they say is worked out digit by digit, and counts if
// it is in range and has these very octets: so 2D 00 00, or a digit above 9, is no time. Nor is 31 February or 24:00:00, which would say a
// time of another day.
pub fn stamp_of(s: &[u8]) -> Option<Stamp>
    ensures { result ≡ stamp.dec s.now }
{
    if s.len() != 9 {
        return None;
    }
    let month = month_named(s[0], s[1]);
    if month >= 1200 {
        return None;
    }
    let days = days_of(month);
    let place = of_bcd(s[2]).saturating_sub(1);
    if place >= days.count {
        return None;
    }
    let second = second_of(s[3], s[4], s[5]);
    if second >= 86400 {
        return None;
    }
    let t = Stamp {
        seconds: (days.first + place) * 86400 + second,
        zone: zone_of(s[6], s[7], s[8]),
    };
    if !stamp_within(t) {
        return None;
    }
    let octets = octets_of(Date { month, place }, second, t.zone);
    is_same(&octets, s).then_some(t)
}

// Whether s has these octets, one by one: `==` of slices makes a record's reading slower by a seventh.
fn is_same(octets: &[u8; 9], s: &[u8]) -> bool
    ensures { IsTrue result ↔ (octets.now ≡ s.now) }
{
    octets.iter().eq(s)
}
