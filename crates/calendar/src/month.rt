// Months, counted from January 2000.
ghost use Rattle.std.specs.Prelude.{◌≡◌, ◌<◌};
ghost use Rattle.calendar.specs.Private.Bound.{Is};
ghost use Rattle.calendar.specs.Private.Date.{Dated, Lasts};
ghost use Rattle.calendar.specs.Stamp.{month_val};

use crate::digits::of_bcd;
use crate::table::first_day;

// The date of a day: its month, and its place there, counted from 0.
#[derive(Clone, Copy)]
pub struct Date {
    pub month: u32,
    pub place: u32,
}

// A mean month has 30.4375 days, which is 487 / 16. The day four weeks earlier, divided by that, gives the month before the day's or, late in
// a month, that month (`near_month` of proofs/Months.antt). So mostly one look at the month after it is enough, and never more than two.
pub fn date_of(day: u32) -> Date
    requires { day < 36525 }
    ensures { Dated day result.month result.place }
{
    let near = day.saturating_sub(28) * 16 / 487;
    let next = first_day(near + 1);
    if next <= day {
        Date {
            month: near + 1,
            place: day - next,
        }
    } else {
        Date {
            month: near,
            place: day - first_day(near),
        }
    }
}

// The days of a month: the one on which it begins, and how many there are.
#[derive(Clone, Copy)]
pub struct Days {
    pub first: u32,
    pub count: u32,
}

// They end where the next month begins.
pub fn days_of(month: u32) -> Days
    requires { month < 1200 }
    ensures { Lasts month result.first result.count }
{
    let first = first_day(month);
    Days {
        first,
        count: first_day(month + 1) - first,
    }
}

// The month that the octets YY MM name; months count from 1 there. It lies past 2099 for some that name none.
pub fn month_named(year: u8, month: u8) -> u32
    ensures { Is (month_val year month) 2144 result }
{
    of_bcd(year) * 12 + of_bcd(month).saturating_sub(1)
}
