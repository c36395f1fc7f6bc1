// Values as more than one form writes them.
use calendar::Stamp;
use container::Container;
use mcdr::{Change, MmRecord};
use scdr::Record;
use std::fmt;
use std::fmt::Write;

// Characters as they stand.
#[derive(Clone, Copy)]
pub struct Name<'a>(pub &'a [u8]);

impl<'a> fmt::Display for Name<'a> {
    fn fmt<W: fmt::Write>(&self, f: &mut fmt::Formatter<W>) -> fmt::Result {
        for x in self.0 {
            f.write_char(char::from(*x))?;
        }
        Ok(())
    }
}

// Octets as two digits of sixteen each.
#[derive(Clone, Copy)]
pub struct Hex<'a>(pub &'a [u8]);

impl<'a> fmt::Display for Hex<'a> {
    // Thirty-two octets at a time: a digit put by itself takes several times as long.
    fn fmt<W: fmt::Write>(&self, f: &mut fmt::Formatter<W>) -> fmt::Result {
        for part in self.0.chunks(32) {
            let mut pairs = [[0u8; 2]; 32];
            for (pair, x) in pairs.iter_mut().zip(part) {
                *pair = [digit(x / 16), digit(x % 16)];
            }
            let text = octets::front(pairs.as_flattened(), part.len().wrapping_mul(2));
            f.write_str(str::from_utf8(text).unwrap_or(""))?;
        }
        Ok(())
    }
}

// An octet as its two digits of sixteen.
#[derive(Clone, Copy)]
struct Octet(u8);

impl fmt::Display for Octet {
    fn fmt<W: fmt::Write>(&self, f: &mut fmt::Formatter<W>) -> fmt::Result {
        let digits = [digit(self.0 / 16), digit(self.0 % 16)];
        f.write_str(str::from_utf8(&digits).unwrap_or(""))
    }
}

// One digit of sixteen, as a character.
fn digit(n: u8) -> u8 {
    let d = n % 16;
    if d < 10 { b'0' + d } else { b'A' + (d - 10) }
}

// The digits of an IMSI, the low half of each octet first. An F that fills the last octet is none.
#[derive(Clone, Copy)]
pub struct Imsi<'a>(pub &'a [u8]);

impl<'a> fmt::Display for Imsi<'a> {
    fn fmt<W: fmt::Write>(&self, f: &mut fmt::Formatter<W>) -> fmt::Result {
        for x in self.0 {
            put_digit(f, x % 16)?;
            put_digit(f, x / 16)?;
        }
        Ok(())
    }
}

fn put_digit<W: fmt::Write>(f: &mut fmt::Formatter<W>, d: u8) -> fmt::Result {
    if d < 10 { write!(f, "{d}") } else { Ok(()) }
}

// An IPv4 address, dotted.
#[derive(Clone, Copy)]
pub struct Address(pub u32);

impl fmt::Display for Address {
    fn fmt<W: fmt::Write>(&self, f: &mut fmt::Formatter<W>) -> fmt::Result {
        let [a, b, c, d] = self.0.to_be_bytes();
        write!(f, "{a}.{b}.{c}.{d}")
    }
}

// A time for people.
#[derive(Clone, Copy)]
pub struct Time(pub Stamp);

impl fmt::Display for Time {
    fn fmt<W: fmt::Write>(&self, f: &mut fmt::Formatter<W>) -> fmt::Result {
        put_time(f, self.0, " ", " ")
    }
}

// A time by ISO 8601.
#[derive(Clone, Copy)]
pub struct IsoTime(pub Stamp);

impl fmt::Display for IsoTime {
    fn fmt<W: fmt::Write>(&self, f: &mut fmt::Formatter<W>) -> fmt::Result {
        put_time(f, self.0, "T", "")
    }
}

// A time, with what stands before the hour and before the zone. Its nine octets are two digits of ten each, but for the seventh, which is the
// sign of the zone. A time out of range is shown as nine zeros.
fn put_time<W: fmt::Write>(
    f: &mut fmt::Formatter<W>,
    t: Stamp,
    before_hour: &str,
    before_zone: &str,
) -> fmt::Result {
    let [
        year,
        month,
        day,
        hour,
        minute,
        second,
        sign,
        zone_hour,
        zone_minute,
    ] = calendar::stamp_octets(t).unwrap_or([0; 9]);
    let sign = char::from(sign);
    write!(
        f,
        "20{}-{}-{}{before_hour}{}:{}:{}",
        Octet(year),
        Octet(month),
        Octet(day),
        Octet(hour),
        Octet(minute),
        Octet(second)
    )?;
    write!(
        f,
        "{before_zone}{sign}{}:{}",
        Octet(zone_hour),
        Octet(zone_minute)
    )
}

// The containers that a record has.
pub fn containers(r: &Record) -> &[Container] {
    r.containers.get(..r.count).unwrap_or(&r.containers)
}

// How long a record lasted, in seconds: from its opening to the end of its last container.
pub fn lasted(r: &Record) -> u32 {
    match containers(r).last() {
        Some(c) => c.time.seconds.saturating_sub(r.opening.seconds),
        None => 0,
    }
}

// The location changes that a record has.
pub fn changes(r: &MmRecord) -> &[Change] {
    r.changes.get(..r.count).unwrap_or(&r.changes)
}
