// What a record says of a name: its 8A, AB and 95.
ghost use Rattle.std.specs.Prelude.{◌≡◌, drop};
ghost use Rattle.tally.specs.Say.{say_number, say_ggsn, say_of};
ghost use Rattle.tally.specs.Private.Places.{said_in};

use crate::seek;
use ber::{address, count, word};

// What the contents of a record say of the name: the number that it carries, 0 where it carries none; None where it is of another name. An
// Err is the place of a field that does not end within the record.
pub fn say(c: &[u8], id: u32, ggsn: u32) -> Result<Option<u64>, usize>
    ensures { result ≡ said_in c.now (say_of id ggsn c.now) }
{
    let p = seek::seek(c, 0, 0x8A)?;
    let Some((x, next)) = word::word_at(c, p, 0x8A) else {
        return Ok(None);
    };
    if x != id {
        return Ok(None);
    }
    say_ggsn(c, next, ggsn)
}

// What they say from the charging ID on.
fn say_ggsn(c: &[u8], at: usize, ggsn: u32) -> Result<Option<u64>, usize>
    ensures { result ≡ said_in c.now (say_ggsn ggsn (drop at c.now)) }
{
    let p = seek::seek(c, at, 0xAB)?;
    let Some((x, next)) = address::address_at(c, p, 0xAB) else {
        return Ok(None);
    };
    if x != ggsn {
        return Ok(None);
    }
    say_number(c, next)
}

// What they say from the GGSN's address on.
fn say_number(c: &[u8], at: usize) -> Result<Option<u64>, usize>
    ensures { result ≡ said_in c.now (say_number (drop at c.now)) }
{
    let p = seek::seek(c, at, 0x95)?;
    match count::count_at(c, p, 0x95) {
        Some((number, _)) => Ok(Some(number)),
        None => Ok(Some(0)),
    }
}
