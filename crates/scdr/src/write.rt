// The writer of a record: its fields in ascending order, under A0.
ghost use Rattle.std.specs.Prelude.{◌≤◌, T, length};
ghost use Rattle.scdr.specs.Rules.{within};
ghost use Rattle.scdr.specs.Layout.{scdr};
ghost use Rattle.scdr.specs.Answers.{Writes, Sizes};

use crate::{Record, body, rules, tags};
use ber::tlv;
use ber::written::NotWritten;

// Writes a record, without its mark, from the start of out, and answers how many octets it has, 1,024 at most. One outside the rules is not
// written, nor is one that does not fit: then out is as it was.
pub fn write_record(r: &Record, out: &mut [u8]) -> Result<usize, NotWritten>
    ensures writes { Writes r.now out.old out.new result }
    ensures short { T (within r.now) → length (scdr.enc r.now) ≤ 1024 }
{
    if !rules::within(r) {
        return Err(NotWritten::OutsideRules);
    }
    let mut b = [0u8; 1020];
    let n = body::put_body(&mut b, r).unwrap();
    tlv::put_tlv(out, 0, tags::RECORD, &b[..n]).ok_or(NotWritten::NoRoom)
}

// How many octets a record has, without its mark: none where it is outside the rules.
pub fn record_size(r: &Record) -> Option<usize>
    ensures { Sizes r.now result }
{
    let mut b = [0u8; 1024];
    write_record(r, &mut b).ok()
}
