// The writer of a record: its fields in ascending order, under A2.
ghost use Rattle.mcdr.specs.Answers.{Writes};

use crate::{MmRecord, body, rules, tags};
use ber::tlv;
use ber::written::NotWritten;

// Writes a record, without its mark, from the start of out, and answers how many octets it has. One outside the rules is not written, nor
// is one that does not fit: then out is as it was.
pub fn write_record(r: &MmRecord, out: &mut [u8]) -> Result<usize, NotWritten>
    ensures { Writes r.now out.old out.new result }
{
    if !rules::within(r) {
        return Err(NotWritten::OutsideRules);
    }
    let mut b = [0u8; 400];
    let n = body::put_body(&mut b, r).unwrap();
    tlv::put_tlv(out, 0, tags::RECORD, &b[..n]).ok_or(NotWritten::NoRoom)
}
