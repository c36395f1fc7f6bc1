// A record after its mark.
ghost use Rattle.subscriber.specs.Private.Marked.{Marks};

use ber::written::NotWritten;
use mcdr::{MmRecord, rules, write};

// Writes a record after its mark, from the start of out, and says how many octets that are. One outside the rules is not written, nor is one
// for which there is no room: then out is as it was.
pub fn mark(r: &MmRecord, out: &mut [u8]) -> Result<usize, NotWritten>
    ensures { Marks r.now out.old out.new result }
{
    if out.len() < 2 {
        if rules::within(r) {
            return Err(NotWritten::NoRoom);
        }
        return Err(NotWritten::OutsideRules);
    }
    let n = write::write_record(r, &mut out[2..])?;
    out[0] = 0xC3;
    out[1] = 0x5A;
    Ok(2 + n)
}
