// The reader of a record: the record that the octets are.
ghost use Rattle.std.specs.Prelude.{◌≡◌};
ghost use Rattle.mcdr.specs.Layout.{mcdr};

use crate::{MmRecord, fields, rules, tags};
use ber::tlv;

// Reads a record, without its mark: all of s. It answers the record whose octets s is, if that is one within the rules; else None, which is
// the refusal 20 (`ber::answer::answer_of` says the number of an answer).
pub fn read_record(s: &[u8]) -> Option<MmRecord>
    ensures { result ≡ mcdr.dec s.now }
{
    let (contents, end) = tlv::part_at(s, 0, tags::RECORD)?;
    if end != s.len() {
        return None;
    }
    let cdr = fields::read_fields(contents)?;
    rules::within(&cdr).then_some(cdr)
}
