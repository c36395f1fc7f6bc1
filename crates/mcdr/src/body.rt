// All fields of a record, one after another: what stands under A2.
ghost use Rattle.std.specs.Prelude.{◌≡◌, T, length, IsSomeAnd};
ghost use Rattle.ber.specs.Private.Filled.{Filled};
ghost use Rattle.mcdr.specs.Rules.{within};
ghost use Rattle.mcdr.specs.Layout.{body, of_record};

use crate::{MmRecord, list, parts, tags};
use ber::text;

// All fields of a record within the rules, from the start of out, which has room for any.
pub fn put_body(out: &mut [u8], r: &MmRecord) -> Option<usize>
    requires { (length out.old ≡ 400) × T (within r.now) }
    ensures { IsSomeAnd result (λ n. Filled (body.enc (of_record r.now)) 400 out.new n) }
{
    let at = parts::put_front(out, r.imsi, r.sgsn, r.place)?;
    let at = list::put_list(out, at, tags::CHANGES, &r.changes, r.count)?;
    let at = parts::put_end(out, at, r.opening, r.duration, r.cause, r.number)?;
    text::put_opt_text(out, at, tags::NODE_ID, &r.nodeid, r.nodelen)
}
