// All fields of a record, one after another: what stands under A0.
ghost use Rattle.std.specs.Prelude.{◌≡◌, T, length, IsSomeAnd};
ghost use Rattle.ber.specs.Private.Filled.{Filled};
ghost use Rattle.scdr.specs.Rules.{within};
ghost use Rattle.scdr.specs.Layout.{body, of_record};

use crate::{Record, duration, parts, tags};
use ber::text;
use container::list;

// All fields of a record within the rules, from the start of out, which has room for any.
pub fn put_body(out: &mut [u8], r: &Record) -> Option<usize>
    requires { (length out.old ≡ 1020) × T (within r.now) }
    ensures { IsSomeAnd result (λ n. Filled (body.enc (of_record r.now)) 1020 out.new n) }
{
    let lasts = duration::lasted(r.containers[r.count - 1], r.opening);
    let at = parts::put_front(out, 0, r.network, r.imsi, r.sgsn, r.charging)?;
    let at = parts::put_pdp(out, at, r.ggsn, &r.apn, r.apnlen, r.pdptype, r.address)?;
    let at = list::put_list(out, at, tags::CONTAINERS, &r.containers, r.count)?;
    let at = parts::put_end(out, at, r.opening, lasts, r.change, r.cause, r.number)?;
    text::put_opt_text(out, at, tags::NODE_ID, &r.nodeid, r.nodelen)
}
