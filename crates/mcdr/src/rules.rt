// A record within the rules.
ghost use Rattle.std.specs.Prelude.{◌≡◌};
ghost use Rattle.mcdr.specs.Rules.{within};

use crate::{MmRecord, changes, closing};
use ber::imsi;
use octets::names;

pub fn within(r: &MmRecord) -> bool
    ensures { result ≡ within r.now }
{
    let imsi = imsi::imsi_size(&r.imsi).is_some();
    let time = calendar::stamp_within(r.opening);
    let list = changes::changes_ok(r.changes, r.count, r.opening, r.place)
        & changes::unused_blank(r.changes, r.count);
    let cause = closing::cause_ok(r.cause);
    let full = closing::full_ok(r.cause, r.count);
    let last = changes::last_time(r.changes, r.count, r.opening.seconds);
    let end = closing::closing_ok(r.cause, r.opening.seconds, r.duration, last);
    let number = closing::number_ok(r.cause, r.number);
    let node = names::node_ok(r.nodeid, r.nodelen);
    imsi & time & list & cause & full & end & number & node
}
