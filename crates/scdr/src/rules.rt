// A record within the rules.
ghost use Rattle.std.specs.Prelude.{◌≡◌};
ghost use Rattle.scdr.specs.Rules.{within};

use crate::{Record, closing};
use ber::imsi;
use container::{rules, unused};
use octets::names;

pub fn within(r: &Record) -> bool
    ensures { result ≡ within r.now }
{
    let imsi = imsi::imsi_size(&r.imsi).is_some();
    let name = names::apn_ok(r.apn, r.apnlen);
    let time = calendar::stamp_within(r.opening);
    let list = rules::list_ok(r.containers, r.count, r.opening)
        & unused::unused_blank(r.containers, r.count);
    let cause = closing::cause_ok(r.cause);
    let number = closing::number_ok(r.cause, r.number);
    let change = closing::change_ok(r.change, r.number);
    let node = names::node_ok(r.nodeid, r.nodelen);
    imsi & name & time & list & cause & number & change & node
}
