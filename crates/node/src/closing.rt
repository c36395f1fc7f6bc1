// What a message does to an open record: a change, a closing.
ghost use Rattle.std.specs.Prelude.{◌≡◌, true};
ghost use Rattle.container.specs.Open.{ample};
ghost use Rattle.node.specs.Hear.{reported, qos_after, change_of, closing};

use crate::Message;
use container::{OpenRecord, Qos, open, qos_profile as qos};

// The record after the report.
#[tactic(auto, unfolding(crate::specs::Hear::reported))]
pub fn reported(o: OpenRecord, m: Message) -> OpenRecord
    requires { ample o ≡ true }
    ensures { result ≡ reported o m }
{
    open::reported(o, m.up, m.down)
}

// The QoS in force after it.
#[tactic(auto, unfolding(crate::specs::Hear::qos_after))]
pub fn qos_after(o: OpenRecord, m: Message) -> Qos
    ensures { result ≡ qos_after o m }
{
    if m.brings { m.qos } else { o.qos }
}

// The condition with which it ends the container, if it is a change.
#[tactic(auto, unfolding(crate::specs::Hear::change_of))]
pub fn change_of(o: OpenRecord, m: Message) -> Option<u8>
    ensures { result ≡ change_of o m }
{
    if m.brings {
        if qos::same_qos(o.qos, m.qos) {
            None
        } else {
            Some(0)
        }
    } else if m.tariff {
        Some(1)
    } else {
        None
    }
}

// The cause with which it closes the record, if it does: by the limits that the record opened with.
#[tactic(auto, unfolding(crate::specs::Hear::closing, crate::specs::Hear::limit_met))]
pub fn cause_of(o: OpenRecord, t: u32, m: Message) -> Option<u8>
    requires { ample o ≡ true }
    ensures { result ≡ closing o t m }
{
    if m.closes {
        Some(m.cause)
    } else if m.counts && open::volume_met(reported(o, m)) {
        Some(16)
    } else if m.ticks && open::time_met(o, t) {
        Some(17)
    } else if change_of(o, m).is_some() && open::changes_met(o) {
        Some(19)
    } else {
        None
    }
}
