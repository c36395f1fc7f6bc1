// One container: its test, its octets read and written.
ghost use Rattle.std.specs.Prelude.{◌≡◌, T, length, IsSomeAnd};
ghost use Rattle.format.specs.Maybe.{guard};
ghost use Rattle.ber.specs.Tlv.{tlv_enc};
ghost use Rattle.ber.specs.Field.{first};
ghost use Rattle.ber.specs.Table.{row_dec};
ghost use Rattle.ber.specs.Read.{read_at};
ghost use Rattle.ber.specs.Write.{Puts};
ghost use Rattle.container.specs.Container.{container_ok, is_new, is_told, formed, container_tag, QosAfter, container, no_container};
ghost use Rattle.container.specs.Private.NewForm.{new_form};
ghost use Rattle.ber.specs.Private.Filled.{Filled};

use crate::{Container, Qos, qos_profile, stamp, tags};
use ber::{field, tlv};
use calendar::Stamp;

// Is each value of a container as it must be?
pub fn container_ok(c: Container) -> bool
    ensures { result ≡ container_ok c }
{
    let q = c.qos;
    let t = c.time;
    let profile = qos_profile::qos_ok(q);
    let time = calendar::stamp_within(t);
    profile & (c.uplink < 1099511627776) & (c.downlink < 1099511627776) & (c.condition <= 2) & time
}

// The container with nothing counted.
pub fn no_container() -> Container
    ensures { result ≡ no_container }
{
    Container {
        qos: Qos {
            reliability: 0,
            delay: 0,
            precedence: 0,
            peak: 0,
            mean: 0,
        },
        uplink: 0,
        downlink: 0,
        condition: 0,
        time: Stamp {
            seconds: 0,
            zone: 0,
        },
    }
}

// Is the QoS of the container after this one new: did a QoS change end this one?
fn is_new(last: Container) -> bool
    ensures { result ≡ is_new last }
{
    last.condition == 0
}

// The QoS of a container after another one, at the front of s, or of the last one, where it is not new: nothing is read then.
fn qos_after(s: &[u8], last: Container) -> Option<(Qos, usize)>
    ensures { result ≡ read_at (row_dec (QosAfter last)) s.now 0 }
{
    if is_new(last) {
        return qos_profile::qos_at(s, 0, tags::QOS);
    }
    Some((last.qos, 0))
}

// The container at a place of s, after another one. It has a QoS of its own exactly where the last one ended with a QoS change.
pub fn container_at(s: &[u8], at: usize, last: Container) -> Option<(Container, usize)>
    ensures { result ≡ read_at (first container_tag (container last)) s.now at }
{
    let (contents, next) = tlv::part_at(s, at, tags::CONTAINER)?;
    Some((container_of(contents, last)?, next))
}

// The container whose contents s is, all of s, after another one.
fn container_of(s: &[u8], last: Container) -> Option<Container>
    ensures { result ≡ (container last).dec s.now }
{
    let (qos, at) = qos_after(s, last)?;
    let (uplink, at) = field::int_at(s, at, tags::UPLINK)?;
    let (downlink, at) = field::int_at(s, at, tags::DOWNLINK)?;
    let (condition, at) = field::octet_at(s, at, tags::CONDITION)?;
    let (time, at) = stamp::stamp_at(s, at, tags::TIME)?;
    if at != s.len() {
        return None;
    }
    let c = Container {
        qos,
        uplink,
        downlink,
        condition,
        time,
    };
    container_ok(c).then_some(c)
}

// Can a reader tell the QoS of c, which stands after another one? It is new there, or the same still.
fn is_told(c: Container, last: Container) -> bool
    ensures { result ≡ is_told last c }
{
    if is_new(last) {
        return true;
    }
    let p = last.qos;
    let q = c.qos;
    qos_profile::same_qos(p, q)
}

// The QoS of a container after another one, at the front of out, where it is new; else nothing.
fn put_qos_after(out: &mut [u8], q: Qos, last: Container) -> Option<usize>
    ensures { Puts (new_form last q) out.old out.new 0 result }
{
    if is_new(last) {
        return qos_profile::put_qos(out, 0, tags::QOS, q);
    }
    Some(0)
}

// A container at the front of out, after another one. One that is not as it must be, or whose QoS could not be told, is not written.
pub fn put_container(out: &mut [u8], c: Container, last: Container) -> Option<usize>
    ensures { Puts (guard (formed last c) (tlv_enc container_tag ((container last).enc c))) out.old out.new 0 result }
{
    if !container_ok(c) || !is_told(c, last) {
        return None;
    }
    let mut b = [0u8; 53];
    let end = put_fields(&mut b, c, last)?;
    tlv::put_tlv(out, 0, tags::CONTAINER, &b[..end])
}

// Its fields, at the front of b: how many octets they are.
fn put_fields(b: &mut [u8], c: Container, last: Container) -> Option<usize>
    requires { (length b.old ≡ 53) × T (formed last c) }
    ensures { IsSomeAnd result (λ n. Filled ((container last).enc c) 53 b.new n) }
{
    let at = put_qos_after(b, c.qos, last)?;
    let at = field::put_int(b, at, tags::UPLINK, c.uplink)?;
    let at = field::put_int(b, at, tags::DOWNLINK, c.downlink)?;
    let at = field::put_octet(b, at, tags::CONDITION, c.condition)?;
    stamp::put_stamp(b, at, tags::TIME, c.time)
}
