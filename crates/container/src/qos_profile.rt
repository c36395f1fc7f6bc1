// The QoS profile: its test, its octets read and written.
ghost use Rattle.std.specs.Prelude.{◌≡◌, T, length, IsSomeAnd};
ghost use Rattle.format.specs.Maybe.{guard};
ghost use Rattle.ber.specs.Tlv.{tlv_enc};
ghost use Rattle.ber.specs.Field.{first};
ghost use Rattle.ber.specs.Read.{read_at};
ghost use Rattle.ber.specs.Write.{Puts};
ghost use Rattle.container.specs.Qos.{qos_ok, same_qos, qos, no_qos};
ghost use Rattle.ber.specs.Private.Filled.{Filled};

use crate::{Qos, tags};
use ber::{field, tlv};

// Is each of the five numbers in its range?
pub fn qos_ok(q: Qos) -> bool
    ensures { result ≡ qos_ok q }
{
    (q.reliability <= 5) & (q.delay <= 3) & (q.precedence <= 3) & (q.peak <= 9) & (q.mean <= 18)
}

// Are two profiles the same?
pub fn same_qos(a: Qos, b: Qos) -> bool
    ensures { result ≡ same_qos a b }
{
    a == b
}

// The profile that says nothing.
pub fn no_qos() -> Qos
    ensures { result ≡ no_qos }
{
    Qos {
        reliability: 0,
        delay: 0,
        precedence: 0,
        peak: 0,
        mean: 0,
    }
}

// The profile under the tag at a place of s.
pub fn qos_at(s: &[u8], at: usize, tag: u8) -> Option<(Qos, usize)>
    ensures { result ≡ read_at (first tag qos) s.now at }
{
    let (contents, next) = tlv::part_at(s, at, tag)?;
    Some((qos_of(contents)?, next))
}

// The profile whose contents s is, all of s.
fn qos_of(s: &[u8]) -> Option<Qos>
    ensures { result ≡ qos.dec s.now }
{
    let (reliability, at) = field::octet_at(s, 0, tags::RELIABILITY)?;
    let (delay, at) = field::octet_at(s, at, tags::DELAY)?;
    let (precedence, at) = field::octet_at(s, at, tags::PRECEDENCE)?;
    let (peak, at) = field::octet_at(s, at, tags::PEAK)?;
    let (mean, at) = field::octet_at(s, at, tags::MEAN)?;
    if at != s.len() {
        return None;
    }
    let q = Qos {
        reliability,
        delay,
        precedence,
        peak,
        mean,
    };
    qos_ok(q).then_some(q)
}

// A profile under the tag, at a place of out. One out of range is not written.
pub fn put_qos(out: &mut [u8], at: usize, tag: u8, q: Qos) -> Option<usize>
    ensures { Puts (guard (qos_ok q) (tlv_enc tag (qos.enc q))) out.old out.new at result }
{
    if !qos_ok(q) {
        return None;
    }
    let mut b = [0u8; 15];
    let end = put_fields(&mut b, q)?;
    tlv::put_tlv(out, at, tag, &b[..end])
}

// Its five fields, at the front of b: how many octets they are.
fn put_fields(b: &mut [u8], q: Qos) -> Option<usize>
    requires { (length b.old ≡ 15) × T (qos_ok q) }
    ensures { IsSomeAnd result (λ n. Filled (qos.enc q) 15 b.new n) }
{
    let at = field::put_octet(b, 0, tags::RELIABILITY, q.reliability)?;
    let at = field::put_octet(b, at, tags::DELAY, q.delay)?;
    let at = field::put_octet(b, at, tags::PRECEDENCE, q.precedence)?;
    let at = field::put_octet(b, at, tags::PEAK, q.peak)?;
    field::put_octet(b, at, tags::MEAN, q.mean)
}
