// The fields of an event: where they stand, and what is in range. What has a range is there only within it.
ghost use Rattle.std.specs.Prelude.{◌≡◌, ◌<◌};
ghost use Rattle.std.specs.Bool.{then_some};
ghost use Rattle.container.specs.Qos.{qos_ok};
ghost use Rattle.limits.specs.Limits.{limits_ok};
ghost use Rattle.event.specs.Fields.{name_of, qos_at, activation_of, activate_ok, release, cause_of, subscriber_of, subscriber_ok, detach, limits_at, replacement_of};
ghost use Rattle.event.specs.Rows.{marked};

use crate::{Activation, Name, Replacement, number};
use ber::imsi;
use container::{Qos, qos_profile};
use limits::Limits;
use octets::names;

// The mark C3 5E.
#[tactic(auto, unfolding(crate::specs::Rows::marked))]
pub fn is_marked(s: &[u8]) -> bool
    ensures { result ≡ marked s.now }
{
    octets::octet(s, 0) == 0xC3 && octets::octet(s, 1) == 0x5E
}

// The name of the context.
pub fn name_of(s: &[u8]) -> Name
    ensures { result ≡ name_of s.now }
{
    Name {
        id: number::four(s, 7),
        ggsn: number::four(s, 11),
    }
}

fn qos_at(s: &[u8], at: usize) -> Qos
    requires { at < 256 }
    ensures { result ≡ qos_at at s.now }
{
    Qos {
        reliability: octets::octet(s, at),
        delay: octets::octet(s, at + 1),
        precedence: octets::octet(s, at + 2),
        peak: octets::octet(s, at + 3),
        mean: octets::octet(s, at + 4),
    }
}

// The QoS profile of a change of QoS.
pub fn qos(s: &[u8]) -> Option<Qos>
    ensures { result ≡ then_some (qos_ok (qos_at 15 s.now)) (qos_at 15 s.now) }
{
    let qos = qos_at(s, 15);
    qos_profile::qos_ok(qos).then_some(qos)
}

// The fields of an activate in range. One under 37 octets has no n. (Whether the node has its set is the node's to look at.)
fn activate_ok(s: &[u8]) -> bool
    ensures { result ≡ activate_ok s.now }
{
    s.len() >= 37
        && octets::octet(s, 15) <= 3
        && imsi::imsi_size(&s[16..24]).is_some()
        && qos_profile::qos_ok(qos_at(s, 30))
        && names::check_apn(&s[37..]).n != 0
}

fn activation_of(s: &[u8]) -> Activation
    ensures { result ≡ activation_of s.now }
{
    let flags = octets::octet(s, 15);
    Activation {
        name: name_of(s),
        network: flags % 2 == 1,
        change: flags / 2 % 2 == 1,
        pdptype: number::two(s, 24),
        address: number::four(s, 26),
        qos: qos_at(s, 30),
        set: octets::octet(s, 35),
        apnlen: usize::from(octets::octet(s, 36)),
    }
}

// What an activate says.
pub fn activation(s: &[u8]) -> Option<Activation>
    ensures { result ≡ then_some (activate_ok s.now) (activation_of s.now) }
{
    activate_ok(s).then_some(activation_of(s))
}

// The cause of a release: 0, 4 or 18.
#[tactic(auto, unfolding(crate::specs::Fields::release))]
pub fn release_cause(s: &[u8]) -> Option<u8>
    ensures { result ≡ then_some (release (cause_of s.now)) (cause_of s.now) }
{
    let cause = octets::octet(s, 15);
    matches!(cause, 0 | 4 | 18).then_some(cause)
}

// The IMSI of a subscriber. An event under 15 octets has none.
fn subscriber_ok(s: &[u8]) -> bool
    ensures { result ≡ subscriber_ok s.now }
{
    s.len() >= 15 && imsi::imsi_size(&s[7..15]).is_some()
}

// The number that the IMSI of a subscriber spells.
pub fn subscriber(s: &[u8]) -> Option<u64>
    ensures { result ≡ then_some (subscriber_ok s.now) (subscriber_of s.now) }
{
    subscriber_ok(s).then_some(number::eight(s, 7))
}

// The cause of a detach: 0 or 4.
#[tactic(auto, unfolding(crate::specs::Fields::detach))]
pub fn detach_cause(s: &[u8]) -> Option<u8>
    ensures { result ≡ then_some (detach (cause_of s.now)) (cause_of s.now) }
{
    let cause = octets::octet(s, 15);
    matches!(cause, 0 | 4).then_some(cause)
}

fn limits_at(s: &[u8]) -> Limits
    ensures { result ≡ limits_at s.now }
{
    Limits {
        volume: number::eight(s, 10),
        seconds: number::four(s, 18),
        changes: octets::octet(s, 22),
    }
}

// What a replacement of a set of limits says.
pub fn replacement(s: &[u8]) -> Option<Replacement>
    ensures { result ≡ then_some (limits_ok (limits_at s.now)) (replacement_of s.now) }
{
    let limits = limits_at(s);
    limits::limits_ok(limits).then_some(Replacement {
        set: octets::octet(s, 7),
        edition: number::two(s, 8),
        limits,
    })
}
