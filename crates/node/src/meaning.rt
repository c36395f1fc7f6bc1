// Who hears an event, and what it is to them: a line a kind.
ghost use Rattle.std.specs.Prelude.{◌≡◌};
ghost use Rattle.node.specs.Meaning.{quiet, report, new_qos, tariff_change, tick, close_with, release_with, meaning_of};

use crate::Message;
use container::{Qos, qos_profile as qos};
use event::{Activation, Event, Name, Replacement};
use mcdr::Place;
use subscriber::Notice;

// An activation opens a context; any other event of kinds 2 to 7 is told to the context of a name, or to all.
#[derive(Clone, Copy)]
pub enum Meaning {
    Opens(Activation),
    Tells(Name, Message),
    TellsAll(Message),
    // a subscriber, by the number that its IMSI spells, attaches at a place
    Attaches(u64, Place),
    // the subscriber of a name hears this
    Notifies(u64, Notice),
    // a set of limits is replaced
    Replaces(Replacement),
}

pub fn meaning_of(e: Event) -> Meaning
    ensures { result ≡ meaning_of e }
{
    match e {
        Event::Activate(a) => Meaning::Opens(a),
        Event::Traffic(name, up, down) => Meaning::Tells(name, report(up, down)),
        Event::Qos(name, q) => Meaning::Tells(name, new_qos(q)),
        Event::Tariff => Meaning::TellsAll(tariff_change()),
        Event::Release(name, cause) => Meaning::Tells(name, release_with(cause)),
        Event::Tick => Meaning::TellsAll(tick()),
        Event::Management(name) => Meaning::Tells(name, close_with(20)),
        Event::Attach(imsi, lac, rac) => Meaning::Attaches(imsi, Place { lac, rac }),
        Event::Location(imsi, lac, rac) => {
            let to = Place { lac, rac };
            Meaning::Notifies(imsi, Notice::Moved(to))
        }
        Event::ManageSubscriber(imsi) => Meaning::Notifies(imsi, Notice::Managed),
        Event::Detach(imsi, cause) => Meaning::Notifies(imsi, Notice::Detached(cause)),
        Event::Replace(r) => Meaning::Replaces(r),
    }
}

fn quiet() -> Message
    ensures { result ≡ quiet }
{
    let none = qos::no_qos();
    Message {
        counts: false,
        up: 0,
        down: 0,
        brings: false,
        qos: none,
        tariff: false,
        ticks: false,
        closes: false,
        cause: 0,
        releases: false,
    }
}

pub fn report(up: u32, down: u32) -> Message
    ensures { result ≡ report up down }
{
    let mut m = quiet();
    m.counts = true;
    m.up = up;
    m.down = down;
    m
}

fn new_qos(q: Qos) -> Message
    ensures { result ≡ new_qos q }
{
    let mut m = quiet();
    m.brings = true;
    m.qos = q;
    m
}

fn tariff_change() -> Message
    ensures { result ≡ tariff_change }
{
    let mut m = quiet();
    m.tariff = true;
    m
}

fn tick() -> Message
    ensures { result ≡ tick }
{
    let mut m = quiet();
    m.ticks = true;
    m
}

fn close_with(cause: u8) -> Message
    ensures { result ≡ close_with cause }
{
    let mut m = quiet();
    m.closes = true;
    m.cause = cause;
    m
}

fn release_with(cause: u8) -> Message
    ensures { result ≡ release_with cause }
{
    let mut m = close_with(cause);
    m.releases = true;
    m
}
