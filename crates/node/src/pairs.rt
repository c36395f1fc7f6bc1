// Reports told to one context, pair by pair: what a batch does to the slot that it names.
//
// A pair that closes nothing is three additions. So what was reported since the last closing is kept beside the context, and is added to it
// only when something closes, and at the end: a context has 776 octets, and each function that takes it copies it.
ghost use Rattle.std.specs.Prelude.{◌≡◌, ◌+◌, ◌^◌, ◌<◌};
ghost use Rattle.node.specs.Refusal.{answer_of};
ghost use Rattle.node.specs.Private.Pairs.{counted, Listens, Tells};

use crate::refusal::Refusal;
use crate::sound::MOST_ACCEPTED;
use crate::{Settings, closed};
use container::open;
use context::Context;
use profile::Profile;

// What comes of them: the refusal that stopped them, if one did; how many pairs were applied; the context then, and how many octets these
// wrote.
#[derive(Clone, Copy)]
pub struct Told {
    pub refusal: Option<Refusal>,
    pub applied: usize,
    pub context: Context,
    pub written: usize,
}

// A context with more counted in its running container.
fn counted(c: Context, up: u64, down: u64) -> Context
    requires { (c.current.uplink + up < 2 ^ 64) × (c.current.downlink + down < 2 ^ 64) }
    ensures { result ≡ counted c up down }
{
    let mut n = c;
    n.current.uplink += up;
    n.current.downlink += down;
    n
}

// What comes of them where they end, or are stopped.
fn stopped(refusal: Option<Refusal>, applied: usize, context: Context, written: usize) -> Told
    ensures { (result.refusal ≡ refusal) × ((result.applied ≡ applied) × ((result.context ≡ context) × (result.written ≡ written))) }
{
    Told {
        refusal,
        applied,
        context,
        written,
    }
}

// The pairs of a list, one after another, at a time: each writes where the last ended. The record that is open keeps its own limits, and those
// that open after it have the ones that are in force in the context's set. The first that is refused ends them: by 7 where so many
// events were accepted already, by 11 where there is no room for what it closes.
pub fn tell(
    p: Profile,
    g: Settings,
    clock: u32,
    accepted: u64,
    c: Context,
    t: u32,
    volumes: &[u32],
    out: &mut [u8],
) -> Told
    requires { Listens p g clock accepted c t }
    ensures { Tells p g clock accepted c t volumes.now out.old out.new
        (answer_of result.refusal) result.applied result.context result.written }
{
    let mut last = c;
    let mut up: u64 = 0;
    let mut down: u64 = 0;
    let mut left = open::volume_left(c.current);
    let mut at: usize = 0;
    let pairs = volumes.len() / 2;
    for k in 0..pairs {
        if MOST_ACCEPTED <= accepted + k as u64 {
            return stopped(Some(Refusal::TooMany), k, counted(last, up, down), at);
        }
        let u = volumes[2 * k] as u64;
        let d = volumes[2 * k + 1] as u64;
        if u + d < left {
            up += u;
            down += d;
            left -= u + d;
            continue;
        }
        let n = closed::close(p, last, t, up + u, down + d, &mut out[at..]);
        if n == 0 {
            return stopped(Some(Refusal::NoRoom), k, counted(last, up, down), at);
        }
        last = closed::reopened(p, g, last, t);
        at += n;
        up = 0;
        down = 0;
        left = last.current.limits.volume;
    }
    stopped(None, pairs, counted(last, up, down), at)
}
