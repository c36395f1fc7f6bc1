// What a context writes when it hears something: nothing, or one record after its mark.
ghost use Rattle.std.specs.Prelude.{◌≡◌, true, ◌+◌, ◌≤◌, length, MatchResult};
ghost use Rattle.ber.specs.Private.Wrote.{Put};
ghost use Rattle.scdr.specs.Rules.{within};
ghost use Rattle.node.specs.Hear.{hear};
ghost use Rattle.node.specs.Held.{Shaped};
ghost use Rattle.node.specs.Refusal.{number_of};
ghost use Rattle.node.specs.Step.{stood, marked_octets, octets_of};
ghost use Rattle.node.specs.Private.Premises.{InRange, SoundContext, SoundSlot};
ghost use Rattle.node.specs.Private.Range.{Counts, Stands, Tries, slot_next, slot_out};

use crate::refusal::Refusal;
use crate::{Message, Settings, closing, standing};
use ber::tlv;
use context::Context;
use profile::Profile;
use scdr::{Record, write};

// A record after its mark, into the part of out that begins at a place.
fn put_record(r: &Record, out: &mut [u8], at: usize) -> usize
    requires { (within r.now ≡ true) × (at + length (marked_octets r.now) ≤ length out.old) }
    ensures { Put (marked_octets r.now) out.old out.new at result }
{
    let a = tlv::put_all(out, at, &[0xC3, 0x5A]).unwrap();
    let n = write::write_record(r, &mut out[a..]).unwrap();
    a + n
}

// How many octets an active context writes.
fn size_of(p: Profile, g: Settings, c: &Context, t: u32, m: Message) -> usize
    requires sound_context { SoundContext p g t c.now }
    requires shape { Shaped c.now }
    requires in_range { InRange m }
    ensures { Counts (octets_of (hear p g c.now t m).out) result }
{
    match closing::cause_of(c.current, t, m) {
        Some(cause) => 2 + write::record_size(&standing::closed_by(p, *c, t, m, cause)).unwrap(),
        None => 0,
    }
}

// An active context hears something, and writes at a place: the place after it.
fn hear(
    p: Profile,
    g: Settings,
    c: &mut Context,
    t: u32,
    m: Message,
    out: &mut [u8],
    at: usize,
) -> usize
    requires sound_context { SoundContext p g t c.old }
    requires shape { Shaped c.old }
    requires in_range { InRange m }
    requires m_in_bounds { at + length (octets_of (hear p g c.old t m).out) ≤ length out.old }
    ensures { Stands (stood (hear p g c.old t m).next) (octets_of (hear p g c.old t m).out) out.old out.new at c.new result }
{
    match closing::cause_of(c.current, t, m) {
        Some(cause) => {
            let next = put_record(&standing::closed_by(p, *c, t, m, cause), out, at);
            *c = standing::after_closing(p, g, *c, t, m);
            next
        }
        None => {
            *c = standing::goes_on(p, *c, t, m);
            at
        }
    }
}

// The same of a slot, which may be free.
pub fn slot_size(p: Profile, g: Settings, c: &Context, t: u32, m: Message) -> usize
    requires sound_slot { SoundSlot p g t c.now }
    requires in_range { InRange m }
    ensures { Counts (slot_out p g t m c.now) result }
{
    if c.active == 1 {
        size_of(p, g, c, t, m)
    } else {
        0
    }
}

pub fn hear_slot(
    p: Profile,
    g: Settings,
    c: &mut Context,
    t: u32,
    m: Message,
    out: &mut [u8],
    at: usize,
) -> usize
    requires sound_slot { SoundSlot p g t c.old }
    requires in_range { InRange m }
    requires c_in_bounds { at + length (slot_out p g t m c.old) ≤ length out.old }
    ensures { Stands (slot_next p g t m c.old) (slot_out p g t m c.old) out.old out.new at c.new result }
{
    if c.active == 1 {
        hear(p, g, c, t, m, out, at)
    } else {
        at
    }
}

// A slot hears something alone, and writes from the start of out: how many octets. First the room is looked for: where there is none, the
// slot is as it was, and nothing is written.
pub fn try_slot(
    p: Profile,
    g: Settings,
    c: &mut Context,
    t: u32,
    m: Message,
    out: &mut [u8],
) -> Result<usize, Refusal>
    requires sound_slot { SoundSlot p g t c.old }
    requires in_range { InRange m }
    ensures { MatchResult result (λ written. Tries p g t m c.old out.old out.new 0 c.new written)
        (λ refusal. Tries p g t m c.old out.old out.new (number_of refusal) c.new 0) }
{
    if out.len() < slot_size(p, g, c, t, m) {
        Err(Refusal::NoRoom)
    } else {
        Ok(hear_slot(p, g, c, t, m, out, 0))
    }
}
