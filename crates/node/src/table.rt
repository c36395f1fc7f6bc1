// The table: all its slots hear something, one after another, each writing where the last ended.
ghost use Rattle.std.specs.Prelude.{◌≡◌, ◌≤◌, length, MatchResult};
ghost use Rattle.node.specs.Refusal.{number_of};
ghost use Rattle.node.specs.Private.Premises.{InRange, SoundTable};
ghost use Rattle.history.specs.Slots.{across, along};
ghost use Rattle.node.specs.Private.Range.{slot_next, slot_out, Stands, TriesAll};

use crate::refusal::Refusal;
use crate::{Message, Settings, emit};
use context::Context;
use profile::Profile;

// How many octets they write.
pub fn size_all(p: Profile, g: Settings, cs: &[Context; 16], t: u32, m: Message) -> usize
    requires sound_table { SoundTable p g t cs.now }
    requires in_range { InRange m }
    ensures { result ≡ length (along 0 16 (slot_out p g t m) cs.now) }
{
    let mut n = 0;
    for c in cs {
        n += emit::slot_size(p, g, c, t, m);
    }
    n
}

// They hear m at t, and write from the start of out: how many octets.
pub fn hear_all(
    p: Profile,
    g: Settings,
    cs: &mut [Context; 16],
    t: u32,
    m: Message,
    out: &mut [u8],
) -> usize
    requires sound_table { SoundTable p g t cs.old }
    requires in_range { InRange m }
    requires cs_in_bounds { length (along 0 16 (slot_out p g t m) cs.old) ≤ length out.old }
    ensures { Stands (across 0 16 (slot_next p g t m) cs.old) (along 0 16 (slot_out p g t m) cs.old) out.old out.new 0 cs.new result }
{
    let mut at = 0;
    for c in cs.iter_mut() {
        at = emit::hear_slot(p, g, c, t, m, out, at);
    }
    at
}

// They hear m together: first the room is looked for. Where there is none, all are as they were, and nothing is written.
pub fn try_all(
    p: Profile,
    g: Settings,
    cs: &mut [Context; 16],
    t: u32,
    m: Message,
    out: &mut [u8],
) -> Result<usize, Refusal>
    requires sound_table { SoundTable p g t cs.old }
    requires in_range { InRange m }
    ensures { MatchResult result (λ written. TriesAll p g t m cs.old out.old out.new 0 cs.new written)
        (λ refusal. TriesAll p g t m cs.old out.old out.new (number_of refusal) cs.new 0) }
{
    let n = size_all(p, g, cs, t, m);
    if out.len() < n {
        return Err(Refusal::NoRoom);
    }
    Ok(hear_all(p, g, cs, t, m, out))
}
