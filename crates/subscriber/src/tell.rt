// What is answered where a subscriber hears something: what stands in its slot then, and the record that it closes, written after its mark.
ghost use Rattle.subscriber.specs.declared.Notice.TheVariants as N;
ghost use Rattle.subscriber.specs.Tell.{answer_of, written_of, Tells};
ghost use Rattle.subscriber.specs.Private.Able.{Roomy};
ghost use Rattle.subscriber.specs.Private.Marked.{Emits};

use crate::{Notice, Subscriber, hear, marked, standing};
use ber::written::NotWritten;
use mcdr::{MmRecord, Place, places};
use profile::Profile;

// A subscriber closes a record, and next stands in its slot.
fn emit(
    r: &MmRecord,
    s: &mut Subscriber,
    next: Subscriber,
    out: &mut [u8],
) -> Result<usize, NotWritten>
    ensures { Emits r.now s.old next out.old out.new (answer_of result) s.new (written_of result) }
{
    let written = marked::mark(r, out)?;
    *s = next;
    Ok(written)
}

// A location change. The fifteenth of a record closes it with 19.
fn moved(
    p: Profile,
    s: &mut Subscriber,
    t: u32,
    q: Place,
    out: &mut [u8],
) -> Result<usize, NotWritten>
    requires { Roomy s.old }
    ensures { Tells p t (N.Moved q) s.old out.old out.new (answer_of result) s.new (written_of result) }
{
    if places::same_place(hear::place_of(s), q) {
        return Ok(0);
    }
    let n = standing::listed(p, s, t, q);
    if n.count < 15 {
        *s = n;
        return Ok(0);
    }
    let r = standing::record_of(p, &n, t, 19, false);
    let next = hear::opened(p, s.imsi, t, q, s.closed + 1);
    emit(&r, s, next, out)
}

fn managed(p: Profile, s: &mut Subscriber, t: u32, out: &mut [u8]) -> Result<usize, NotWritten>
    requires { Roomy s.old }
    ensures { Tells p t N.Managed s.old out.old out.new (answer_of result) s.new (written_of result) }
{
    let at = hear::place_of(s);
    let r = standing::record_of(p, s, t, 20, false);
    let next = hear::opened(p, s.imsi, t, at, s.closed + 1);
    emit(&r, s, next, out)
}

fn detached(
    p: Profile,
    s: &mut Subscriber,
    t: u32,
    cause: u8,
    out: &mut [u8],
) -> Result<usize, NotWritten>
    requires { Roomy s.old }
    ensures { Tells p t (N.Detached cause) s.old out.old out.new (answer_of result) s.new (written_of result) }
{
    let r = standing::record_of(p, s, t, cause, true);
    emit(&r, s, crate::no_subscriber(), out)
}

// A subscriber hears something at a time, and writes from the start of out: the answer is how many octets. It is refused where it cannot do
// what it is asked, which no subscriber of a sound node is, and where there is no room for the record: then it is as it was, and so is out.
pub fn tell(
    p: Profile,
    s: &mut Subscriber,
    t: u32,
    m: Notice,
    out: &mut [u8],
) -> Result<usize, NotWritten>
    ensures { Tells p t m s.old out.old out.new (answer_of result) s.new (written_of result) }
{
    if 15 <= s.count || 1000000000000000 <= s.closed {
        return Err(NotWritten::OutsideRules);
    }
    match m {
        Notice::Moved(q) => moved(p, s, t, q, out),
        Notice::Managed => managed(p, s, t, out),
        Notice::Detached(cause) => detached(p, s, t, cause, out),
    }
}
