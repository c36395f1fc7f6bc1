// The parts of a record's octets.
ghost use Rattle.std.specs.Prelude.{T};
ghost use Rattle.ber.specs.Imsi.{imsi_ok};
ghost use Rattle.ber.specs.Private.Wrote.{Wrote};
ghost use Rattle.calendar.specs.Stamp.{stamp_ok};
ghost use Rattle.mcdr.specs.Private.Parts.{front_enc, end_enc};

use crate::{Place, tags};
use ber::{address, count, field, fixed, imsi};
use calendar::Stamp;
use container::stamp;

// Record type, IMSI, SGSN, RAC, LAC.
pub fn put_front(out: &mut [u8], imsi: [u8; 8], sgsn: u32, place: Place) -> Option<usize>
    requires { T (imsi_ok imsi) }
    ensures { Wrote (front_enc imsi sgsn place) out.old out.new 0 result }
{
    let at = field::put_octet(out, 0, tags::RECORD_TYPE, 20)?;
    let at = imsi::put_imsi(out, at, tags::IMSI, imsi)?;
    let at = address::put_address(out, at, tags::SGSN, sgsn)?;
    let at = field::put_octet(out, at, tags::RAC, place.rac)?;
    fixed::put_two_octets(out, at, tags::LAC, place.lac)
}

// Opening time, duration, cause, number.
pub fn put_end(
    out: &mut [u8],
    at: usize,
    opening: Stamp,
    duration: u32,
    cause: u8,
    number: u64,
) -> Option<usize>
    requires { T (stamp_ok opening) }
    ensures { Wrote (end_enc opening duration cause number) out.old out.new at result }
{
    let at = stamp::put_stamp(out, at, tags::OPENING, opening)?;
    let at = field::put_int(out, at, tags::DURATION, duration as u64)?;
    let at = field::put_octet(out, at, tags::CAUSE, cause)?;
    count::put_count(out, at, tags::NUMBER, number)
}
