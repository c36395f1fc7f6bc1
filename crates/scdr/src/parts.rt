// The parts of a record's octets.
ghost use Rattle.std.specs.Prelude.{◌≤◌, T, take};
ghost use Rattle.ber.specs.Imsi.{imsi_ok};
ghost use Rattle.ber.specs.Private.Wrote.{Wrote};
ghost use Rattle.scdr.specs.Private.Parts.{front_enc, pdp_enc, end_enc};
ghost use Rattle.calendar.specs.Stamp.{stamp_ok};

use crate::tags;
use ber::{address, count, field, fixed, flag, imsi, text};
use calendar::Stamp;
use container::stamp;

// Record type, network initiation, IMSI, SGSN, charging ID.
pub fn put_front(
    out: &mut [u8],
    at: usize,
    network: bool,
    imsi: [u8; 8],
    sgsn: u32,
    charging: u32,
) -> Option<usize>
    requires { T (imsi_ok imsi) }
    ensures { Wrote (front_enc network imsi sgsn charging) out.old out.new at result }
{
    let at = field::put_octet(out, at, tags::RECORD_TYPE, 18)?;
    let at = flag::put_flag(out, at, tags::NETWORK, network)?;
    let at = imsi::put_imsi(out, at, tags::IMSI, imsi)?;
    let at = address::put_address(out, at, tags::SGSN, sgsn)?;
    field::put_int(out, at, tags::CHARGING_ID, charging as u64)
}

// GGSN, access point name, PDP type, served address.
pub fn put_pdp(
    out: &mut [u8],
    at: usize,
    ggsn: u32,
    apn: &[u8; 63],
    apnlen: usize,
    pdptype: u16,
    served: u32,
) -> Option<usize>
    requires { apnlen ≤ 63 }
    ensures { Wrote (pdp_enc ggsn (take apnlen apn.now) pdptype served) out.old out.new at result }
{
    let at = address::put_address(out, at, tags::GGSN, ggsn)?;
    let at = text::put_text(out, at, tags::APN, apn, apnlen)?;
    let at = fixed::put_two_octets(out, at, tags::PDP_TYPE, pdptype)?;
    address::put_address_in(out, at, tags::SERVED, served)
}

// Opening time, duration, SGSN change, cause, number.
pub fn put_end(
    out: &mut [u8],
    at: usize,
    opening: Stamp,
    lasts: u32,
    change: bool,
    cause: u8,
    number: u64,
) -> Option<usize>
    requires { T (stamp_ok opening) }
    ensures { Wrote (end_enc opening lasts change cause number) out.old out.new at result }
{
    let at = stamp::put_stamp(out, at, tags::OPENING, opening)?;
    let at = field::put_int(out, at, tags::DURATION, lasts as u64)?;
    let at = flag::put_flag(out, at, tags::CHANGE, change)?;
    let at = field::put_octet(out, at, tags::CAUSE, cause)?;
    count::put_count(out, at, tags::NUMBER, number)
}
