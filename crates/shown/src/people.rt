// Records for people.
use crate::values::{Address, Hex, Imsi, Name, Time, changes, containers, lasted};
use container::Container;
use mcdr::{Change, MmRecord};
use scdr::Record;
use std::fmt;
use std::fmt::{Formatter, Write};

// An S-CDR, behind the line with which a record begins.
pub fn put_record<W: Write>(f: &mut Formatter<W>, r: &Record) -> fmt::Result {
    put_names(f, r)?;
    put_times(f, r)?;
    put_closing(f, r.cause, words_of(r.cause), r.number)?;
    put_node_id(f, octets::front(&r.nodeid, r.nodelen))?;
    f.write_str("  listOfTrafficVolumes\n")?;
    f.write_str(
        "    until                               uplink        downlink  condition             ",
    )?;
    f.write_str("reliability delay precedence peak mean\n")?;
    for c in containers(r) {
        put_container(f, c)?;
    }
    put_sums(f, containers(r))
}

fn put_names<W: Write>(f: &mut Formatter<W>, r: &Record) -> fmt::Result {
    if r.network {
        f.write_str("  networkInitiation     true\n")?;
    }
    writeln!(f, "  servedIMSI            {}", Imsi(&r.imsi))?;
    writeln!(f, "  sgsnAddress           {}", Address(r.sgsn))?;
    writeln!(f, "  chargingID            {}", r.charging)?;
    writeln!(f, "  ggsnAddressUsed       {}", Address(r.ggsn))?;
    writeln!(
        f,
        "  accessPointName       {}",
        Name(octets::front(&r.apn, r.apnlen))
    )?;
    let [organization, number] = r.pdptype.to_be_bytes();
    writeln!(f, "  pdpType               {organization:02X} {number:02X}")?;
    writeln!(f, "  servedPDPAddress      {}", Address(r.address))
}

fn put_times<W: Write>(f: &mut Formatter<W>, r: &Record) -> fmt::Result {
    writeln!(f, "  recordOpeningTime     {}", Time(r.opening))?;
    writeln!(f, "  duration              {} s", lasted(r))?;
    if r.change {
        f.write_str("  sgsnChange            true\n")?;
    }
    Ok(())
}

// Why a record closed, and its number.
fn put_closing<W: Write>(f: &mut Formatter<W>, cause: u8, words: &str, number: u64) -> fmt::Result {
    writeln!(f, "  causeForRecClosing    {cause} ({words})")?;
    if number == 0 {
        return f.write_str("  recordSequenceNumber  -\n");
    }
    writeln!(f, "  recordSequenceNumber  {number}")
}

fn words_of(cause: u8) -> &'static str {
    match cause {
        0 => "normal release",
        4 => "abnormal release",
        16 => "volume limit",
        17 => "time limit",
        18 => "SGSN change",
        19 => "maximum number of changes in charging conditions",
        20 => "management intervention",
        _ => "",
    }
}

// An M-CDR has no charging conditions: 19 says there that it has all the location changes it can.
fn mm_words_of(cause: u8) -> &'static str {
    if cause == 19 {
        return "maximum number of location changes";
    }
    words_of(cause)
}

fn put_node_id<W: Write>(f: &mut Formatter<W>, id: &[u8]) -> fmt::Result {
    if id.is_empty() {
        return Ok(());
    }
    writeln!(f, "  nodeID                {}", Name(id))
}

// A line of the table.
fn put_container<W: Write>(f: &mut Formatter<W>, c: &Container) -> fmt::Result {
    let condition = match c.condition {
        0 => "  0 QoS change        ",
        1 => "  1 tariff time change",
        2 => "  2 record closed     ",
        _ => "",
    };
    write!(
        f,
        "    {}{:16}{:16}{condition}",
        Time(c.time),
        c.uplink,
        c.downlink
    )?;
    let q = &c.qos;
    write!(f, "{:13}{:6}{:11}", q.reliability, q.delay, q.precedence)?;
    writeln!(f, "{:5}{:5}", q.peak, q.mean)
}

// The sums of up to fifteen volumes, each below 2^40.
fn put_sums<W: Write>(f: &mut Formatter<W>, list: &[Container]) -> fmt::Result {
    let up = list
        .iter()
        .fold(0, |sum: u64, c| sum.wrapping_add(c.uplink));
    let down = list
        .iter()
        .fold(0, |sum: u64, c| sum.wrapping_add(c.downlink));
    writeln!(f, "    sum                       {up:16}{down:16}")
}

// An M-CDR, in the same way. It says first of what kind it is.
pub fn put_mm_record<W: Write>(f: &mut Formatter<W>, r: &MmRecord) -> fmt::Result {
    put_mm_names(f, r)?;
    writeln!(f, "  recordOpeningTime     {}", Time(r.opening))?;
    writeln!(f, "  duration              {} s", r.duration)?;
    put_closing(f, r.cause, mm_words_of(r.cause), r.number)?;
    put_node_id(f, octets::front(&r.nodeid, r.nodelen))?;
    let list = changes(r);
    if !list.is_empty() {
        f.write_str("  changeLocation\n    locationAreaCode  routingAreaCode  changeTime\n")?;
    }
    for c in list {
        put_change(f, c)?;
    }
    Ok(())
}

fn put_mm_names<W: Write>(f: &mut Formatter<W>, r: &MmRecord) -> fmt::Result {
    f.write_str("  recordType            20 (subscriber)\n")?;
    writeln!(f, "  servedIMSI            {}", Imsi(&r.imsi))?;
    writeln!(f, "  sgsnAddress           {}", Address(r.sgsn))?;
    writeln!(f, "  routingArea           {:02X}", r.place.rac)?;
    writeln!(f, "  locationAreaCode      {:04X}", r.place.lac)
}

// A line of the table.
fn put_change<W: Write>(f: &mut Formatter<W>, c: &Change) -> fmt::Result {
    write!(
        f,
        "    {:04X}              {:02X}               ",
        c.place.lac, c.place.rac
    )?;
    writeln!(f, "{}", Time(c.time))
}
