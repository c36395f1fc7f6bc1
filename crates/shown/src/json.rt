// Records as JSON, an object a line.
use crate::values::{Address, Imsi, IsoTime, Name, changes, containers, lasted};
use container::Container;
use mcdr::{Change, MmRecord, Place};
use scdr::Record;
use std::fmt;
use std::fmt::{Formatter, Write};

// An S-CDR.
pub fn put_record<W: Write>(f: &mut Formatter<W>, r: &Record) -> fmt::Result {
    put_names(f, r)?;
    f.write_str(r#","listOfTrafficVolumes":["#)?;
    f.write_joined(containers(r).iter().map(Object), ",")?;
    f.write_str("]")?;
    write!(
        f,
        r#","recordOpeningTime":"{}","duration":{}"#,
        IsoTime(r.opening),
        lasted(r)
    )?;
    if r.change {
        f.write_str(r#","sgsnChange":true"#)?;
    }
    put_closing(f, r.cause, r.number)?;
    put_node_id(f, octets::front(&r.nodeid, r.nodelen))?;
    f.write_str("}\n")
}

fn put_names<W: Write>(f: &mut Formatter<W>, r: &Record) -> fmt::Result {
    f.write_str(r#"{"recordType":18"#)?;
    if r.network {
        f.write_str(r#","networkInitiation":true"#)?;
    }
    write!(
        f,
        r#","servedIMSI":"{}","sgsnAddress":"{}""#,
        Imsi(&r.imsi),
        Address(r.sgsn)
    )?;
    write!(
        f,
        r#","chargingID":{},"ggsnAddressUsed":"{}""#,
        r.charging,
        Address(r.ggsn)
    )?;
    write!(
        f,
        r#","accessPointName":"{}""#,
        Escaped(octets::front(&r.apn, r.apnlen))
    )?;
    write!(
        f,
        r#","pdpType":"{:04X}","servedPDPAddress":"{}""#,
        r.pdptype,
        Address(r.address)
    )
}

// An entry of a list, as an object.
#[derive(Clone, Copy)]
struct Object<'a, T>(&'a T);

impl<'a> fmt::Display for Object<'a, Container> {
    fn fmt<W: Write>(&self, f: &mut Formatter<W>) -> fmt::Result {
        let Container {
            qos,
            uplink,
            downlink,
            condition,
            time,
        } = self.0;
        write!(
            f,
            r#"{{"qosNegotiated":{{"reliability":{},"delay":{}"#,
            qos.reliability, qos.delay
        )?;
        write!(
            f,
            r#","precedence":{},"peakThroughput":{}"#,
            qos.precedence, qos.peak
        )?;
        write!(
            f,
            r#","meanThroughput":{}}},"dataVolumeGPRSUplink":{uplink}"#,
            qos.mean
        )?;
        write!(
            f,
            r#","dataVolumeGPRSDownlink":{downlink},"changeCondition":{condition}"#
        )?;
        write!(f, r#","changeTime":"{}"}}"#, IsoTime(*time))
    }
}

// Why a record closed, and its number, if it has one.
fn put_closing<W: Write>(f: &mut Formatter<W>, cause: u8, number: u64) -> fmt::Result {
    write!(f, r#","causeForRecClosing":{cause}"#)?;
    if number == 0 {
        return Ok(());
    }
    write!(f, r#","recordSequenceNumber":{number}"#)
}

fn put_node_id<W: Write>(f: &mut Formatter<W>, id: &[u8]) -> fmt::Result {
    if id.is_empty() {
        return Ok(());
    }
    write!(f, r#","nodeID":"{}""#, Escaped(id))
}

// An M-CDR.
pub fn put_mm_record<W: Write>(f: &mut Formatter<W>, r: &MmRecord) -> fmt::Result {
    write!(f, r#"{{"recordType":20,"servedIMSI":"{}""#, Imsi(&r.imsi))?;
    write!(f, r#","sgsnAddress":"{}""#, Address(r.sgsn))?;
    write!(
        f,
        r#","routingArea":"{:02X}","locationAreaCode":"{:04X}""#,
        r.place.rac, r.place.lac
    )?;
    let list = changes(r);
    if !list.is_empty() {
        f.write_str(r#","changeLocation":["#)?;
        f.write_joined(list.iter().map(Object), ",")?;
        f.write_str("]")?;
    }
    write!(
        f,
        r#","recordOpeningTime":"{}","duration":{}"#,
        IsoTime(r.opening),
        r.duration
    )?;
    put_closing(f, r.cause, r.number)?;
    put_node_id(f, octets::front(&r.nodeid, r.nodelen))?;
    f.write_str("}\n")
}

impl<'a> fmt::Display for Object<'a, Change> {
    fn fmt<W: Write>(&self, f: &mut Formatter<W>) -> fmt::Result {
        let Place { lac, rac } = self.0.place;
        write!(
            f,
            r#"{{"locationAreaCode":"{lac:04X}","routingAreaCode":"{rac:02X}""#
        )?;
        write!(f, r#","changeTime":"{}"}}"#, IsoTime(self.0.time))
    }
}

// Characters within a string. A name has characters 20 to 7E alone, of which JSON escapes two.
#[derive(Clone, Copy)]
struct Escaped<'a>(&'a [u8]);

impl<'a> fmt::Display for Escaped<'a> {
    fn fmt<W: Write>(&self, f: &mut Formatter<W>) -> fmt::Result {
        for x in self.0 {
            if matches!(x, b'"' | b'\\') {
                f.write_char('\\')?;
            }
            f.write_char(char::from(*x))?;
        }
        Ok(())
    }
}
