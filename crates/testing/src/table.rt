// The bench table of 01, row by row through the code. That the definitions give the same is one theorem (specs/Table.antt, proofs/Holds.antt).
use crate::put_line;
use calendar::Stamp;
use std::fmt;
use std::io::Stdout;

// Octets as two digits of sixteen each, after a space.
#[derive(Clone, Copy)]
struct Apart<'a>(&'a [u8]);

impl<'a> fmt::Display for Apart<'a> {
    fn fmt<W: fmt::Write>(&self, f: &mut fmt::Formatter<W>) -> fmt::Result {
        for x in self.0 {
            write!(f, " {x:02X}")?;
        }
        Ok(())
    }
}

fn integer(output: Stdout, v: u64) {
    let octets = ber::int::int_octets(v);
    put_line(output, &format_args!("integer {v} ->{}", Apart(&octets)));
}

fn length(output: Stdout, n: usize) {
    if let Some(octets) = ber::length::len_octets(n) {
        put_line(output, &format_args!("length {n} ->{}", Apart(&octets)));
    }
}

// The offset of a zone is minutes from universal time plus 720.
fn time(output: Stdout, seconds: u32, zone: u16, offset: i32) {
    if let Some(octets) = calendar::stamp_octets(Stamp { seconds, zone }) {
        put_line(
            output,
            &format_args!("time {seconds}, offset {offset} ->{}", Apart(&octets)),
        );
    }
}

fn imsi(output: Stdout, digits: &str, s: &[u8]) {
    if let Some(n) = ber::imsi::imsi_size(s) {
        put_line(
            output,
            &format_args!("IMSI {digits} ->{}", Apart(octets::front(s, n))),
        );
    }
}

pub fn write_rows(output: Stdout) {
    for v in [0, 127, 128, 32768, 4294967295] {
        integer(output, v);
    }
    for n in [127, 128, 256] {
        length(output, n);
    }
    time(output, 0, 720, 0);
    time(output, 5097600, 720, 0);
    time(output, 3155759999, 630, -90);
    imsi(
        output,
        "123456",
        &[0x21, 0x43, 0x65, 0xFF, 0xFF, 0xFF, 0xFF, 0xFF],
    );
}
