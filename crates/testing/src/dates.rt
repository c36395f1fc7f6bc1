// Time stamps, for comparison with the dates of another program.
//
//     dates
//
// Standard input has times of six octets each: the seconds, and the zone. A line a time out: its nine octets in hex, and the seconds and
// the zone that these are read as; or the word none, where the time or the zone is out of range (docs/FORMATS.md).
use crate::put_line;
use crate::records::block;
use calendar::Stamp;
use setup::Turns;
use shown::Hex;
use std::io::{Read, Stderr, Stdout};

// The octets of a time, and what they are read as.
fn put_octets(output: Stdout, octets: &[u8]) {
    match calendar::stamp_of(octets) {
        Some(back) => put_line(
            output,
            &format_args!("{} {} {}", Hex(octets), back.seconds, back.zone),
        ),
        None => put_line(output, &"none"),
    }
}

// One time.
fn write_time(output: Stdout, t: Stamp) {
    match calendar::stamp_octets(t) {
        Some(octets) => put_octets(output, &octets),
        None => put_line(output, &"none"),
    }
}

// A file of times.
#[derive(Drop)]
struct Dates<F> {
    output: Stdout,
    error: Stderr,
    file: F,
}

impl<F: Read> Turns for Dates<F> {
    // Takes one time, and answers whether to go on.
    fn turn(&mut self) -> bool {
        let mut b = [0u8; 6];
        match window::read_full(&mut self.file, &mut b) {
            0 => false,
            6 => {
                write_time(self.output, block::stamp_at(&b, 0));
                true
            }
            _ => {
                setup::say_line(self.error, b"dates: the last time is cut short\n");
                false
            }
        }
    }
}

pub fn main<F: Read + Drop>(output: Stdout, error: Stderr, file: F) {
    let mut dates = Dates {
        output,
        error,
        file,
    };
    setup::run(&mut dates);
}
