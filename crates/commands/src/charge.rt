// Charges a file of events.
//
//     charge PROFILE EVENTS
//
// The events of a file are charged from a fresh node, one after another, up to the first that is refused (charging::charge, on what is in the
// window; a file that is cut into windows gives what the whole gives). The record list goes to standard output, what was done and what is
// wrong to standard error (docs/FORMATS.md).
use crate::refusal::Refused;
use charging::Charged;
use node::Node;
use profile::Profile;
use setup::{Command, Turns};
use std::env::Env;
use std::io;
use std::io::{Read, Stderr, Stdout, Write};
use std::rt::Files;
use window::Input;

// The longest event.
const LONGEST: usize = 292;

// The most that one event can write.
const MOST: usize = 16416;

// A file of events through its window, the buffer for what an event writes, and the node that they are charged on; what was done: events
// accepted whose records are written, these records, and their octets.
#[derive(Drop)]
struct Charge<'a, F> {
    command: Command<'a>,
    output: Stdout,
    input: Input<'a, F>,
    out: [u8; MOST],
    node: Node,
    events: u64,
    records: u64,
    octets: u64,
}

impl<'a, F: Read> Turns for Charge<'a, F> {
    // Charges what is in the window, after more of the file was read, or its end, where less than an event may be there. Answers whether to go on.
    fn turn(&mut self) -> bool {
        let read = !self.input.wants(LONGEST)
            || self.command.read_on(b"the file of events", &mut self.input);
        let now = self.node;
        let ended = self.input.ended;
        let Charge { input, out, .. } = self;
        let r = charging::charge(now, input.here(), ended, out);
        self.node = r.node;
        self.tell(&r) && read
    }
}

impl<'a, F: Read> Charge<'a, F> {
    // What was charged, and what it wrote. There was room for what one event can write, and no more: so where an event writes, its records go
    // out before the next is looked at, and where they could not be written, those before it had none. Answers whether more may follow.
    fn tell(&mut self, r: &Charged) -> bool {
        self.input.pass(r.came);
        self.events = self.events.wrapping_add(r.events as u64);
        let written = octets::front(&self.out, r.written);
        if let Err(why) = self.output.write_all(written) {
            self.say_unwritten(r.last, why);
            self.events = self.events.wrapping_sub(1);
            return false;
        }
        self.records = self
            .records
            .wrapping_add(entries::count::count(written) as u64);
        self.octets = self.octets.wrapping_add(written.len() as u64);
        if r.answer != 0 {
            self.command.say(&Refused {
                answer: r.answer,
                number: self.events.wrapping_add(1),
                offset: self.input.place.offset,
            });
            return false;
        }
        !self.input.ended || r.came != 0
    }

    // An event's records could not be written, and why: the last event's, which has so many octets.
    fn say_unwritten(&self, last: usize, why: io::Error) {
        let offset = self.input.place.offset.wrapping_sub(last as u64);
        let mut to = out::to_error(self.command.error);
        let _ = write!(
            to,
            "charge: not written at event {} (octet {offset}): ",
            self.events
        );
        let _ = to.flush();
        setup::say_why(self.command.error, b"standard output", why);
    }

    // The last line.
    fn say_tally(&self) {
        let mut to = out::to_error(self.command.error);
        let _ = writeln!(
            to,
            "charge: {} events accepted, {} records, {} octets",
            self.events, self.records, self.octets
        );
        let _ = to.flush();
    }
}

fn run<F: Read + Drop>(command: Command, output: Stdout, file: F, profile: Profile) {
    let mut held = [0u8; 4096];
    let mut charge = Charge {
        command,
        output,
        input: Input::new(file, &mut held),
        out: [0; MOST],
        node: setup::node_of(profile),
        events: 0,
        records: 0,
        octets: 0,
    };
    setup::run(&mut charge);
    charge.say_tally();
}

fn command(error: Stderr) -> Command<'static> {
    Command {
        name: b"charge",
        error,
    }
}

// The events of the third argument, from a fresh node with the profile of the second.
pub fn charge_file<R: Env + Files>(rt: &R, output: Stdout, error: Stderr) {
    let command = command(error);
    if let Some((profile, file)) = command.start(rt, 3) {
        run(command, output, file, profile);
    }
}

pub fn main<R: Env + Files>(rt: &R, output: Stdout, error: Stderr) {
    if setup::arg_count(rt) == 4 {
        charge_file(rt, output, error);
    } else {
        setup::say_line(error, b"usage: charge PROFILE EVENTS\n");
    }
}
