// How long the step, the writer and the reader take, for a comparison with the same rules in C; and how long it takes to count the records of
// a name, by their lengths and by reading them in full (bench/run).
//
//     pace PROFILE EVENTS RECORDS
//
// The events are run from a fresh node, the first 64 records written, and all of them read, again and again: the list has S-CDRs alone. It is
// counted again and again, for the names of these 64 in turn. Standard output has a line for each of the five: its name, how many calls there
// were (of a count: how many records it went over), a sum over what they answered, and the microseconds that they took. Each file is held
// whole, so it has 65,536 octets at most.
//
// An M-CDR among the first 64 keeps its turn: a write of it adds nothing, and the name that is counted for it is 0 at 0.0.0.0. A list whose
// first entry does not read is as one with an M-CDR there.
ghost use Rattle.std.specs.Prelude.{◌≤◌};

use crate::put_line;
use entries::Entry;
use entries::read::Cdr;
use event::framing;
use profile::Profile;
use scdr::Record;
use setup::Command;
use std::env::Env;
use std::io::{Stderr, Stdout};
use std::rt::Files;
use std::time::{CpuClock, Duration};

// How often each is done: the step, the writer, the reader; and how often a list is counted, five times for each name.
const STEPS: u64 = 90000;

const WRITES: u64 = 20000;

const READS: u64 = 100000;

const COUNTS: u64 = 320;

// How many records are kept.
const KEPT: usize = 64;

// A place again below the end, from the start on.
fn around(at: usize, end: usize) -> usize
    ensures { result ≤ at }
{
    if at < end { at } else { 0 }
}

// The place after the event at a place.
pub fn after_event(s: &[u8], at: usize) -> usize {
    let n = framing::next_length(octets::part(s, at, s.len()));
    at.wrapping_add(n)
}

// Calls of one kind: the events of a file one after another, from a fresh node on again after the last. Answers how many octets they write.
fn run_events(profile: Profile, s: &[u8]) -> u64 {
    let mut out = [0u8; 16416];
    let mut node = setup::node_of(profile);
    let mut sum: u64 = 0;
    let mut at: usize = 0;
    for _ in 0..STEPS {
        let from = around(at, s.len());
        if from == 0 {
            node = setup::node_of(profile);
        }
        at = after_event(s, from);
        if let Ok(stepped) = node::step::step(node, octets::part(s, from, at), &mut out) {
            node = stepped.node;
            sum = sum.wrapping_add(stepped.written as u64);
        }
    }
    sum
}

// Where the next entry begins: after the one that was found, else at the start.
fn next(e: Entry) -> usize {
    if let Entry::Found(_, end) = e { end } else { 0 }
}

// The octets of the record in an entry; none where none was found.
fn record_in(s: &[u8], e: Entry) -> &[u8] {
    if let Entry::Found(a, b) = e {
        return octets::part(s, a, b);
    }
    octets::front(s, 0)
}

// The records of a list read one after another, from the first on again after the last. Answers how many containers they have.
fn read_records(s: &[u8]) -> u64 {
    let mut sum: u64 = 0;
    let mut at: usize = 0;
    for _ in 0..READS {
        let e = entries::step::entry_at(s, around(at, s.len()));
        let r = scdr::read::read_record(record_in(s, e));
        at = next(e);
        sum = sum.wrapping_add(r.map_or(0, |cdr| cdr.count as u64));
    }
    sum
}

// The S-CDRs among the first records of a list, each at its place, as many places as there is room for: how many records there are.
fn keep(s: &[u8], records: &mut [Option<Record>]) -> usize {
    let room = records.len();
    let mut at = 0;
    for (i, record) in records.iter_mut().enumerate() {
        let z = entries::read::read_entry(s, at);
        match z.cdr {
            Some(Cdr::Pdp(cdr)) => *record = Some(cdr),
            Some(Cdr::Mm(_)) => {}
            None => return i,
        }
        at = next(z.entry);
    }
    room
}

// Records written one after another, again and again. Answers how many octets they have.
fn write_records(records: &[Option<Record>]) -> u64 {
    let mut out = [0u8; 1024];
    let mut sum: u64 = 0;
    for record in records.iter().cycle().take(WRITES as usize) {
        if let Some(r) = record {
            if let Ok(n) = scdr::write::write_record(r, &mut out) {
                sum = sum.wrapping_add(n as u64);
            }
        }
    }
    sum
}

// What a count answers, as one number.
fn counted(count: usize, number: u64) -> u64 {
    number.wrapping_add(count as u64)
}

// The records of a name in a list, each read in full: how many, and the number of the last.
fn count_reading(s: &[u8], id: u32, ggsn: u32) -> u64 {
    let mut count: usize = 0;
    let mut number: u64 = 0;
    let mut at: usize = 0;
    for _ in 0..s.len() {
        let z = entries::read::read_entry(s, at);
        let Some(cdr) = z.cdr else {
            break;
        };
        if let Cdr::Pdp(r) = cdr {
            if r.charging == id && r.ggsn == ggsn {
                count = count.wrapping_add(1);
                number = r.number;
            }
        }
        at = next(z.entry);
    }
    counted(count, number)
}

// The same by their lengths alone, as it is promised and proved.
fn count_stepping(s: &[u8], id: u32, ggsn: u32) -> u64 {
    let t = tally::count::count(s, id, ggsn);
    counted(t.count, t.number)
}

// The name of the S-CDR at a place; 0 at 0.0.0.0 where none is.
fn name_at(record: &Option<Record>) -> (u32, u32) {
    match record {
        Some(r) => (r.charging, r.ggsn),
        None => (0, 0),
    }
}

// Lists counted for the names of records, one after another. Answers a sum over the counts and the last numbers.
fn count_names(s: &[u8], records: &[Option<Record>], reading: bool) -> u64 {
    let mut sum: u64 = 0;
    for record in records.iter().cycle().take(COUNTS as usize) {
        let (id, ggsn) = name_at(record);
        let one = if reading {
            count_reading(s, id, ggsn)
        } else {
            count_stepping(s, id, ggsn)
        };
        sum = sum.wrapping_add(one);
    }
    sum
}

// A time in microseconds. No process runs for so long that they would not fit.
fn micros(t: Duration) -> u64 {
    (t.as_micros() % 18446744073709551616) as u64
}

// The microseconds of this process; 0 where the system does not tell them.
pub fn clock(rt: &impl CpuClock) -> u64 {
    rt.process_cpu_time().map_or(0, micros)
}

// One line: calls of which kind, how many, a sum over what they answered, and the microseconds since a time.
pub fn say(rt: &impl CpuClock, output: Stdout, kind: &str, calls: u64, sum: u64, from: u64) {
    let took = clock(rt).wrapping_sub(from);
    put_line(output, &format_args!("{kind} {calls} {sum} {took}"));
}

// The file that an argument of a command names, from the start of a buffer: how many octets it has.
pub fn load<R: Env + Files>(
    rt: &R,
    command: Command,
    argument: usize,
    held: &mut [u8; 65536],
) -> usize {
    match command.open(rt, argument) {
        Some(mut file) => window::read_full(&mut file, held),
        None => 0,
    }
}

fn pace_step<R: Env + Files + CpuClock>(
    rt: &R,
    output: Stdout,
    command: Command,
    profile: Profile,
) {
    let mut held = [0u8; 65536];
    let n = load(rt, command, 3, &mut held);
    let from = clock(rt);
    let sum = run_events(profile, octets::front(&held, n));
    say(rt, output, "step", STEPS, sum, from);
}

fn pace_records<R: Env + Files + CpuClock>(rt: &R, output: Stdout, command: Command) {
    let mut held = [0u8; 65536];
    let n = load(rt, command, 4, &mut held);
    pace_list(rt, output, octets::front(&held, n));
}

fn pace_list(rt: &impl CpuClock, output: Stdout, list: &[u8]) {
    let mut records = [None; KEPT];
    let n = keep(list, &mut records).max(1);
    let kept = records.get(..n).unwrap_or(&records);
    let from = clock(rt);
    let sum = write_records(kept);
    say(rt, output, "write", WRITES, sum, from);
    let from = clock(rt);
    let sum = read_records(list);
    say(rt, output, "read", READS, sum, from);
    pace_count(rt, output, "count", list, kept, false);
    pace_count(rt, output, "full", list, kept, true);
}

fn pace_count(
    rt: &impl CpuClock,
    output: Stdout,
    kind: &str,
    list: &[u8],
    kept: &[Option<Record>],
    reading: bool,
) {
    let records = entries::count::count(list) as u64;
    let from = clock(rt);
    let sum = count_names(list, kept, reading);
    say(rt, output, kind, records % 65536 * COUNTS, sum, from);
}

pub fn main<R: Env + Files + CpuClock>(rt: &R, output: Stdout, error: Stderr) {
    if setup::arg_count(rt) != 5 {
        setup::say_line(error, b"usage: pace PROFILE EVENTS RECORDS\n");
        return;
    }
    let command = Command {
        name: b"pace",
        error,
    };
    if let Some(p) = command.profile(rt, 2) {
        pace_step(rt, output, command, p);
        pace_records(rt, output, command);
    }
}
