// The commands for tests and measures, each in a module of its own. bin/program runs them.
//
//     testing calls PROFILE CALLS                the node's calls, a line a call (calls.rt)
//     testing records write|read|both            the writer and reader of S-CDRs; of M-CDRs with -mm behind the word (records.rt)
//     testing dates                              time stamps written, and read back (dates.rt)
//     testing counts                             the records of a name counted in lists, a line a list (counts.rt)
//     testing pace PROFILE EVENTS RECORDS        how long the step, the writer, the reader and the count take (pace.rt)
//     testing tick PROFILE EVENTS                how long the last event takes (tick.rt)
//     testing all PROFILE BLOCKS CALLS..         files of calls, then what `records both` makes of standard input and `records both-mm` of
//                                                the file BLOCKS, then 01's bench table (table.rt)
//     testing all-counted PROFILE BLOCKS CASES CALLS..   the same, and then what `counts` makes of the file CASES
//
// No contract can say what is read or written: each function is proved safe and ending.
#![tactic(auto)]

mod calls;
mod counts;
mod dates;
mod pace;
mod records;
mod table;
mod tick;

use std::env::Env;
use std::fmt;
use std::io::{Read, Stderr, Stdout, Write};
use std::rt::Files;

// Each file of calls, from an argument on, from a fresh node.
fn all<R: Env + Files, F: Read + Drop>(
    rt: &R,
    output: Stdout,
    error: Stderr,
    input: F,
    calls: usize,
) {
    for i in calls..setup::arg_count(rt) {
        calls::run_file(rt, output, error, i);
    }
    records::both(output, error, input);
    records::both_mm(rt, output, error, 3);
    table::write_rows(output);
}

// Writes what is shown, through a stream of its own: where it can't be written, what comes next is tried all the same.
fn put(output: Stdout, shown: &impl fmt::Display) {
    let mut to = out::to_output(output);
    let _ = write!(to, "{shown}");
    let _ = to.flush();
}

// The same of a line.
fn put_line(output: Stdout, line: &impl fmt::Display) {
    put(output, &format_args!("{line}\n"));
}

// The first n octets of a buffer; all where there are fewer.
fn lent(buffer: &mut [u8], n: usize) -> &mut [u8] {
    let n = n.min(buffer.len());
    &mut buffer[..n]
}

fn main(rt: HostRuntime) {
    let output = rt.stdout();
    let error = rt.stderr();
    let input = rt.stdin();
    let mut held = [0u8; 16];
    match setup::arg(&rt, 1, &mut held) {
        b"calls" => calls::main(&rt, output, error),
        b"records" => records::main(&rt, output, error, input),
        b"dates" => dates::main(output, error, input),
        b"counts" => counts::main(output, error, input),
        b"pace" => pace::main(&rt, output, error),
        b"tick" => tick::main(&rt, output, error),
        b"all" => all(&rt, output, error, input, 4),
        b"all-counted" => {
            all(&rt, output, error, input, 5);
            counts::count_file(&rt, output, error, 4);
        }
        _ => setup::say_line(
            error,
            b"usage: testing calls|records|dates|counts|pace|tick|all ARGUMENT..\n",
        ),
    }
}
