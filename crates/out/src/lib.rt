// Characters on their way to standard output or standard error: they wait in a buffer, which is written where it is full, and by `flush`.
//
// No contract can say what is written: `put` says what waits after one character, as the write went, and all else says that it puts its
// characters as `put` does, one after another.
#![tactic(auto)]

ghost use Rattle.std.specs.Prelude.{◌≡◌, ◌<◌, ◌≤◌, IfOk, None, Ok, OnErr, OnOk, length, nat_eq, take};
ghost use Rattle.std.specs.Io.{WritesAtMost};
ghost use Rattle.std.specs.Result.{result_err};
ghost use Rattle.std.specs.Io.KnownBytes.{Appends, Keeps, WriteAppends};
ghost use Rattle.out.specs.Put.{PutsAll, PutsOne, count_of};

use std::io;
use std::io::{Stderr, Stdout, Write};

// How many characters the buffer has room for.
pub const ROOM: usize = 4096;

// Where characters go, with those that wait.
#[derive(Clone, Copy, Drop)]
pub struct Stream<W = Stdout> {
    end: W,
    text: [u8; ROOM],
    // how many wait; or why a write failed, after which nothing is written
    waiting: io::Result<usize>,
}

pub fn to_output(output: Stdout) -> Stream {
    Stream::new(output)
}

pub fn to_error(error: Stderr) -> Stream<Stderr> {
    Stream::new(error)
}

impl<W: Write> Stream<W> {
    pub fn new(end: W) -> Stream<W>
        ensures end { result.end ≡ end }
        ensures none { result.waiting ≡ Ok 0 }
    {
        Stream {
            end,
            text: [0; ROOM],
            waiting: Ok(0),
        }
    }

    // Why a write failed, if one did.
    pub fn failed(&self) -> Option<io::Error>
        ensures { result ≡ result_err self.now.waiting }
    {
        self.waiting.err()
    }

    // Puts one character behind those that wait.
    pub fn put(&mut self, x: u8) -> io::Result<()>
        ensures failed { OnErr result (count_of self.new.waiting ≡ 4097) }
        ensures puts { PutsOne self.old.text (count_of self.old.waiting) x self.new.text (count_of self.new.waiting) }
    {
        if self.is_full() {
            self.write_out();
        }
        let n = self.waiting?;
        self.text[n] = x;
        self.waiting = Ok(n + 1);
        Ok(())
    }

    // Puts as many of the octets as there is room for, and answers how many. Where a write fails, none of them comes out.
    fn put_stretch(&mut self, octets: &[u8]) -> io::Result<usize>
        requires { 0 < length octets.now }
        ensures bound { WritesAtMost result octets.now }
        ensures some { IfOk result (λ n. 0 < n) }
        ensures puts { IfOk result (λ n. PutsAll self.old.text (count_of self.old.waiting) (take n octets.now) self.new.text (count_of self.new.waiting)) }
        ensures told { OnOk result (count_of self.new.waiting ≤ 4096) }
        ensures failed { OnErr result (count_of self.new.waiting ≡ 4097) }
        ensures lost { OnErr result (PutsAll self.old.text (count_of self.old.waiting) octets.now self.new.text (count_of self.new.waiting)) }
    {
        if self.is_full() {
            self.write_out();
        }
        match &mut self.waiting {
            Ok(n) => {
                let size = octets.len().min(ROOM - *n);
                self.text[*n..*n + size].copy_from_slice(&octets[..size]);
                *n += size;
                Ok(size)
            }
            Err(why) => Err(*why),
        }
    }

    fn is_full(&self) -> bool
        ensures { result ≡ nat_eq (count_of self.now.waiting) 4096 }
    {
        matches!(self.waiting, Ok(ROOM..))
    }

    // Writes what waits.
    fn write_out(&mut self)
        ensures text { self.new.text ≡ self.old.text }
        ensures none { IfOk self.new.waiting (λ n. n ≡ 0) }
    {
        if let Ok(n) = self.waiting {
            let done = self.end.write_all(octets::front(&self.text, n));
            self.waiting = done.map(|_| 0);
        }
    }
}

impl<W: Write> Write for Stream<W> {
    // Puts all, until a write fails.
    fn write(&mut self, octets: &[u8]) -> io::Result<usize>
        ensures bound { WritesAtMost result octets.now }
        ensures bytes { WriteAppends None None result octets.now }
        ensures all { IfOk result (λ n. n ≡ length octets.now) }
        ensures puts { PutsAll self.old.text (count_of self.old.waiting) octets.now self.new.text (count_of self.new.waiting) }
        ensures told { OnOk result (0 < length octets.now → count_of self.new.waiting ≤ 4096) }
        ensures failed { OnErr result (count_of self.new.waiting ≡ 4097) }
    {
        let mut rest = octets;
        while !rest.is_empty() {
            let n = self.put_stretch(rest)?;
            rest = &rest[n..];
        }
        Ok(octets.len())
    }

    // The same. What failed stays failed, so it asks once: std's own would go on asking after a write that was interrupted.
    fn write_all(&mut self, octets: &[u8]) -> io::Result<()>
        ensures bytes { OnOk result (Appends None None octets.now) }
        ensures puts { PutsAll self.old.text (count_of self.old.waiting) octets.now self.new.text (count_of self.new.waiting) }
        ensures told { OnOk result (0 < length octets.now → count_of self.new.waiting ≤ 4096) }
        ensures failed { OnErr result (count_of self.new.waiting ≡ 4097) }
    {
        self.write(octets).map(|_| ())
    }

    fn flush(&mut self) -> io::Result<()>
        ensures bytes { Keeps None None }
        ensures ok { OnOk result (count_of self.new.waiting ≡ 0) }
        ensures err { OnErr result (count_of self.new.waiting ≡ 4097) }
    {
        self.write_out();
        self.waiting.map(|_| ())
    }
}
