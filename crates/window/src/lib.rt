// A file seen through a window: octets that are held, of which some are left to look at, and more read behind them.
//
// What lies there is for the program to say. `fill` reads, so no contract can say what comes behind what was left.
#![tactic(auto)]

ghost use Rattle.std.specs.Prelude.{◌≡◌, ◌+◌, ◌-◌, ◌%◌, ◌^◌, ◌<◌, ◌≤◌, ◌==◌, ◌↔◌, length, false, IsTrue, IfOk, OnErr};
ghost use Rattle.octets.specs.Part.{part_of};
ghost use Rattle.window.specs.Moved.{Moves};
ghost use Rattle.window.specs.Fill.{Fills};

use std::io;
use std::io::Read;

// Where the next thing lies: in the window from `at` on, where octets of the file stand up to `end`; in the file after `offset` octets.
#[derive(Clone, Copy)]
pub struct Place {
    pub at: usize,
    pub end: usize,
    pub offset: u64,
}

// The start of a file, of which nothing is held yet.
pub const START: Place = Place {
    at: 0,
    end: 0,
    offset: 0,
};

impl Place {
    // How many octets of the window are left.
    pub fn left(self) -> usize
        ensures { result ≡ self.end - self.at }
    {
        self.end.saturating_sub(self.at)
    }

    // The place n octets on.
    pub fn after(self, n: usize) -> Place
        ensures { (result.at ≡ (self.at + n) % 2 ^ 64) × ((result.end ≡ self.end) × (result.offset ≡ (self.offset + n) % 2 ^ 64)) }
    {
        Place {
            at: self.at.wrapping_add(n),
            offset: self.offset.wrapping_add(n as u64),
            ..self
        }
    }

    // Moves what is left to the front of the window.
    #[tactic(auto, using(crate::proofs::Moves::moved_copied, crate::proofs::Moves::moved_none))]
    fn to_front(&mut self, window: &mut [u8])
        ensures { Moves window.old window.new self.old self.new }
    {
        let end = self.end.min(window.len());
        if self.at < end {
            window.copy_within(self.at..end, 0);
        }
        self.end = self.left();
        self.at = 0;
    }

    // Reads on, behind what is left, which it moves to the front of the window. Answers how many octets came, 0 at the end of the file.
    pub fn fill<R: Read>(&mut self, file: &mut R, window: &mut [u8]) -> io::Result<usize>
        ensures { Fills window.old window.new self.old self.new result }
    {
        self.to_front(window);
        if window.len() <= self.end {
            return Ok(0);
        }
        let more = file.read(&mut window[self.end..])?;
        self.end += more;
        Ok(more)
    }
}

// A file that is read through a window: what is held of it, and where the next thing lies; and whether the file has ended in the window.
#[derive(Drop)]
pub struct Input<'a, F> {
    pub file: F,
    pub held: &'a mut [u8],
    pub place: Place,
    pub ended: bool,
}

impl<'a, F: Read> Input<'a, F> {
    // A file from its start, through a window that is lent.
    pub fn new(file: F, held: &'a mut [u8]) -> Input<'a, F>
        ensures { (result.place ≡ START) × (result.ended ≡ false) × (result.held.now ≡ held.old) }
    {
        Input {
            file,
            held,
            place: START,
            ended: false,
        }
    }

    // What is left in the window.
    pub fn here(&self) -> &[u8]
        ensures { result.now ≡ part_of self.now.place.at self.now.place.end self.now.held.now }
    {
        octets::part(self.held, self.place.at, self.place.end)
    }

    // Are fewer than n octets left, and may more follow?
    pub fn wants(&self, n: usize) -> bool
        ensures { IsTrue result ↔ ((self.now.ended ≡ false) × (self.now.place.end - self.now.place.at < n)) }
    {
        !self.ended && self.place.left() < n
    }

    // Goes on by n octets.
    pub fn pass(&mut self, n: usize)
        ensures at { self.new.place.at ≡ (self.old.place.at + n) % 2 ^ 64 }
        ensures end { self.new.place.end ≡ self.old.place.end }
        ensures offset { self.new.place.offset ≡ (self.old.place.offset + n) % 2 ^ 64 }
        ensures same { (self.new.held.now ≡ self.old.held.now) × (self.new.ended ≡ self.old.ended) }
    {
        self.place = self.place.after(n);
    }

    // Reads on, behind what is left, which it moves to the front of the window. Answers how many octets came, 0 at the end of the file.
    pub fn read_on(&mut self) -> io::Result<usize>
        ensures filled { Fills self.old.held.now self.new.held.now self.old.place self.new.place result }
        ensures ended { IfOk result (λ n. self.new.ended ≡ (n == 0)) }
        ensures failed { OnErr result (self.new.ended ≡ self.old.ended) }
    {
        let n = self.place.fill(&mut self.file, self.held)?;
        self.ended = n == 0;
        Ok(n)
    }
}

// Reads until the buffer is full, the file ends or a read fails, and answers how many octets it put at the start.
pub fn read_full<R: Read>(file: &mut R, buffer: &mut [u8]) -> usize
    ensures { result ≤ length buffer.new }
{
    let mut done = 0;
    // std's read_exact does not say how many octets came before the end.
    while done < buffer.len() {
        match file.read(&mut buffer[done..]) {
            Ok(more) if more > 0 => done += more,
            _ => break,
        }
    }
    done
}
