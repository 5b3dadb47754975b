// A refusal, as every function of films and jobs and the strip printer's receiver give it and hand it on.
#![tactic(auto)]

ghost use Rattle.std.specs.Prelude.{◌≡◌};

use std::fmt;

// What is wrong. The numbers are those by which a refusal is told.
#[derive(Clone, Copy, Debug, PartialEq, Eq)]
pub enum Fault {
    // An odd length, or a sheet, load or job that is too long.
    Length = 1,
    Password = 2,
    Size = 3,
    LoadCount = 4,
    PageOrBandCount = 5,
    Cut = 6,
    UnknownCode = 7,
    Priority = 8,
    LoadRange = 9,
    WordsAfter = 10,
    NoBand = 11,
    ShortBuffer = 12,
    TileMode = 13,
    Padding = 15,
    JobHead = 21,
    PageHead = 22,
    UnexpectedGroup = 23,
    JobEnds = 24,
    PageLines = 25,
    BytesAfter = 26,
    Writing = 27,
    Checksum = 31,
    UnknownCommand = 32,
    PacketHeader = 33,
    TooManyBands = 34,
    BandBytes = 35,
    Unusable = 36,
}

impl From<Fault> for u8 {
    ghost use Rattle.refusal.specs.Faults.{number_of};

    ghost from_gives = { λ fault n. n ≡ number_of fault };

    fn from(fault: Fault) -> u8 {
        fault as u8
    }
}

// What is wrong, and where: a word of the sheet, a byte of the job, or 0.
#[derive(Clone, Copy, Debug, PartialEq, Eq)]
pub struct Refusal {
    pub fault: Fault,
    pub place: usize,
}

impl Fault {
    // The refusal at a place.
    pub fn at(self, place: usize) -> Refusal
        ensures { result ≡ record { fault = self; place = place } }
    {
        Refusal { fault: self, place }
    }
}

impl fmt::Display for Refusal {
    fn fmt<W: fmt::Write>(&self, f: &mut fmt::Formatter<W>) -> fmt::Result {
        write!(f, "refused {} at {}", u8::from(self.fault), self.place)
    }
}
