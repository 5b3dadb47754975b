// The strip printer's receiver: its record, and what its functions share.
#![tactic(auto)]

ghost use Rattle.std.specs.Prelude.{◌≡◌, ℕ, Err};
ghost use Rattle.strip.specs.Packets.{number};
ghost use Rattle.strip.specs.Step.{at, unusable, new_record};

use refusal::{Fault, Refusal};

// The bytes of a band.
pub const BAND_BYTES: usize = 640;

// The bytes of a body at most.
pub const BODY_BYTES: usize = 648;

// How many bands wait at most.
pub const MOST_BANDS: u8 = 9;

// The bytes of so many bands, and of their rows.
pub const ROOM: usize = 5760;

// The commands that the source has.
#[derive(Clone, Copy)]
pub enum Command {
    Initialize = 1,
    Print = 2,
    Data = 4,
    Inquiry = 15,
}

impl TryFrom<u8> for Command {
    ghost use Rattle.strip.specs.Commands.{command_of};

    type Error = Fault;

    ghost try_from_gives = { λ byte r. r ≡ command_of byte };

    fn try_from(byte: u8) -> Result<Command, Fault> {
        match byte {
            1 => Ok(Command::Initialize),
            2 => Ok(Command::Print),
            4 => Ok(Command::Data),
            15 => Ok(Command::Inquiry),
            _ => Err(Fault::UnknownCommand),
        }
    }
}

// Which byte is awaited: one that opens a mark, its second, the four of a header, one of the body, the two of the checksum, the two clock bytes. The
// numbers are those of the record in C.
#[derive(Clone, Copy)]
pub enum Phase {
    Hunt = 0,
    Mark = 1,
    Command = 2,
    Indicator = 3,
    Low = 4,
    High = 5,
    Body = 6,
    SumLow = 7,
    SumHigh = 8,
    ClockFirst = 9,
    ClockSecond = 10,
}

impl From<Phase> for u8 {
    ghost use Rattle.strip.specs.Phases.{number_of};

    ghost from_gives = { λ phase n. n ≡ number_of phase };

    fn from(phase: Phase) -> u8 {
        phase as u8
    }
}

// A number that names no phase is the search for a mark.
impl From<u8> for Phase {
    ghost use Rattle.strip.specs.Phases.{phase_of};

    ghost from_gives = { λ n phase. phase ≡ phase_of n };

    #[tactic(auto, unfolding(crate::specs::Phases::phase_of))]
    fn from(n: u8) -> Phase {
        match n {
            1 => Phase::Mark,
            2 => Phase::Command,
            3 => Phase::Indicator,
            4 => Phase::Low,
            5 => Phase::High,
            6 => Phase::Body,
            7 => Phase::SumLow,
            8 => Phase::SumHigh,
            9 => Phase::ClockFirst,
            10 => Phase::ClockSecond,
            _ => Phase::Hunt,
        }
    }
}

// What the next byte of a coded body is: the first of a run; a byte to be copied so many times; one of a literal run, with so many after it.
#[derive(Clone, Copy)]
pub enum Run {
    First,
    Copied(u8),
    Literal(u8),
}

// A receiver's record: the packet's command, indicator and length, how many bytes of its body came, the sum so far, the low byte of its length or
// checksum; the host's status; how many bands wait; and the body.
#[derive(Clone, Copy)]
pub struct Receiver {
    pub phase: Phase,
    pub command: u8,
    pub indicator: u8,
    pub size: u16,
    pub have: u16,
    pub sum: u16,
    pub low: u8,
    pub status: u8,
    pub bands: u8,
    pub body: [u8; BODY_BYTES],
}

// What a byte is answered that is not refused. A byte that is taken and gets no reply here is answered 0 on the line.
#[derive(Clone, Copy)]
pub enum Answer {
    Reply(u8),
    Initialized,
    Added(u8),
    Ended,
    Inquired,
    Printed { count: u8, margins: u8, density: u8 },
}

#[derive(Clone, Copy)]
pub struct Stepped<R = Refusal> {
    pub rec: Receiver,
    pub answer: Result<Answer, R>,
}

// What a packet is refused with, and the refusal at a place: a fault, or any number of the caller's.
pub trait Refuses {
    type Told;

    ghost refused_at: { Self → ℕ → Self.Told };

    fn refused_at(self, place: usize) -> Self::Told
        ensures { result ≡ refused_at self place };
}

impl Refuses for Fault {
    type Told = Refusal;

    ghost refused_at = { λ f p. record { fault = f; place = p } };

    fn refused_at(self, place: usize) -> Refusal {
        self.at(place)
    }
}

impl Refuses for u8 {
    type Told = (u8, usize);

    ghost refused_at = { λ n p. (n, p) };

    fn refused_at(self, place: usize) -> (u8, usize) {
        (self, place)
    }
}

// A record before the first byte.
pub fn new() -> Receiver
    ensures { result ≡ new_record }
{
    Receiver {
        phase: Phase::Hunt,
        command: 0,
        indicator: 0,
        size: 0,
        have: 0,
        sum: 0,
        low: 0,
        status: 0,
        bands: 0,
        body: [0u8; BODY_BYTES],
    }
}

// The record in another phase.
pub fn go_to(rec: Receiver, phase: Phase) -> Receiver
    ensures { result ≡ at rec phase }
{
    Receiver { phase, ..rec }
}

// A refusal: the search for a mark begins at the next byte.
pub fn refuse_with<N: Refuses>(rec: Receiver, number: N) -> Stepped<N::Told>
    ensures { (result.rec ≡ at rec Phase.Hunt) × (result.answer ≡ Err (N.refused_at number 0)) }
{
    Stepped {
        rec: go_to(rec, Phase::Hunt),
        answer: Err(number.refused_at(0)),
    }
}

// A number in two bytes.
pub fn number_of(low: u8, high: u8) -> u16
    ensures { result ≡ number low high }
{
    u16::from_le_bytes([low, high])
}

// Whether a call is refused with 36.
#[tactic(auto, unfolding(crate::specs::Step::unusable))]
pub fn is_unusable(band_bytes: usize, dot_bytes: usize, waiting: u8, have: u16) -> bool
    ensures { result ≡ unusable band_bytes dot_bytes waiting have }
{
    band_bytes < ROOM || dot_bytes < ROOM || MOST_BANDS < waiting || BODY_BYTES < have as usize
}
