// The receiver's record and answers as numbers, for callers in C and Rust.
#![tactic(auto)]

ghost use Rattle.std.specs.Prelude.{◌≡◌};
ghost use Rattle.strip.specs.Step.{new_record};
ghost use Rattle.strip_numbers.specs.Numbers.{record_of, NumberSteps};

use refusal::{Fault, Refusal};
use strip::{Answer, Receiver};

// A receiver's record, as C lays it out. Phase 0 is the search for a mark; so is any number that names no phase.
#[repr(C)]
#[derive(Clone, Copy)]
pub struct StripRecord {
    pub phase: u8,
    pub command: u8,
    pub indicator: u8,
    pub size: u16,
    pub have: u16,
    pub sum: u16,
    pub low: u8,
    pub status: u8,
    pub bands: u8,
    pub body: [u8; 648],
}

impl From<StripRecord> for Receiver {
    ghost use Rattle.strip_numbers.specs.Numbers.{receiver_of};

    ghost from_gives = { λ r rec. rec ≡ receiver_of r };

    fn from(r: StripRecord) -> Receiver {
        let StripRecord {
            phase,
            command,
            indicator,
            size,
            have,
            sum,
            low,
            status,
            bands,
            body,
        } = r;
        Receiver {
            phase: phase.into(),
            command,
            indicator,
            size,
            have,
            sum,
            low,
            status,
            bands,
            body,
        }
    }
}

impl From<Receiver> for StripRecord {
    ghost use Rattle.strip_numbers.specs.Numbers.{record_of};

    ghost from_gives = { λ rec r. r ≡ record_of rec };

    fn from(rec: Receiver) -> StripRecord {
        let Receiver {
            phase,
            command,
            indicator,
            size,
            have,
            sum,
            low,
            status,
            bands,
            body,
        } = rec;
        StripRecord {
            phase: phase.into(),
            command,
            indicator,
            size,
            have,
            sum,
            low,
            status,
            bands,
            body,
        }
    }
}

// An answer, as C lays it out. Kind 0: done, with the byte on the line and what the packet did that the byte ends. Kind 1: refused, with number and place.
#[repr(C)]
#[derive(Clone, Copy)]
pub struct StripAnswer {
    pub kind: u8,
    pub reply: u8,
    pub event: u8,
    pub bands: u8,
    pub margins: u8,
    pub density: u8,
    pub number: u8,
    pub place: usize,
}

// Done, with nothing else to say.
const DONE: StripAnswer = StripAnswer {
    kind: 0,
    reply: 0,
    event: 0,
    bands: 0,
    margins: 0,
    density: 0,
    number: 0,
    place: 0,
};

impl From<Answer> for StripAnswer {
    ghost use Rattle.strip_numbers.specs.Numbers.{event_of};

    ghost from_gives = { λ answer a. a ≡ event_of answer };

    fn from(answer: Answer) -> StripAnswer {
        match answer {
            Answer::Reply(reply) => StripAnswer { reply, ..DONE },
            Answer::Initialized => StripAnswer { event: 1, ..DONE },
            Answer::Added(bands) => StripAnswer {
                event: 2,
                bands,
                ..DONE
            },
            Answer::Ended => StripAnswer { event: 3, ..DONE },
            Answer::Inquired => StripAnswer { event: 4, ..DONE },
            Answer::Printed {
                count,
                margins,
                density,
            } => StripAnswer {
                event: 5,
                bands: count,
                margins,
                density,
                ..DONE
            },
        }
    }
}

impl From<Refusal> for StripAnswer {
    ghost use Rattle.strip_numbers.specs.Numbers.{refusal_of};

    ghost from_gives = { λ r a. a ≡ refusal_of r };

    fn from(r: Refusal) -> StripAnswer {
        StripAnswer {
            kind: 1,
            number: r.fault.into(),
            place: r.place,
            ..DONE
        }
    }
}

impl From<Result<Answer, Refusal>> for StripAnswer {
    ghost use Rattle.strip_numbers.specs.Numbers.{answer_of};

    ghost from_gives = { λ answer a. a ≡ answer_of answer };

    fn from(answer: Result<Answer, Refusal>) -> StripAnswer {
        match answer {
            Ok(answer) => answer.into(),
            Err(refusal) => refusal.into(),
        }
    }
}

#[derive(Clone, Copy)]
pub struct StripStepped {
    pub rec: StripRecord,
    pub answer: StripAnswer,
}

// A record before the first byte.
pub fn new_record() -> StripRecord
    ensures { result ≡ record_of new_record }
{
    strip::new().into()
}

// One arriving byte. The record that 36 leaves is the one that came, whatever its phase.
#[tactic(auto, unfolding(crate::specs::Numbers::number_step))]
pub fn step_record(rec: StripRecord, byte: u8, bands: &mut [u8], dots: &mut [u8]) -> StripStepped
    ensures { NumberSteps rec byte bands.old dots.old result.rec result.answer bands.new dots.new }
{
    if strip::is_unusable(bands.len(), dots.len(), rec.bands, rec.have) {
        return StripStepped {
            rec,
            answer: Fault::Unusable.at(0).into(),
        };
    }
    let stepped = strip_step::step(rec.into(), byte, bands, dots);
    StripStepped {
        rec: stepped.rec.into(),
        answer: stepped.answer.into(),
    }
}
