// One byte to the strip printer's receiver, by value.
#![tactic(auto)]

ghost use Rattle.std.specs.Prelude.{◌≡◌, Ok, false, length, if◌then◌else◌, nat_eq};
ghost use Rattle.strip.specs.Packets.{fitting, add16};
ghost use Rattle.strip.specs.Step.{noted, after_byte, with_byte, bodied, leaves, taken, unusable, Steps};
ghost use Rattle.strip_step.specs.Heads.{Heads};

use refusal::Fault;
use strip::{
    Answer, BAND_BYTES, BODY_BYTES, Command, Phase, Receiver, Stepped, go_to, is_unusable,
    number_of, refuse_with,
};

// Whether indicator and length fit the command.
#[tactic(auto, unfolding(strip::specs::Packets::fitting))]
fn fits(command: u8, indicator: u8, size: u16) -> bool
    ensures { result ≡ fitting command indicator size }
{
    let bytes = size as usize;
    match Command::try_from(command) {
        Ok(Command::Data) => match indicator {
            0 => bytes == 0 || bytes == BAND_BYTES,
            1 => 1 <= bytes && bytes <= BODY_BYTES,
            _ => false,
        },
        Ok(Command::Print) => indicator == 0 && bytes == 4,
        Ok(Command::Initialize | Command::Inquiry) => indicator == 0 && bytes == 0,
        Err(_) => bytes <= BODY_BYTES,
    }
}

// One more byte in the checksum: carried past 65,535 it starts again at zero.
fn add(sum: u16, byte: u8) -> u16
    ensures { result ≡ add16 sum byte }
{
    sum.wrapping_add(byte as u16)
}

fn after_hunt(byte: u8) -> Phase
    ensures { result ≡ (if nat_eq byte 0x88 then Phase.Mark else Phase.Hunt) }
{
    match byte {
        0x88 => Phase::Mark,
        _ => Phase::Hunt,
    }
}

// A second 88 counts as a first.
fn after_mark(byte: u8) -> Phase
    ensures { result ≡ (if nat_eq byte 0x33 then Phase.Command else (if nat_eq byte 0x88 then Phase.Mark else Phase.Hunt)) }
{
    match byte {
        0x33 => Phase::Command,
        _ => after_hunt(byte),
    }
}

// The phase after a body byte.
fn after_body(have: u16, size: u16) -> Phase
    ensures { result ≡ after_byte have size }
{
    if have < size && (have as usize) < BODY_BYTES {
        Phase::Body
    } else {
        Phase::SumLow
    }
}

fn with_byte(rec: Receiver, byte: u8, have: u16, body: [u8; BODY_BYTES]) -> Receiver
    ensures { result ≡ with_byte rec byte have body }
{
    Receiver {
        phase: after_body(have, rec.size),
        have,
        sum: add(rec.sum, byte),
        body,
        ..rec
    }
}

// One more body byte.
fn body_byte(rec: Receiver, byte: u8) -> Receiver
    ensures { result ≡ bodied rec byte }
{
    let have = rec.have as usize;
    let mut body = rec.body;
    if have < BODY_BYTES {
        body[have] = byte;
        return with_byte(rec, byte, rec.have + 1, body);
    }
    with_byte(rec, byte, rec.have, body)
}

// The phase after a header.
fn after_header(size: u16) -> Phase
    ensures { result ≡ (if nat_eq size 0 then Phase.SumLow else Phase.Body) }
{
    match size {
        0 => Phase::SumLow,
        _ => Phase::Body,
    }
}

// What a byte is replied, and the record then.
fn reply(rec: Receiver, byte: u8) -> Stepped
    ensures { (result.rec ≡ rec) × (result.answer ≡ Ok (Answer.Reply byte)) }
{
    Stepped {
        rec,
        answer: Ok(Answer::Reply(byte)),
    }
}

// The header's last byte.
fn header_end(rec: Receiver, byte: u8) -> Stepped
    ensures { Heads rec byte result.rec result.answer }
{
    let size = number_of(rec.low, byte);
    if !fits(rec.command, rec.indicator, size) {
        return refuse_with(rec, Fault::PacketHeader);
    }
    let next = Receiver {
        phase: after_header(size),
        size,
        have: 0,
        sum: add(rec.sum, byte),
        ..rec
    };
    reply(next, 0)
}

// The first byte of a header, with which the sum begins.
fn command_byte(rec: Receiver, byte: u8) -> Receiver
    ensures { result ≡ noted rec Phase.Indicator byte rec.indicator rec.size rec.have byte rec.low }
{
    Receiver {
        phase: Phase::Indicator,
        command: byte,
        sum: byte as u16,
        ..rec
    }
}

fn indicator_byte(rec: Receiver, byte: u8) -> Receiver
    ensures { result ≡ noted rec Phase.Low rec.command byte rec.size rec.have (add16 rec.sum byte) rec.low }
{
    Receiver {
        phase: Phase::Low,
        indicator: byte,
        sum: add(rec.sum, byte),
        ..rec
    }
}

// The low byte of the length.
fn low_byte(rec: Receiver, byte: u8) -> Receiver
    ensures { result ≡ noted rec Phase.High rec.command rec.indicator rec.size rec.have (add16 rec.sum byte) byte }
{
    Receiver {
        phase: Phase::High,
        sum: add(rec.sum, byte),
        low: byte,
        ..rec
    }
}

// The low byte of the checksum.
fn sum_byte(rec: Receiver, byte: u8) -> Receiver
    ensures { result ≡ noted rec Phase.SumHigh rec.command rec.indicator rec.size rec.have rec.sum byte }
{
    Receiver {
        phase: Phase::SumHigh,
        low: byte,
        ..rec
    }
}

// A byte that is taken.
#[tactic(auto, unfolding(strip::specs::Step::step_in))]
fn take_byte(rec: Receiver, byte: u8, bands: &mut [u8], dots: &mut [u8]) -> Stepped
    requires { unusable (length bands.old) (length dots.old) rec.bands rec.have ≡ false }
    ensures { leaves result.rec result.answer bands.new dots.new ≡ taken rec.phase rec byte bands.old dots.old }
{
    match rec.phase {
        Phase::Hunt => reply(go_to(rec, after_hunt(byte)), 0),
        Phase::Mark => reply(go_to(rec, after_mark(byte)), 0),
        Phase::Command => reply(command_byte(rec, byte), 0),
        Phase::Indicator => reply(indicator_byte(rec, byte), 0),
        Phase::Low => reply(low_byte(rec, byte), 0),
        Phase::High => header_end(rec, byte),
        Phase::Body => reply(body_byte(rec, byte), 0),
        Phase::SumLow => reply(sum_byte(rec, byte), 0),
        Phase::SumHigh => strip_close::close(rec, byte, bands, dots),
        Phase::ClockFirst => reply(go_to(rec, Phase::ClockSecond), 0x81),
        Phase::ClockSecond => reply(go_to(rec, Phase::Hunt), rec.status),
    }
}

// One arriving byte.
#[tactic(auto, unfolding(strip::specs::Step::step_in))]
pub fn step(rec: Receiver, byte: u8, bands: &mut [u8], dots: &mut [u8]) -> Stepped
    ensures { Steps rec byte bands.old dots.old result.rec result.answer bands.new dots.new }
{
    if is_unusable(bands.len(), dots.len(), rec.bands, rec.have) {
        return Stepped {
            rec,
            answer: Err(Fault::Unusable.at(0)),
        };
    }
    take_byte(rec, byte, bands, dots)
}
