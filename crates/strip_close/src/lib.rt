// The second checksum byte: the packet acts, or is refused.
#![tactic(auto)]

ghost use Rattle.std.specs.Prelude.{◌≡◌, ◌≤◌, ◌<◌, Ok, length, get_or, take};
ghost use Rattle.strip.specs.Actions.{action, print, of_data};
ghost use Rattle.strip.specs.Step.{at, holding, placed, leaves, carried, step_in};
ghost use Rattle.strip_close.specs.Usable.{Usable};

use refusal::Fault;
use strip::{
    Answer, BAND_BYTES, Command, MOST_BANDS, Phase, Receiver, Stepped, go_to, is_unusable,
    number_of, refuse_with,
};
use strip_band::band_of;

// The record with so many waiting bands.
fn hold(rec: Receiver, bands: u8) -> Receiver
    ensures { result ≡ holding rec bands }
{
    Receiver { bands, ..rec }
}

// A packet acted: two clock bytes come.
fn act(rec: Receiver, answer: Answer) -> Stepped
    ensures { (result.rec ≡ at rec Phase.ClockFirst) × (result.answer ≡ Ok answer) }
{
    Stepped {
        rec: go_to(rec, Phase::ClockFirst),
        answer: Ok(answer),
    }
}

// A band at its place among the waiting ones.
fn place_band(bands: &mut [u8], n: usize, band: [u8; BAND_BYTES])
    requires { (n < 9) × (5760 ≤ length bands.old) × (length band ≡ 640) }
    ensures { bands.new ≡ placed bands.old n band }
{
    let at = BAND_BYTES * n;
    bands[at..at + BAND_BYTES].copy_from_slice(&band);
}

// The record and both buffers stay parameters here and below: the check covers no ghost field beside a `&mut`, and the record is taken by value.

// Data.
fn take_data(rec: Receiver, bands: &mut [u8], dots: &mut [u8]) -> Stepped
    requires { Usable rec bands.old dots.old }
    ensures { leaves result.rec result.answer bands.new dots.new ≡ carried rec (of_data rec.bands rec.indicator (take rec.have rec.body)) bands.old dots.old }
{
    let have = rec.have as usize;
    if have == 0 {
        return act(rec, Answer::Ended);
    }
    if MOST_BANDS <= rec.bands {
        return refuse_with(rec, Fault::TooManyBands);
    }
    let Some(band) = band_of(&rec.body[..have], rec.indicator) else {
        return refuse_with(rec, Fault::BandBytes);
    };
    place_band(bands, rec.bands as usize, band);
    let count = rec.bands + 1;
    act(hold(rec, count), Answer::Added(count))
}

// A byte of the body that came; 0 past it.
fn byte_at(came: &[u8], i: usize) -> u8
    ensures { result ≡ get_or came.now i 0 }
{
    came.get(i).copied().unwrap_or(0)
}

// Print.
#[tactic(auto, unfolding(strip::specs::Dots::printing))]
fn take_print(rec: Receiver, bands: &mut [u8], dots: &mut [u8]) -> Stepped
    requires { Usable rec bands.old dots.old }
    ensures { leaves result.rec result.answer bands.new dots.new
        ≡ carried rec (print (get_or (take rec.have rec.body) 2 0) (get_or (take rec.have rec.body) 1 0) (get_or (take rec.have rec.body) 3 0)) bands.old dots.old }
{
    let came = &rec.body[..rec.have as usize];
    let palette = byte_at(came, 2);
    let margins = byte_at(came, 1);
    let density = byte_at(came, 3);
    strip_rows::print(bands, rec.bands, palette, dots);
    let count = rec.bands;
    act(
        rec,
        Answer::Printed {
            count,
            margins,
            density,
        },
    )
}

// The packet, whole.
#[tactic(auto, unfolding(strip::specs::Actions::action))]
fn carry_out(rec: Receiver, byte: u8, bands: &mut [u8], dots: &mut [u8]) -> Stepped
    requires { Usable rec bands.old dots.old }
    ensures { leaves result.rec result.answer bands.new dots.new
        ≡ carried rec (action rec.bands rec.command rec.indicator (take rec.have rec.body) rec.sum rec.low byte) bands.old dots.old }
{
    if number_of(rec.low, byte) != rec.sum {
        return refuse_with(rec, Fault::Checksum);
    }
    match Command::try_from(rec.command) {
        Ok(Command::Initialize) => act(hold(rec, 0), Answer::Initialized),
        Ok(Command::Print) => take_print(rec, bands, dots),
        Ok(Command::Data) => take_data(rec, bands, dots),
        Ok(Command::Inquiry) => act(rec, Answer::Inquired),
        Err(fault) => refuse_with(rec, fault),
    }
}

// The second checksum byte of any record, whatever its phase.
#[tactic(auto, unfolding(strip::specs::Step::step_in, strip::specs::Step::unusable))]
pub fn close(rec: Receiver, byte: u8, bands: &mut [u8], dots: &mut [u8]) -> Stepped
    ensures { leaves result.rec result.answer bands.new dots.new ≡ step_in Phase.SumHigh rec byte bands.old dots.old }
{
    if is_unusable(bands.len(), dots.len(), rec.bands, rec.have) {
        return Stepped {
            rec,
            answer: Err(Fault::Unusable.at(0)),
        };
    }
    carry_out(rec, byte, bands, dots)
}
