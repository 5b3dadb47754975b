// One arriving byte: the record that is lent is taken apart, and stored back.
#![tactic(auto)]

ghost use Rattle.std.specs.Prelude.{◌≡◌};
ghost use Rattle.strip.specs.Step.{Steps, with_status};

use refusal::Refusal;
use strip::{Answer, Receiver};

// The record, the answer and both buffers are those of the step by value.
pub fn receive(
    r: &mut Receiver,
    byte: u8,
    bands: &mut [u8],
    dots: &mut [u8],
) -> Result<Answer, Refusal>
    ensures { Steps r.old byte bands.old dots.old r.new result bands.new dots.new }
{
    let s = strip_step::step(*r, byte, bands, dots);
    *r = s.rec;
    s.answer
}

// The host sets the status; all else stays.
pub fn set_status(r: &mut Receiver, status: u8)
    ensures { r.new ≡ with_status status r.old }
{
    r.status = status;
}
