// The numbers of each answer, for the library's callers: kind, a and b. Kind 0: done, with the answer's values; kind 1: refused, a is the number and b
// the place; kind 2: page end, a and b are the next place.
#![tactic(auto)]

ghost use Rattle.std.specs.Prelude.{◌≡◌, ℕ, List};
ghost use Rattle.printbox_answers.specs.Numbers.{done};
ghost use Rattle.printbox_answers.specs.Code.{line_values, told_refusal, told_number, numbers_of};

use film_drawing::Drawn;
use gdi_read::LineRead;
use refusal::Refusal;

const DONE: u64 = 0;

const REFUSED: u64 = 1;

const PAGE_END: u64 = 2;

// What an entry gives that is not refused, as its kind and two values.
pub trait Values {
    ghost values: { Self → List ℕ };

    fn values(self) -> [u64; 3]
        ensures { result ≡ values self };
}

// Pages, or bytes written.
impl Values for usize {
    ghost values = { λ count. done count 0 };

    fn values(self) -> [u64; 3] {
        [DONE, self as u64, 0]
    }
}

// The command of a white line.
impl Values for u16 {
    ghost values = { λ command. done command 0 };

    fn values(self) -> [u64; 3] {
        [DONE, u64::from(self), 0]
    }
}

impl Values for Drawn {
    ghost values = { λ drawn. done drawn.rows drawn.dots };

    fn values(self) -> [u64; 3] {
        [DONE, self.rows as u64, self.dots as u64]
    }
}

impl Values for LineRead {
    ghost values = { line_values };

    fn values(self) -> [u64; 3] {
        match self {
            LineRead::Line { offset, left } => [DONE, offset as u64, left as u64],
            LineRead::PageEnd { offset, left } => [PAGE_END, offset as u64, left as u64],
        }
    }
}

// What an entry refuses with, as its kind and two values.
pub trait Told {
    ghost told: { Self → List ℕ };

    fn told(self) -> [u64; 3]
        ensures { result ≡ told self };
}

impl Told for Refusal {
    ghost told = { told_refusal };

    fn told(self) -> [u64; 3] {
        [REFUSED, u64::from(u8::from(self.fault)), self.place as u64]
    }
}

// Any number, and a place.
impl Told for (u8, usize) {
    ghost told = { told_number };

    fn told(self) -> [u64; 3] {
        let (number, place) = self;
        [REFUSED, u64::from(number), place as u64]
    }
}

// The three numbers of an answer.
pub fn numbers<T: Values, R: Told>(answer: Result<T, R>) -> [u64; 3]
    ensures { result ≡ numbers_of T.values R.told answer }
{
    match answer {
        Ok(value) => value.values(),
        Err(refusal) => refusal.told(),
    }
}
