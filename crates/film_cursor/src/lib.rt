// A cursor over a band's commands, by value, and the test of a band.
#![tactic(auto)]

ghost use Rattle.std.specs.Prelude.{◌≡◌, true};
ghost use Rattle.refusal.specs.Code.{tested_as};
ghost use Rattle.film_words.specs.Words.{words};
ghost use Rattle.film_words.specs.Parts.{part_of};
ghost use Rattle.film_words.specs.Load.{load_words};
ghost use Rattle.film_commands.specs.Band.{band_test};
ghost use Rattle.film_cursor.specs.Cursors.{Stepped};

use film_commands::{Colour, Command, Mask, read_command};
use refusal::Refusal;

// A cursor over a band's commands: the place of the next one, and the priority and the colour that hold there.
#[derive(Clone, Copy)]
pub struct Cursor<'a> {
    pub at: usize,
    pub least: u32,
    pub colour: Colour<'a>,
}

// What stands at a cursor: a mask, to be painted in the cursor's colour, and the place after it; or another command, and the cursor after it.
#[derive(Clone, Copy)]
pub enum Step<'a> {
    Paint(Mask<'a>, usize),
    Other(Cursor<'a>),
}

// The cursor's next command, in a band that ends before place `end`; none at the band's end. Where the sheet has not all words up to `end`, there is
// none. Inlined, as the test below: their answers are large.
#[inline(always)]
pub fn advance<'a>(
    sheet: &'a [u8],
    load: &'a [u8],
    end: usize,
    c: Cursor<'a>,
) -> Result<Option<Step<'a>>, Refusal>
    ensures { Stepped sheet.now load.now end c.entry result }
{
    if c.at >= end || end > sheet.len() / 2 {
        return Ok(None);
    }
    let read = read_command(sheet, load, c.at, end, c.least);
    let Ok((command, next)) = read else {
        return read.map(|_| None);
    };
    let after = Cursor { at: next, ..c };
    Ok(Some(match command {
        Command::Paint(m) => Step::Paint(m, next),
        Command::Priority(v) => Step::Other(Cursor { least: v, ..after }),
        Command::Ink => Step::Other(Cursor {
            colour: Colour::Solid(true),
            ..after
        }),
        Command::Clear => Step::Other(Cursor {
            colour: Colour::Solid(false),
            ..after
        }),
        Command::Tile(t) => Step::Other(Cursor {
            colour: Colour::Tile(t),
            ..after
        }),
    }))
}

// The cursor at a band's first command: priority 0, and ink.
pub fn start<'a>(from: usize) -> Cursor<'a>
    ensures { (result.at ≡ from) × (result.least ≡ 0) × (result.colour ≡ Colour.Solid true) }
{
    Cursor {
        at: from,
        least: 0,
        colour: Colour::Solid(true),
    }
}

// The test of a band's commands, from place `from` up to, not including, place `end`. A sheet that ends before `end` has none there.
#[inline(always)]
pub fn test_band<'a>(
    sheet: &'a [u8],
    load: &'a [u8],
    from: usize,
    end: usize,
) -> Result<(), Refusal>
    ensures { tested_as result ≡ band_test (load_words load.now) from (words (part_of sheet.now from end)) }
{
    let mut c = start(from);
    // No `while let` with `?`: the check does not cover one over a value that holds a reference.
    loop {
        let Some(step) = advance(sheet, load, end, c)? else {
            return Ok(());
        };
        c = match step {
            Step::Paint(_, at) => Cursor { at, ..c },
            Step::Other(d) => d,
        };
    }
}
