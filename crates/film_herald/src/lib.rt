// The herald of a sheet: the test of herald and load, and what follows from the herald's sizes.
#![tactic(auto)]

ghost use Rattle.std.specs.Prelude.{◌≡◌, [], ◌∷◌};
ghost use Rattle.refusal.specs.Tables.{refuse, first};
ghost use Rattle.refusal.specs.Faults.{number_of};
ghost use Rattle.refusal.specs.Code.{tested_as};
ghost use Rattle.film_words.specs.Words.{words};
ghost use Rattle.film_herald.specs.Herald.{herald_of, band_count, row_length};
ghost use Rattle.film_herald.specs.Refusals.{herald_test, outside};

use film_words::{long, word};
use refusal::{Fault, Refusal};

// Whether x is below `low` or above `high`.
fn is_outside(low: u16, high: u16, x: u16) -> bool
    ensures { result ≡ outside low high x }
{
    !(low..=high).contains(&x)
}

// A line of the table.
#[tactic(auto, unfolding(refusal::specs::Tables::first))]
fn refuse_if(when: bool, fault: Fault, place: usize) -> Result<(), Refusal>
    ensures { tested_as result ≡ first (refuse (number_of fault) place when ∷ []) }
{
    if when {
        return Err(fault.at(place));
    }
    Ok(())
}

// The test of herald, load and page count: the table of the refusals 1 to 4 and of a page count of 0, line by line.
#[tactic(auto, using(crate::proofs::Refusals::line_tests), unfolding(refusal::specs::Tables::first, crate::specs::Refusals::herald_test, crate::specs::Refusals::herald_table, crate::specs::Refusals::length_table, crate::specs::Refusals::password_table, crate::specs::Refusals::size_table, crate::specs::Refusals::load_table, crate::specs::Refusals::page_table, film_words::specs::Load::load_count))]
pub fn test_herald(sheet: &[u8], load: &[u8]) -> Result<(), Refusal>
    ensures { tested_as result ≡ herald_test sheet.now load.now }
{
    let lines = word(sheet, 5);
    let dots = word(sheet, 6);
    let band = word(sheet, 7);
    let bytes = band as usize * row_bytes(dots);
    let count = long(load, 0);
    let claimed = 2 + count as usize;
    refuse_if(sheet.len() % 2 == 1, Fault::Length, 0)?;
    refuse_if(load.len() % 2 == 1, Fault::Length, 0)?;
    refuse_if(sheet.len() > 16777216, Fault::Length, 0)?;
    refuse_if(load.len() > 16777216, Fault::Length, 0)?;
    refuse_if(sheet.len() / 2 < 12, Fault::Password, 0)?;
    refuse_if(word(sheet, 0) != 0xAAAA, Fault::Password, 0)?;
    refuse_if(word(sheet, 1) != 1, Fault::Password, 1)?;
    refuse_if(is_outside(1, 32768, lines), Fault::Size, 5)?;
    refuse_if(is_outside(1, 32768, dots), Fault::Size, 6)?;
    refuse_if(is_outside(1, lines, band), Fault::Size, 7)?;
    refuse_if(word(sheet, 10) < 1, Fault::Size, 10)?;
    refuse_if(bytes > 65536, Fault::Size, 7)?;
    refuse_if(load.len() / 2 < 2, Fault::LoadCount, 8)?;
    refuse_if(claimed != load.len() / 2, Fault::LoadCount, 8)?;
    refuse_if(count > long(sheet, 8), Fault::LoadCount, 8)?;
    refuse_if(word(sheet, 11) == 0, Fault::PageOrBandCount, 11)
}

// The bytes of a row of `width` dots.
pub fn row_bytes(width: u16) -> usize
    ensures { result ≡ row_length width }
{
    2 * (width as usize).div_ceil(16)
}

// How many bands a page has; 0 where the herald's bands have no lines.
#[tactic(auto, using(crate::proofs::Herald::rounded_up), unfolding(crate::specs::Herald::band_count))]
pub fn bands_per_page(sheet: &[u8]) -> usize
    ensures { result ≡ band_count (herald_of (words sheet.now)) }
{
    let lines = word(sheet, 5) as usize;
    let band = word(sheet, 7) as usize;
    if band == 0 {
        return 0;
    }
    lines.div_ceil(band)
}
