// Sheets: the check, which tests herald and load, and then walks over pages, bands and commands.
#![tactic(auto)]

ghost use Rattle.std.specs.Prelude.{◌≡◌};
ghost use Rattle.film_words.specs.Words.{words};
ghost use Rattle.film_words.specs.Load.{load_words};
ghost use Rattle.film_herald.specs.Herald.{page_count};
ghost use Rattle.film_layout.specs.Layout.{layout_of};
ghost use Rattle.film_check.specs.Check.{check_layout};
ghost use Rattle.film_check.specs.Promise.{checked_as, CheckPromised};

use film_cursor::test_band;
use film_herald::{bands_per_page, test_herald};
use film_layout::{Node, first_page, next};
use film_words::word;
use refusal::{Fault, Refusal};

// The walk over pages and bands, with each band's commands.
#[tactic(auto, unfolding(crate::specs::Check::check_layout))]
fn check_pages(sheet: &[u8], load: &[u8]) -> Result<usize, Refusal>
    ensures { checked_as result ≡ check_layout (load_words load.now) (page_count (words sheet.now)) (layout_of (words sheet.now)) }
{
    let per_page = bands_per_page(sheet);
    let mut w = first_page(sheet);
    loop {
        w = match next(sheet, per_page, w)? {
            Node::Page(v) => v,
            Node::Band { from, end, next: v } => {
                test_band(sheet, load, from, end)?;
                v
            }
            Node::End(p) if p < sheet.len() / 2 => return Err(Fault::WordsAfter.at(p)),
            Node::End(_) => return Ok(word(sheet, 11) as usize),
        };
    }
}

// The check of a sheet with its load: the first refusal, or how many pages there are. They stay two slices, as in the promise: a struct of the two
// would be made here and opened again in every function that looks at one of them.
#[tactic(auto, unfolding(crate::specs::Check::check_answer))]
pub fn check(sheet: &[u8], load: &[u8]) -> Result<usize, Refusal>
    ensures { CheckPromised sheet.now load.now result }
{
    test_herald(sheet, load)?;
    check_pages(sheet, load)
}
