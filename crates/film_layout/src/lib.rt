// The walk over the pages and bands of a sheet, by value; and the way to one page and to one band of it.
#![tactic(auto)]

ghost use Rattle.std.specs.Prelude.{◌≡◌, ◌≤◌, ◌<◌, length, MatchResult};
ghost use Rattle.refusal.specs.declared.Fault.TheVariants.{Cut};
ghost use Rattle.film_words.specs.Words.{words, at};
ghost use Rattle.film_herald.specs.Herald.{herald_of, band_count};
ghost use Rattle.film_layout.specs.Layout.{layout_of, reach_page, reach};
ghost use Rattle.film_layout.specs.Walks.{to_come, Stepped, opened_as, found_as, InSheet};

use film_herald::bands_per_page;
use film_words::word;
use refusal::{Fault, Refusal};

// At place `at` `bands` bands of a page are to come, and then `pages` pages.
#[derive(Clone, Copy, Debug, PartialEq, Eq)]
pub struct Walk {
    pub at: usize,
    pub bands: usize,
    pub pages: usize,
}

// What stands there: a page's count; a band's commands, from place `from` up to, not including, `end`; or the end of the pages. The walk goes on
// after the first two.
#[derive(Clone, Copy, Debug, PartialEq, Eq)]
pub enum Node {
    Page(Walk),
    Band { from: usize, end: usize, next: Walk },
    End(usize),
}

// The walk at the first page.
#[tactic(auto, using(crate::proofs::Walks::walk_first))]
pub fn first_page(sheet: &[u8]) -> Walk
    ensures { to_come sheet.now (band_count (herald_of (words sheet.now))) result ≡ layout_of (words sheet.now) }
{
    let pages = word(sheet, 11) as usize;
    Walk {
        at: 12,
        bands: 0,
        pages,
    }
}

// The count that stands at place p.
#[tactic(auto, using(crate::proofs::Walks::lengths))]
fn count_at(sheet: &[u8], p: usize) -> Result<usize, Refusal>
    ensures { MatchResult
        result
        (λ n. (p < length (words sheet.now)) × (n ≡ at (words sheet.now) p))
        (λ r. (length (words sheet.now) ≤ p) × (r ≡ record { fault = Cut; place = p })) }
{
    if p >= sheet.len() / 2 {
        return Err(Fault::Cut.at(p));
    }
    Ok(word(sheet, p) as usize)
}

// What stands at walk w, where a page has `per_page` bands: the caller's number, so that no test of the herald stands in the walk's loop.
#[tactic(auto, using(crate::proofs::Walks::lengths))]
pub fn next(sheet: &[u8], per_page: usize, w: Walk) -> Result<Node, Refusal>
    ensures { Stepped sheet.now per_page w result }
{
    if w.bands > 0 {
        let count = count_at(sheet, w.at)?;
        let from = w.at + 1;
        if count > sheet.len() / 2 - from {
            return Err(Fault::Cut.at(w.at));
        }
        let end = from + count;
        let next = Walk {
            at: end,
            bands: w.bands - 1,
            ..w
        };
        return Ok(Node::Band { from, end, next });
    }
    if w.pages == 0 {
        return Ok(Node::End(w.at));
    }
    if count_at(sheet, w.at)? != per_page {
        return Err(Fault::PageOrBandCount.at(w.at));
    }
    Ok(Node::Page(Walk {
        at: w.at + 1,
        bands: per_page,
        pages: w.pages - 1,
    }))
}

// The walk after the count of page `page`. Of the nodes pages alone are counted, so the loop is over no range.
#[tactic(auto, unfolding(crate::specs::Layout::reach_page))]
pub fn find_page(sheet: &[u8], page: usize) -> Result<Walk, Refusal>
    ensures { opened_as sheet.now result ≡ reach_page page (layout_of (words sheet.now)) }
{
    let per_page = bands_per_page(sheet);
    let mut left = page;
    let mut w = first_page(sheet);
    loop {
        w = match next(sheet, per_page, w)? {
            Node::Page(v) if left == 0 => return Ok(v),
            Node::Page(v) => {
                left -= 1;
                v
            }
            Node::Band { next: v, .. } => v,
            Node::End(_) => return Err(Fault::NoBand.at(0)),
        };
    }
}

// Band `band` of those that are to come at walk w before the next page: the places of its first command and of what comes after its last. It is not
// one function with `find_page`, which goes past the bands where this one stops at a page: the closures that say so would be longer than the loop.
// No range either: the loop ends at a node that is no band, and over 0..band the step would be written twice, in the loop and after it.
#[tactic(auto, unfolding(crate::specs::Layout::reach))]
pub fn find_band(sheet: &[u8], w: Walk, band: usize) -> Result<(usize, usize), Refusal>
    ensures result_value { found_as sheet.now result ≡ reach band (to_come sheet.now (band_count (herald_of (words sheet.now))) w) }
    ensures in_sheet { InSheet sheet.now result }
{
    let per_page = bands_per_page(sheet);
    let mut left = band;
    let mut v = w;
    while let Node::Band {
        from,
        end,
        next: after,
    } = next(sheet, per_page, v)?
    {
        if left == 0 {
            return Ok((from, end));
        }
        left -= 1;
        v = after;
    }
    Err(Fault::NoBand.at(0))
}
