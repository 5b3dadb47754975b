// The line reader. It goes over a line twice: first it reads the line, then it writes the row; so a refusal leaves the row as it is.
#![tactic(auto)]

ghost use Rattle.std.specs.Prelude.{◌≡◌, false, ◌*◌, ◌≤◌, length, drop};
ghost use Rattle.gdi_jobs.specs.Lines.{line_from, line_at, row_after, answer_of};
ghost use Rattle.gdi_read.specs.Answers.{line_read_as};
ghost use Rattle.gdi_read.specs.Functions.{written_stretch, Passed};

use gdi_jobs::{LONGEST, WIDEST};
use gdi_parse::{Next, next_at};
use refusal::{Fault, Refusal};
use row::fill;

// The next place after a line, or after the page end that stands where the line would start.
#[derive(Clone, Copy)]
pub enum LineRead {
    Line { offset: usize, left: usize },
    PageEnd { offset: usize, left: usize },
}

// Where `write` says so, gives the dots from `from` up to, not including, `to` the colour of a command.
// A flag: for a closure in its place the contract of `line_pass` would have to tell which calls were made, in which order.
fn put_dots(row: &mut [u8], from: usize, to: usize, black: bool, write: bool)
    ensures { row.new ≡ written_stretch write from to black row.old }
{
    if write {
        fill(row, from, to, black);
    }
}

// Goes over the line at the place (offset, left), and where `write` says so writes its dots, those past the width too.
fn line_pass(
    job: &[u8],
    offset: usize,
    left: usize,
    width: usize,
    row: &mut [u8],
    write: bool,
) -> Result<LineRead, Refusal>
    requires { (offset ≤ length job.now) × (1 ≤ width) × (width ≤ 16383) × (width ≤ 8 * length row.old) }
    ensures { Passed width (line_from width false 0 left 0 offset (drop offset job.now)) write row.old (line_read_as result) row.new }
{
    let mut at = offset;
    let mut rest = left;
    let mut sum = 0;
    let mut started = false;
    // By place: what comes next says how far it goes.
    while at < job.len() {
        match next_at(job, at, rest, false, !started) {
            Ok(Next::ToBlock(size)) => {
                at += 6;
                rest = size;
            }
            Ok(Next::ToEnd) => {
                return Ok(LineRead::PageEnd {
                    offset: at + 6,
                    left: 0,
                });
            }
            Ok(Next::ToCommand { black, dots, bytes }) => {
                put_dots(row, sum, sum + dots, black, write);
                at += bytes;
                rest -= bytes;
                sum += dots;
                started = true;
                if sum >= width {
                    return Ok(LineRead::Line {
                        offset: at,
                        left: rest,
                    });
                }
            }
            Err(r) => return Err(r.fault.at(at + r.place)),
        }
    }
    Err(Fault::JobEnds.at(at))
}

// Reads the line at the place (offset, left) of the job: `left` bytes of a block are left from byte `offset` on. `row` has width / 8 bytes, rounded
// up, and holds the line's dots then; at a page end and after a refusal it is as it was.
pub fn read_line(
    job: &[u8],
    offset: usize,
    left: usize,
    width: usize,
    row: &mut [u8],
) -> Result<LineRead, Refusal>
    ensures result_value { line_read_as result ≡ answer_of (line_at job.now offset left width (length row.old)) }
    ensures row_after { row.new ≡ row_after width (line_at job.now offset left width (length row.old)) row.old }
{
    if !(1..=WIDEST).contains(&width) {
        return Err(Fault::Writing.at(0));
    }
    if row.len() != width.div_ceil(8) {
        return Err(Fault::Writing.at(0));
    }
    if job.len() > LONGEST {
        return Err(Fault::Length.at(0));
    }
    if offset > job.len() {
        return Err(Fault::JobEnds.at(job.len()));
    }
    let read = line_pass(job, offset, left, width, row, false)?;
    let LineRead::Line { .. } = read else {
        return Ok(read);
    };
    line_pass(job, offset, left, width, row, true)?;
    fill(row, width, 8 * row.len(), false);
    Ok(read)
}
