// The job check: a walk over the job, a step at a time.
#![tactic(auto)]

ghost use Rattle.std.specs.Prelude.{◌≡◌, ◌+◌, ◌<◌, ◌≤◌, length, drop};
ghost use Rattle.gdi_jobs.specs.Jobs.{between, in_page, with_sum, step, walk, job_answer, longest};
ghost use Rattle.gdi_check.specs.Answers.{checked_as, state_of, step_of};
ghost use Rattle.gdi_check.specs.Functions.{Bounded};

use gdi_jobs::{HEAD, LONGEST};
use gdi_parse::{Group, Next, group_at, next_at};
use refusal::{Fault, Refusal};

// In a page: the pages before it, its width and height, its whole lines, the sum of the commands of the next, the bytes left of the block.
#[derive(Clone, Copy)]
struct Page {
    pages: usize,
    width: usize,
    height: usize,
    lines: usize,
    sum: usize,
    left: usize,
}

// Where the walk stands.
#[derive(Clone, Copy)]
enum State {
    Between(usize),
    InPage(Page),
}

// On to a state, past so many bytes; or the number of pages.
#[derive(Clone, Copy)]
enum Step {
    Onward(State, usize),
    Done(usize),
}

// A step between pages. The place of a refusal is counted from `at`.
#[tactic(auto, unfolding(gdi_jobs::specs::Jobs::step))]
fn step_between(job: &[u8], at: usize, pages: usize) -> Result<Step, Refusal>
    ensures { step_of result ≡ step (between pages) (drop at job.now) }
{
    let n = job.len().saturating_sub(at);
    match group_at(job, at) {
        Group::Cut => Err(Fault::JobEnds.at(n)),
        Group::PageHead(width, height) => {
            let page = Page {
                pages,
                width,
                height,
                lines: 0,
                sum: 0,
                left: 0,
            };
            Ok(Step::Onward(State::InPage(page), 21))
        }
        Group::WrongPageHead => Err(Fault::PageHead.at(0)),
        Group::DocumentEnd if n > 6 => Err(Fault::BytesAfter.at(6)),
        Group::DocumentEnd => Ok(Step::Done(pages)),
        _ => Err(Fault::UnexpectedGroup.at(0)),
    }
}

// The page after a command of so many dots, with so many bytes left of the block. A line is whole where the sum reaches the width. This and the two steps
// below are inlined: their answers are large, and they are made for each command.
#[inline(always)]
fn after_command(page: Page, dots: usize, left: usize) -> Page
    requires { (page.sum < page.width) × (page.width ≤ 16383) × (dots ≤ 16383) × (page.lines < 65535) }
    ensures { state_of (State.InPage result) ≡ with_sum page.pages page.width page.height page.lines (page.sum + dots) left }
{
    let sum = page.sum + dots;
    let (lines, sum) = if sum < page.width {
        (page.lines, sum)
    } else {
        (page.lines + 1, 0)
    };
    Page {
        lines,
        sum,
        left,
        ..page
    }
}

// A step in a page. The place of a refusal is counted from `at`.
#[tactic(auto, unfolding(gdi_jobs::specs::Jobs::step))]
#[inline(always)]
fn step_in_page(job: &[u8], at: usize, page: Page) -> Result<Step, Refusal>
    requires { Bounded (state_of (State.InPage page)) at × (at ≤ longest) }
    ensures { step_of result ≡ step (state_of (State.InPage page)) (drop at job.now) }
{
    let full = page.lines == page.height;
    match next_at(job, at, page.left, full, full)? {
        Next::ToBlock(size) => {
            let page = Page { left: size, ..page };
            Ok(Step::Onward(State::InPage(page), 6))
        }
        Next::ToEnd => Ok(Step::Onward(State::Between(page.pages + 1), 6)),
        Next::ToCommand { dots, bytes, .. } => {
            let page = after_command(page, dots, page.left - bytes);
            Ok(Step::Onward(State::InPage(page), bytes))
        }
    }
}

// A step at place `at`. The place of a refusal is counted from there.
#[tactic(auto, unfolding(gdi_jobs::specs::Jobs::step))]
#[inline(always)]
fn step_at(job: &[u8], at: usize, state: State) -> Result<Step, Refusal>
    requires { Bounded (state_of state) at × (at ≤ longest) }
    ensures { step_of result ≡ step (state_of state) (drop at job.now) }
{
    match state {
        State::Between(pages) => step_between(job, at, pages),
        State::InPage(page) => step_in_page(job, at, page),
    }
}

// The walk over what comes after the head.
fn walk_pages(job: &[u8]) -> Result<usize, Refusal>
    requires { (86 ≤ length job.now) × (length job.now ≤ longest) }
    ensures { checked_as result ≡ walk (between 0) 0 86 (drop 86 job.now) }
{
    let mut at = HEAD.len();
    let mut state = State::Between(0);
    // By place: each step says how far it goes.
    while at < job.len() {
        match step_at(job, at, state) {
            Ok(Step::Onward(next, n)) => {
                state = next;
                at += n;
            }
            Ok(Step::Done(pages)) => return Ok(pages),
            Err(r) => return Err(r.fault.at(at + r.place)),
        }
    }
    Err(Fault::JobEnds.at(at))
}

// The check of a job: the first refusal, or how many pages there are.
#[tactic(auto, using(crate::proofs::Ends::long_refused))]
pub fn check_job(job: &[u8]) -> Result<usize, Refusal>
    ensures { checked_as result ≡ job_answer job.now }
{
    if job.len() > LONGEST {
        return Err(Fault::Length.at(0));
    }
    if let Some(i) = HEAD.iter().zip(job).position(|(want, byte)| byte != want) {
        return Err(Fault::JobHead.at(i));
    }
    if job.len() < HEAD.len() {
        return Err(Fault::JobEnds.at(job.len()));
    }
    walk_pages(job)
}
