// What stands in a GDI job at a place: a group of bytes, or a command of a line.
#![tactic(auto)]

ghost use Rattle.std.specs.Prelude.{◌≡◌, true, map, ◌+◌, ◌≤◌, ◌<◌, length, drop};
ghost use Rattle.gdi_jobs.specs.Commands.{command};
ghost use Rattle.gdi_jobs.specs.Groups.{fits, number_at, fields, page_head_in, group};
ghost use Rattle.gdi_jobs.specs.Pages.{in_gap, of_command, next};
ghost use Rattle.gdi_parse.specs.Answers.{group_of, next_of};
ghost use Rattle.gdi_parse.specs.Forms.{byte_of, all_bytes};

use gdi_jobs::WIDEST;
use refusal::{Fault, Refusal};

// What stands where a group may stand.
#[derive(Clone, Copy)]
pub enum Group {
    Cut,
    PageHead(usize, usize),
    WrongPageHead,
    Block(usize),
    PageEnd,
    DocumentEnd,
    Unknown,
}

// What comes next in a page.
#[derive(Clone, Copy)]
pub enum Next {
    ToBlock(usize),
    ToEnd,
    ToCommand {
        black: bool,
        dots: usize,
        bytes: usize,
    },
}

// In a form, any byte.
const ANY: Option<u8> = None;

const PAGE_START: [Option<u8>; 2] = [Some(0x11), Some(0)];

const PAGE_FORM: [Option<u8>; 21] = [
    Some(0x11),
    Some(0),
    Some(0x0F),
    Some(0),
    ANY,
    ANY,
    ANY,
    ANY,
    Some(4),
    Some(4),
    Some(0),
    Some(0),
    ANY,
    ANY,
    ANY,
    ANY,
    ANY,
    ANY,
    ANY,
    Some(0),
    ANY,
];

const BLOCK_FORM: [Option<u8>; 6] = [Some(0x12), Some(0), ANY, ANY, Some(0), Some(0)];

const PAGE_END: [Option<u8>; 6] = [Some(0x13), Some(0), Some(0), Some(0), Some(0), Some(0)];

const DOCUMENT_END: [Option<u8>; 6] = [Some(0x14), Some(0), Some(0), Some(0), Some(0), Some(0)];

// The bytes of the job from place `at` on; none past its end.
#[inline(always)]
fn rest(job: &[u8], at: usize) -> &[u8]
    ensures { result.now ≡ drop at job.now }
{
    job.get(at..).unwrap_or(&[])
}

// Whether the bytes begin as the form says.
fn begins(bytes: &[u8], form: &[Option<u8>]) -> bool
    requires { all_bytes form.now ≡ true }
    ensures { result ≡ fits (map byte_of form.now) bytes.now }
{
    form.len() <= bytes.len()
        && form
            .iter()
            .zip(bytes)
            .all(|(want, byte)| want.is_none_or(|w| *byte == w))
}

// The number in two bytes, low byte first.
fn number_at(bytes: &[u8], i: usize) -> usize
    requires { i + 1 < length bytes.now }
    ensures { result ≡ number_at bytes.now i }
{
    usize::from(u16::from_le_bytes([bytes[i], bytes[i + 1]]))
}

// Whether a page head may hold these numbers.
#[tactic(auto, unfolding(gdi_jobs::specs::Groups::fields, gdi_jobs::specs::Groups::admitted))]
pub fn may_hold(width: usize, height: usize, toner: u8) -> bool
    ensures { result ≡ fields width height toner }
{
    (1..=WIDEST).contains(&width) && (1..=65535).contains(&height) && toner <= 1
}

// The page head that the bytes begin with, all of whose bytes are there.
fn page_head_in(bytes: &[u8]) -> Group
    requires { 21 ≤ length bytes.now }
    ensures { group_of result ≡ page_head_in bytes.now }
{
    if !begins(bytes, &PAGE_FORM) {
        return Group::WrongPageHead;
    }
    let width = number_at(bytes, 12);
    let height = number_at(bytes, 14);
    if !may_hold(width, height, bytes[20]) {
        return Group::WrongPageHead;
    }
    Group::PageHead(width, height)
}

// The group that the bytes begin with.
#[tactic(auto, unfolding(gdi_jobs::specs::Groups::group))]
fn group_in(bytes: &[u8]) -> Group
    ensures { group_of result ≡ group bytes.now }
{
    if bytes.len() < 6 {
        return Group::Cut;
    }
    if begins(bytes, &PAGE_START) {
        if bytes.len() < 21 {
            return Group::Cut;
        }
        return page_head_in(bytes);
    }
    if begins(bytes, &BLOCK_FORM) {
        return Group::Block(number_at(bytes, 2));
    }
    if begins(bytes, &PAGE_END) {
        return Group::PageEnd;
    }
    if begins(bytes, &DOCUMENT_END) {
        return Group::DocumentEnd;
    }
    Group::Unknown
}

// The group at place `at`. Past the job's end there are no bytes, and it is cut.
pub fn group_at(job: &[u8], at: usize) -> Group
    ensures { group_of result ≡ group (drop at job.now) }
{
    group_in(rest(job, at))
}

// What comes next where no byte of a block is left.
fn next_group(bytes: &[u8], may_end: bool) -> Result<Next, Refusal>
    ensures { next_of result ≡ in_gap may_end (length bytes.now) (group bytes.now) }
{
    match group_in(bytes) {
        Group::Cut => Err(Fault::JobEnds.at(bytes.len())),
        Group::Block(size) => Ok(Next::ToBlock(size)),
        Group::PageEnd if may_end => Ok(Next::ToEnd),
        Group::PageEnd => Err(Fault::PageLines.at(0)),
        _ => Err(Fault::UnexpectedGroup.at(0)),
    }
}

// The command whose first byte this is, where its block has `left` bytes from there on and the job the bytes `after` after it.
#[tactic(auto, unfolding(gdi_jobs::specs::Commands::command))]
#[inline(always)]
fn next_command(first: u8, after: &[u8], left: usize) -> Result<Next, Refusal>
    ensures { next_of result ≡ of_command (command left first after.now) }
{
    let black = first / 64 % 2 == 1;
    let low = usize::from(first % 64);
    if first < 128 {
        return Ok(Next::ToCommand {
            black,
            dots: low,
            bytes: 1,
        });
    }
    if left <= 1 {
        return Err(Fault::JobEnds.at(0));
    }
    let Some(second) = after.first() else {
        return Err(Fault::JobEnds.at(1));
    };
    Ok(Next::ToCommand {
        black,
        dots: low + 64 * usize::from(*second),
        bytes: 2,
    })
}

// What comes next at place `at` of a page, where its block has `left` bytes from there on. `full`: the page has all its lines. `may_end`: it may
// end here. The place of a refusal is counted from `at`. Inlined: it is called for each command, and its answer is large.
#[inline(always)]
#[tactic(auto, using(std::proofs::lemmas::List::drop_more), unfolding(gdi_jobs::specs::Pages::next))]
pub fn next_at(
    job: &[u8],
    at: usize,
    left: usize,
    full: bool,
    may_end: bool,
) -> Result<Next, Refusal>
    ensures { next_of result ≡ next full may_end left (drop at job.now) }
{
    if left == 0 {
        return next_group(rest(job, at), may_end);
    }
    let Some(first) = job.get(at) else {
        return Err(Fault::JobEnds.at(0));
    };
    if full {
        return Err(Fault::PageLines.at(0));
    }
    next_command(*first, rest(job, at + 1), left)
}
