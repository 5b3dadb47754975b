// Runs the functions for GDI jobs on the cases of the standard input, at most 65,536 bytes, and prints a line for each. A case is a line of
// fields, split by one blank: a name, which is printed back, a kind, and what that kind takes. What is printed after the name:
//
//     NAME job JOB                            pages N
//     NAME line JOB OFFSET LEFT WIDTH ROW     line OFFSET LEFT ROW, or pageend OFFSET LEFT ROW
//     NAME row WIDTH ROW OUTPUT               written N OUTPUT
//     NAME pagehead TRAY WIDTH HEIGHT FORMAT PAPER COPIES TONER OUTPUT     the same, as for the three below
//     NAME head OUTPUT    NAME pageend OUTPUT    NAME documentend OUTPUT
//     NAME linefill WIDTH                     linefill and four digits
//     NAME papers                             a line for each paper
//     NAME jobback WIDTH HEIGHT ROWS          pages N; a line for each row; pageend OFFSET LEFT
//
// A refusal is printed as `refused 24 at 86`, and then the ROW or OUTPUT, as it is afterwards. `jobback` writes a job of one page with these rows,
// checks it and reads it back. A line of another form prints `bad line`, an empty one nothing; an input that is longer prints `input too long` alone.
//
// Numbers are decimal. Bytes are pairs of hexadecimal digits in small letters, `-` for none; they are printed in capitals. Among the pairs may stand:
// `H`, the head of a job; `P` with four digits of width and four of height, a page head; `B` with four digits of size, the head of a block; `E`, a
// page end; `D`, a document end; `X` with four digits of a count and two of a byte, that byte so many times.
//
// What it must print for the file stdin beside src/ is in the file stdout there.
#![tactic(auto)]

mod parse;
mod print;

use gdi_check::check_job;
use gdi_read::{LineRead, read_line};
use gdi_rows::write_row;
use gdi_write::{PageHead, Paper, write_document_end, write_head, write_page_end, write_page_head};
use parse::{bytes, number};
use print::{Answer, print_answer, print_bad_line, print_digits, print_name, print_next};
use reading::read_full;
use refusal::Refusal;
use std::io;

// The most bytes of the input.
const INPUT: usize = 65536;

// Room for one byte more.
const TEXT: usize = 65537;

// The most bytes of a job, a row or an output.
const SPACE: usize = 32768;

// The most fields of a line.
const FIELDS: usize = 10;

// The bytes before the first line of a job of one page: the job's head and the page's.
const FIRST_LINE: usize = 107;

// What a case answers, and how many bytes of its second buffer are printed after that.
#[derive(Clone, Copy)]
struct Outcome {
    answer: Result<Answer, Refusal>,
    shown: Option<usize>,
}

fn answered(answer: Result<Answer, Refusal>) -> Option<Outcome> {
    Some(Outcome {
        answer,
        shown: None,
    })
}

fn shown(answer: Result<Answer, Refusal>, output: &[u8]) -> Option<Outcome> {
    Some(Outcome {
        answer,
        shown: Some(output.len()),
    })
}

// Runs a case with a single answer.
fn run(fields: &[&[u8]], first: &mut [u8], second: &mut [u8]) -> Option<Outcome> {
    match fields {
        [_, b"job", job] => answered(check_job(bytes(job, first)?).map(Answer::Pages)),
        [_, b"line", job, offset, left, width, row] => {
            let job = bytes(job, first)?;
            let row = bytes(row, second)?;
            let answer = read_line(job, number(offset)?, number(left)?, number(width)?, row);
            shown(answer.map(Answer::Read), row)
        }
        [_, b"row", width, row, output] => {
            let row = bytes(row, first)?;
            let output = bytes(output, second)?;
            shown(
                write_row(number(width)?, row, output).map(Answer::Written),
                output,
            )
        }
        [
            _,
            b"pagehead",
            tray,
            width,
            height,
            format,
            paper_type,
            copies,
            toner,
            output,
        ] => {
            let head = PageHead {
                tray: number(tray)?,
                width: number(width)?,
                height: number(height)?,
                format: number(format)?,
                paper_type: number(paper_type)?,
                copies: number(copies)?,
                toner: number(toner)?,
            };
            let output = bytes(output, second)?;
            shown(write_page_head(head, output).map(Answer::Written), output)
        }
        [_, b"head", output] => {
            let output = bytes(output, second)?;
            shown(write_head(output).map(Answer::Written), output)
        }
        [_, b"pageend", output] => {
            let output = bytes(output, second)?;
            shown(write_page_end(output).map(Answer::Written), output)
        }
        [_, b"documentend", output] => {
            let output = bytes(output, second)?;
            shown(write_document_end(output).map(Answer::Written), output)
        }
        [_, b"linefill", width] => {
            let paper = Paper {
                width: number(width)?,
                height: 1,
                index: 0,
            };
            answered(paper.linefill().map(Answer::Linefill))
        }
        _ => None,
    }
}

fn print_outcome(rt: &impl Print, outcome: Outcome, second: &[u8]) -> io::Result<()> {
    print_answer(rt, outcome.answer)?;
    match outcome.shown.and_then(|n| second.get(..n)) {
        Some(output) => {
            print!(rt; " ")?;
            print_digits(rt, output)
        }
        None => Ok(()),
    }
}

fn print_paper(rt: &impl Print, name: &str, paper: Paper) -> io::Result<()> {
    let Paper {
        width,
        height,
        index,
    } = paper;
    print!(rt; "{name} {width} x {height} index {index} ")?;
    print_answer(rt, paper.linefill().map(Answer::Linefill))
}

fn print_papers(rt: &impl Print, case: &[u8]) -> io::Result<()> {
    print_paper(rt, "A4", Paper::A4)?;
    print_next(rt, case)?;
    print_paper(rt, "A5", Paper::A5)?;
    print_next(rt, case)?;
    print_paper(rt, "Letter", Paper::LETTER)?;
    print_next(rt, case)?;
    print_paper(rt, "Monarch", Paper::MONARCH)
}

// A page of a job that is written and read back: its rows stand end to end.
#[derive(Clone, Copy)]
struct Page<'a> {
    width: u16,
    height: u16,
    rows: &'a [u8],
}

impl Page<'_> {
    fn row_bytes(&self) -> usize {
        usize::from(self.width).div_ceil(8)
    }
}

// None where the bytes are not so many rows.
fn read_page<'a>(
    width: &[u8],
    height: &[u8],
    rows: &[u8],
    buffer: &'a mut [u8],
) -> Option<Page<'a>> {
    let page = Page {
        width: number(width)?,
        height: number(height)?,
        rows: bytes(rows, buffer)?,
    };
    if page.rows.len() == page.row_bytes().saturating_mul(usize::from(page.height)) {
        Some(page)
    } else {
        None
    }
}

// Writes behind the first `at` bytes of the job, and answers how many are written then. `min`: no clause of
// the closure says that its answer is within its output.
fn then<F: FnOnce(&mut [u8]) -> Result<usize, Refusal>>(
    job: &mut [u8],
    at: usize,
    write: F,
) -> Result<usize, Refusal>
    requires { F.IsAlwaysCallable write }
{
    let at = at.min(job.len());
    let n = write(&mut job[at..])?;
    Ok(at.saturating_add(n))
}

// Writes a job of the page alone, and answers how many bytes it has.
fn write_job(page: &Page, job: &mut [u8]) -> Result<usize, Refusal> {
    let width = usize::from(page.width);
    let head = PageHead {
        tray: 0,
        width: page.width,
        height: page.height,
        format: 0,
        paper_type: 0,
        copies: 1,
        toner: 0,
    };
    let mut at = write_head(job)?;
    at = then(job, at, |out| write_page_head(head, out))?;
    let row_bytes = page.row_bytes();
    if row_bytes > 0 {
        for row in page.rows.chunks_exact(row_bytes) {
            at = then(job, at, |out| write_row(width, row, out))?;
        }
    }
    at = then(job, at, write_page_end)?;
    then(job, at, write_document_end)
}

// Reads the lines of the first page and prints them, until something else than a line is read. A line takes a byte at least.
fn read_rows(
    rt: &impl Print,
    case: &[u8],
    width: usize,
    job: &[u8],
    row: &mut [u8],
) -> io::Result<()> {
    let mut offset = FIRST_LINE;
    let mut left = 0;
    for _ in 0..job.len() {
        print_next(rt, case)?;
        match read_line(job, offset, left, width, row) {
            Ok(
                LineRead::Line {
                    offset: next,
                    left: rest,
                },
            ) => {
                print!(rt; "row ")?;
                print_digits(rt, row)?;
                offset = next;
                left = rest;
            }
            other => return print_answer(rt, other.map(Answer::Read)),
        }
    }
    Ok(())
}

// Checks the job and reads its rows.
fn read_job(rt: &impl Print, case: &[u8], width: u16, job: &[u8]) -> io::Result<()> {
    let checked = check_job(job);
    print_answer(rt, checked.map(Answer::Pages))?;
    if checked.is_ok() {
        let width = usize::from(width);
        let mut row = [0u8; SPACE];
        read_rows(rt, case, width, job, &mut row[..width.div_ceil(8)])?;
    }
    Ok(())
}

fn write_and_read(rt: &impl Print, case: &[u8], page: &Page) -> io::Result<()> {
    let mut job = [0u8; SPACE];
    match write_job(page, &mut job) {
        Ok(n) => read_job(rt, case, page.width, &job[..n.min(SPACE)]),
        Err(refusal) => print!(rt; "{refusal}"),
    }
}

fn run_case(rt: &impl Print, fields: &[&[u8]]) -> io::Result<()> {
    let mut first = [0u8; SPACE];
    let mut second = [0u8; SPACE];
    match fields {
        [case, b"papers"] => print_papers(rt, case),
        [case, b"jobback", width, height, rows] => match read_page(
            width, height, rows, &mut first,
        ) {
            Some(page) => write_and_read(rt, case, &page),
            None => print_bad_line(rt),
        },
        _ => match run(fields, &mut first, &mut second) {
            Some(outcome) => print_outcome(rt, outcome, &second),
            None => print_bad_line(rt),
        },
    }
}

// Runs a line that begins with a name.
fn run_fields(rt: &impl Print, line: &[u8]) -> io::Result<()> {
    let mut fields: [&[u8]; FIELDS] = [b""; FIELDS];
    // An index: a reference is not stored in an array behind iter_mut.
    for (i, field) in line.split(|b| *b == b' ').enumerate() {
        if i < FIELDS {
            fields[i] = field;
        }
    }
    print_name(rt, fields[0])?;
    match fields.get(..line.split(|b| *b == b' ').count()) {
        Some(fields) => run_case(rt, fields),
        None => print_bad_line(rt),
    }
}

fn run_line(rt: &impl Print, line: &[u8]) -> io::Result<()> {
    if line.is_empty() {
        return Ok(());
    }
    if line.starts_with(b" ") {
        print_bad_line(rt)?;
    } else {
        run_fields(rt, line)?;
    }
    println!(rt; "")
}

fn run_lines(rt: &impl Print, text: &[u8]) -> io::Result<()> {
    for line in text.split(|b| *b == b'\n') {
        run_line(rt, line)?;
    }
    Ok(())
}

fn main(rt: HostRuntime) -> io::Result<()> {
    let mut text = [0u8; TEXT];
    let n = read_full(&mut rt.stdin(), &mut text)?;
    if n > INPUT {
        return println!(rt; "input too long");
    }
    run_lines(&rt, &text[..n])
}
