// The library for programs in C and Rust: host/include/printbox.h declares it. Each entry point of films and jobs gives its answer as three numbers: kind,
// a and b. Kind 0: done, with values that the entry point names; kind 1: refused, a is the number and b the place; kind 2: page end, a and b are the next
// place. Those of the strip printer go by a record and an answer of numbers.
#![tactic(auto)]

ghost use Rattle.std.specs.Prelude.{◌≡◌, length};
ghost use Rattle.film_check.specs.Check.{check_answer};
ghost use Rattle.film_drawing.specs.Draw.{draw_answer, buffer_after};
ghost use Rattle.film_drawing.specs.Promise as draw;
ghost use Rattle.gdi_jobs.specs.Jobs.{job_answer};
ghost use Rattle.gdi_jobs.specs.Lines as lines;
ghost use Rattle.gdi_jobs.specs.Writers.{head_writing, page_end_writing, document_end_writing, page_head_writing, row_writing, answer_of, output_after};
ghost use Rattle.gdi_write.specs.Paper.{fill_answer};
ghost use Rattle.gdi_write.specs.Answers as write;
ghost use Rattle.printbox_answers.specs.Numbers.{of_check, of_draw, of_job, of_line, of_writing, of_fill};
ghost use Rattle.strip.specs.Step.{new_record};
ghost use Rattle.strip_numbers.specs.Numbers.{record_of, record_with_status, NumberSteps};

use gdi_jobs::WIDEST;
use gdi_write::{PageHead, Paper};
use printbox_answers::numbers;
use refusal::{Fault, Refusal};
use strip_numbers::{StripAnswer, StripRecord};

// Checks a sheet with its load. Done: pages, 0.
#[tactic(auto, using(printbox_answers::proofs::Laws::sheet_numbers))]
#[unsafe(no_mangle)]
pub extern "C" fn film_check(sheet: &[u8], load: &[u8], answer: &mut [u64; 3])
    ensures { answer.new ≡ of_check (check_answer sheet.now load.now) }
{
    *answer = numbers(film_check::check(sheet, load));
}

// Draws band `band` of page `page` into the buffer, as film_draw::draw. Done: rows, dots.
#[tactic(auto, using(printbox_answers::proofs::Laws::draw_numbers))]
#[unsafe(no_mangle)]
pub extern "C" fn film_draw<'a>(
    sheet: &'a [u8],
    load: &'a [u8],
    page: usize,
    band: usize,
    buffer: &mut [u8],
    answer: &mut [u64; 3],
)
    ensures answer_after { answer.new ≡ of_draw (draw.due (draw_answer sheet.now load.now page band (length buffer.old))) }
    ensures buffer_after { buffer.new ≡ buffer_after (draw_answer sheet.now load.now page band (length buffer.old)) buffer.old }
{
    *answer = numbers(film_draw::draw(sheet, load, page, band, buffer));
}

// Checks a job. Done: pages, 0.
#[tactic(auto, using(printbox_answers::proofs::Laws::job_numbers))]
#[unsafe(no_mangle)]
pub extern "C" fn gdi_check(job: &[u8], answer: &mut [u64; 3])
    ensures { answer.new ≡ of_job (job_answer job.now) }
{
    *answer = numbers(gdi_check::check_job(job));
}

// Reads the line at the place (offset, left) into the row, as gdi_read::read_line. Done: the next place.
#[tactic(auto, using(printbox_answers::proofs::Laws::line_numbers))]
#[unsafe(no_mangle)]
pub extern "C" fn gdi_read_line(
    job: &[u8],
    offset: usize,
    left: usize,
    width: usize,
    row: &mut [u8],
    answer: &mut [u64; 3],
)
    ensures answer_after { answer.new ≡ of_line (lines.answer_of (lines.line_at job.now offset left width (length row.old))) }
    ensures row_after { row.new ≡ lines.row_after width (lines.line_at job.now offset left width (length row.old)) row.old }
{
    *answer = numbers(gdi_read::read_line(job, offset, left, width, row));
}

// Writes the head of a job. Done: bytes written, 0.
#[tactic(auto, using(printbox_answers::proofs::Laws::writing_numbers))]
#[unsafe(no_mangle)]
pub extern "C" fn gdi_write_head(output: &mut [u8], answer: &mut [u64; 3])
    ensures answer_after { answer.new ≡ of_writing (answer_of (head_writing (length output.old))) }
    ensures output_after { output.new ≡ output_after (head_writing (length output.old)) output.old }
{
    *answer = numbers(gdi_write::write_head(output));
}

// Writes the end of a page. Done: bytes written, 0.
#[tactic(auto, using(printbox_answers::proofs::Laws::writing_numbers))]
#[unsafe(no_mangle)]
pub extern "C" fn gdi_write_page_end(output: &mut [u8], answer: &mut [u64; 3])
    ensures answer_after { answer.new ≡ of_writing (answer_of (page_end_writing (length output.old))) }
    ensures output_after { output.new ≡ output_after (page_end_writing (length output.old)) output.old }
{
    *answer = numbers(gdi_write::write_page_end(output));
}

// Writes the end of a document. Done: bytes written, 0.
#[tactic(auto, using(printbox_answers::proofs::Laws::writing_numbers))]
#[unsafe(no_mangle)]
pub extern "C" fn gdi_write_document_end(output: &mut [u8], answer: &mut [u64; 3])
    ensures answer_after { answer.new ≡ of_writing (answer_of (document_end_writing (length output.old))) }
    ensures output_after { output.new ≡ output_after (document_end_writing (length output.old)) output.old }
{
    *answer = numbers(gdi_write::write_document_end(output));
}

// Writes the head of a page. Done: bytes written, 0.
#[tactic(auto, using(printbox_answers::proofs::Laws::writing_numbers))]
#[unsafe(no_mangle)]
pub extern "C" fn gdi_write_page_head(
    tray: u32,
    width: u16,
    height: u16,
    format: u8,
    paper_type: u8,
    copies: u8,
    toner: u8,
    output: &mut [u8],
    answer: &mut [u64; 3],
)
    ensures answer_after { answer.new ≡ of_writing (answer_of (page_head_writing
        (record { tray = tray; width = width; height = height; format = format; paper_type = paper_type; copies = copies; toner = toner })
        (length output.old))) }
    ensures output_after { output.new ≡ output_after (page_head_writing
        (record { tray = tray; width = width; height = height; format = format; paper_type = paper_type; copies = copies; toner = toner })
        (length output.old)) output.old }
{
    let head = PageHead {
        tray,
        width,
        height,
        format,
        paper_type,
        copies,
        toner,
    };
    *answer = numbers(gdi_write::write_page_head(head, output));
}

// Writes a row as a line, as gdi_rows::write_row. Done: bytes written, 0.
#[tactic(auto, using(printbox_answers::proofs::Laws::writing_numbers))]
#[unsafe(no_mangle)]
pub extern "C" fn gdi_write_row(width: usize, row: &[u8], output: &mut [u8], answer: &mut [u64; 3])
    ensures answer_after { answer.new ≡ of_writing (answer_of (row_writing width row.now (length output.old))) }
    ensures output_after { output.new ≡ output_after (row_writing width row.now (length output.old)) output.old }
{
    *answer = numbers(gdi_rows::write_row(width, row, output));
}

// The linefill of paper of that width; its height and number do not matter.
#[tactic(auto, using(crate::proofs::Widths::too_wide))]
fn linefill(width: usize) -> Result<u16, Refusal>
    ensures { write.filled_as result ≡ fill_answer width }
{
    if width > WIDEST {
        return Err(Fault::Writing.at(0));
    }
    let paper = Paper {
        width: width as u16,
        height: 0,
        index: 0,
    };
    paper.linefill()
}

// The command of a white line. Done: the linefill, 0.
#[tactic(auto, using(printbox_answers::proofs::Laws::fill_numbers))]
#[unsafe(no_mangle)]
pub extern "C" fn gdi_linefill(width: usize, answer: &mut [u64; 3])
    ensures { answer.new ≡ of_fill (fill_answer width) }
{
    *answer = numbers(linefill(width));
}

// A receiver's record before the first byte.
#[unsafe(no_mangle)]
pub extern "C" fn strip_new() -> StripRecord
    ensures { result ≡ record_of new_record }
{
    strip_numbers::new_record()
}

// One byte to a receiver, as strip_numbers::step_record; the record that is lent is taken apart, and stored back.
#[unsafe(no_mangle)]
pub extern "C" fn strip_receive(
    record: &mut StripRecord,
    byte: u8,
    bands: &mut [u8],
    dots: &mut [u8],
) -> StripAnswer
    ensures { NumberSteps «record».old byte bands.old dots.old «record».new result bands.new dots.new }
{
    let s = strip_numbers::step_record(*record, byte, bands, dots);
    *record = s.rec;
    s.answer
}

// The status that the host sets; all else stays.
#[unsafe(no_mangle)]
pub extern "C" fn strip_set_status(record: &mut StripRecord, status: u8)
    ensures { «record».new ≡ record_with_status status «record».old }
{
    record.status = status;
}
