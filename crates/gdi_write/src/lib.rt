// Writers of Sagem GDI jobs: heads and ends; and paper. The writer of rows is in gdi_rows. Each puts its bytes at the beginning of the output that the
// caller lends, and answers how many they are; the bytes of the output beyond them stay. A refusal has place 0, and then the output stays whole.
#![tactic(auto)]

ghost use Rattle.std.specs.Prelude.{◌≡◌, length};
ghost use Rattle.gdi_jobs.specs.Writers.{in_room, head_writing, page_end_writing, document_end_writing, page_head_writing, answer_of, output_after};
ghost use Rattle.gdi_write.specs.Paper.{a4, a5, letter, monarch, fill_answer};
ghost use Rattle.gdi_write.specs.Answers.{written_as, filled_as, head_of};

use gdi_jobs::WIDEST;
use refusal::{Fault, Refusal};

// A paper format: width and height in dots, and the number that stands for it in a page head.
#[derive(Clone, Copy)]
pub struct Paper {
    pub width: u16,
    pub height: u16,
    pub index: u8,
}

impl Paper {
    pub const A4: Paper = Paper {
        width: 4762,
        height: 6778,
        index: 0,
    };

    pub const A5: Paper = Paper {
        width: 3298,
        height: 4726,
        index: 4,
    };

    pub const LETTER: Paper = Paper {
        width: 4900,
        height: 6364,
        index: 1,
    };

    pub const MONARCH: Paper = Paper {
        width: 2128,
        height: 4264,
        index: 8,
    };

    // The command of a white line of the paper's width, its first byte in the high byte.
    #[tactic(auto, unfolding(crate::specs::Paper::fill_answer, gdi_jobs::specs::Writers::linefill_of, gdi_jobs::specs::Groups::admitted))]
    pub fn linefill(self) -> Result<u16, Refusal>
        ensures result_value { filled_as result ≡ fill_answer self.width }
        ensures a4_value { a4 ≡ record { width = Paper.A4.width; height = Paper.A4.height; index = Paper.A4.index } }
        ensures a5_value { a5 ≡ record { width = Paper.A5.width; height = Paper.A5.height; index = Paper.A5.index } }
        ensures letter_value { letter ≡ record { width = Paper.LETTER.width; height = Paper.LETTER.height; index = Paper.LETTER.index } }
        ensures monarch_value { monarch ≡ record { width = Paper.MONARCH.width; height = Paper.MONARCH.height; index = Paper.MONARCH.index } }
    {
        if !(1..=WIDEST).contains(&usize::from(self.width)) {
            return Err(Fault::Writing.at(0));
        }
        Ok((0x80 + self.width % 64) * 256 + self.width / 64)
    }
}

// Puts all the bytes at the beginning of the output.
#[tactic(auto, unfolding(buffers::specs::Buffers::written, buffers::specs::Buffers::count))]
fn put_all(bytes: &[u8], output: &mut [u8]) -> Result<usize, Refusal>
    ensures result_value { written_as result ≡ answer_of (in_room bytes.now (length output.old)) }
    ensures output_after { output.new ≡ output_after (in_room bytes.now (length output.old)) output.old }
{
    buffers::put(bytes, output).ok_or(Fault::Writing.at(0))
}

// The head of a job.
#[tactic(auto, unfolding(gdi_jobs::specs::Writers::head_writing, gdi_jobs::specs::Groups::codes, gdi_jobs::specs::Groups::head_bytes))]
pub fn write_head(output: &mut [u8]) -> Result<usize, Refusal>
    ensures result_value { written_as result ≡ answer_of (head_writing (length output.old)) }
    ensures output_after { output.new ≡ output_after (head_writing (length output.old)) output.old }
{
    put_all(&gdi_jobs::HEAD, output)
}

// The end of a page.
#[tactic(auto, unfolding(gdi_jobs::specs::Writers::page_end_writing))]
pub fn write_page_end(output: &mut [u8]) -> Result<usize, Refusal>
    ensures result_value { written_as result ≡ answer_of (page_end_writing (length output.old)) }
    ensures output_after { output.new ≡ output_after (page_end_writing (length output.old)) output.old }
{
    put_all(&[0x13, 0, 0, 0, 0, 0], output)
}

// The end of a job.
#[tactic(auto, unfolding(gdi_jobs::specs::Writers::document_end_writing))]
pub fn write_document_end(output: &mut [u8]) -> Result<usize, Refusal>
    ensures result_value { written_as result ≡ answer_of (document_end_writing (length output.old)) }
    ensures output_after { output.new ≡ output_after (document_end_writing (length output.old)) output.old }
{
    put_all(&[0x14, 0, 0, 0, 0, 0], output)
}

// What a page head tells.
#[derive(Clone, Copy)]
pub struct PageHead {
    pub tray: u32,
    pub width: u16,
    pub height: u16,
    pub format: u8,
    pub paper_type: u8,
    pub copies: u8,
    pub toner: u8,
}

// The head of a page.
#[tactic(auto, unfolding(gdi_jobs::specs::Writers::page_head_writing, gdi_jobs::specs::Writers::page_head_bytes))]
pub fn write_page_head(head: PageHead, output: &mut [u8]) -> Result<usize, Refusal>
    ensures result_value { written_as result ≡ answer_of (page_head_writing (head_of head) (length output.old)) }
    ensures output_after { output.new ≡ output_after (page_head_writing (head_of head) (length output.old)) output.old }
{
    if !gdi_parse::may_hold(
        usize::from(head.width),
        usize::from(head.height),
        head.toner,
    ) {
        return Err(Fault::PageHead.at(0));
    }
    let [t0, t1, t2, t3] = head.tray.to_le_bytes();
    let [w0, w1] = head.width.to_le_bytes();
    let [h0, h1] = head.height.to_le_bytes();
    let bytes = [
        0x11,
        0,
        0x0F,
        0,
        t0,
        t1,
        t2,
        t3,
        4,
        4,
        0,
        0,
        w0,
        w1,
        h0,
        h1,
        head.format,
        head.paper_type,
        head.copies,
        0,
        head.toner,
    ];
    put_all(&bytes, output)
}
