// The command reader. A command is read from a sheet at any place; what it names in the sheet or the load stays there, and is handed out
// uncopied, as a part of the one or the other.
#![tactic(auto)]

ghost use Rattle.std.specs.Prelude.{◌≡◌, List, ℕ, ◌+◌, ◌<◌, ◌≤◌, ◌^◌, IfErr, IfOk, drop, length};
ghost use Rattle.std.proofs.Math.Option.{Option};
ghost use Rattle.film_words.specs.Words.{words, at, long_at};
ghost use Rattle.film_words.specs.Parts.{part_of};
ghost use Rattle.film_words.specs.Load.{load_words};
ghost use Rattle.film_words.specs.Padding.{padding_set};
ghost use Rattle.film_words.specs.Answers.{extent_of};
ghost use Rattle.film_commands.specs.Commands.{command, command_in};
ghost use Rattle.film_commands.specs.Code.{array_answer, placed, read_as};

use film_words::{array_extent, group_extent, long, padding_set, part, word};
use refusal::{Fault, Refusal};

#[derive(Clone, Copy)]
pub struct Rectangle {
    pub s_min: u16,
    pub s_size: u16,
    pub f_min: u16,
    pub f_size: u16,
}

#[derive(Clone, Copy)]
pub struct Trapezoid {
    pub s_min: u16,
    pub s_size: u16,
    pub f_min: u16,
    pub f_size: u16,
    pub f_min_last: u16,
    pub f_size_last: u16,
}

// Where the words of a run group or a sample array stand, in the load file or in the sheet, from place `from` up to, not including, `to`; and they.
#[derive(Clone, Copy)]
pub struct Words<'a> {
    pub load: bool,
    pub from: usize,
    pub to: usize,
    pub bytes: &'a [u8],
}

// A mask: its numbers, and the words of its run group or its sample array.
#[derive(Clone, Copy)]
pub enum Mask<'a> {
    Rectangle(Rectangle),
    Trapezoid(Trapezoid),
    Runs {
        s_min: u16,
        group: Words<'a>,
    },
    Samples {
        s_min: u16,
        f_min: u16,
        array: Words<'a>,
    },
}

// A tile: its address in the load, its words, and the place after the last of them. The first has place `address` + 2.
#[derive(Clone, Copy)]
pub struct Tile<'a> {
    pub transparent: bool,
    pub address: usize,
    pub to: usize,
    pub words: &'a [u8],
}

#[derive(Clone, Copy)]
pub enum Command<'a> {
    Priority(u32),
    Ink,
    Clear,
    Tile(Tile<'a>),
    Paint(Mask<'a>),
}

// Ink is `Solid(true)`, clear is `Solid(false)`.
#[derive(Clone, Copy)]
pub enum Colour<'a> {
    Solid(bool),
    Tile(Tile<'a>),
}

// The refusals of one command, in their order: an unknown code; a command past its band; a priority over its limit or falling, a tile mode that is
// not 0 or 1; a tile, group or array past the load, or a tile with a side of 0; a padding bit that is set. These are the argument words at which some
// are told, counted from the code word; the others are told at the code word.
const HIGH_WORD: usize = 2;

const LOW_WORD: usize = 1;

const MODE: usize = 1;

// The words after a command's code word, up to the band's end, and the code word's place.
#[derive(Clone, Copy)]
struct Args<'a> {
    after: &'a [u8],
    p: usize,
    ghost room: { p < 2 ^ 62 },
}

impl<'a> Args<'a> {
    fn word(&self, i: usize) -> u16
        ensures { result ≡ at (words self.now.after.now) i }
    {
        word(self.after, i)
    }

    fn long(&self, i: usize) -> u32
        ensures { result ≡ long_at (words self.now.after.now) i }
    {
        long(self.after, i)
    }

    // A command is cut that has fewer than n argument words.
    fn need(&self, n: usize) -> Result<(), Refusal>
        ensures enough { IfOk result (λ u. n ≤ length (words self.now.after.now)) }
        ensures cut { IfErr result (λ r. (r ≡ record { fault = Fault.Cut; place = self.now.p }) × (length (words self.now.after.now) < n)) }
    {
        if self.after.len() / 2 < n {
            return Err(Fault::Cut.at(self.p));
        }
        Ok(())
    }
}

// The readers of one command each. They give the command and the place after it. A reader that is given no sheet, no load or no priority promises its
// answer for every one.

fn read_priority(args: Args, least: u32) -> Result<(Command, usize), Refusal>
    ensures { (s l load : List ℕ) → read_as result ≡ placed s l args.entry.p (command load least 1 (words args.entry.after.now)) }
{
    args.need(2)?;
    if args.word(1) > 255 {
        return Err(Fault::Priority.at(args.p + HIGH_WORD));
    }
    let value = args.long(0);
    if value < least {
        return Err(Fault::Priority.at(args.p + LOW_WORD));
    }
    Ok((Command::Priority(value), args.p + 3))
}

// Addresses of the load count after its two count words, here and in the two other readers from the load.
fn read_tile<'a>(args: Args<'a>, load: &'a [u8]) -> Result<(Command<'a>, usize), Refusal>
    ensures { (s : List ℕ) (least : ℕ) → read_as result ≡ placed s load.now args.entry.p (command (load_words load.now) least 4 (words args.entry.after.now)) }
{
    args.need(3)?;
    let mode = args.word(0);
    if mode > 1 {
        return Err(Fault::TileMode.at(args.p + MODE));
    }
    let address = args.long(1) as usize;
    let from = 2 + address;
    let n = array_extent(load, from + 3).ok_or(Fault::LoadRange.at(args.p))?;
    if word(load, from + 3) == 0 || word(load, from + 4) == 0 {
        return Err(Fault::LoadRange.at(args.p));
    }
    if padding_set(load, from + 3) {
        return Err(Fault::Padding.at(args.p));
    }
    let to = from + (3 + n);
    let tile = Tile {
        transparent: mode == 1,
        address,
        to,
        words: part(load, from, to),
    };
    Ok((Command::Tile(tile), args.p + 4))
}

fn read_rectangle(args: Args) -> Result<(Command, usize), Refusal>
    ensures { (s l load : List ℕ) (least : ℕ) → read_as result ≡ placed s l args.entry.p (command load least 5 (words args.entry.after.now)) }
{
    args.need(4)?;
    let rectangle = Rectangle {
        s_min: args.word(0),
        s_size: args.word(1),
        f_min: args.word(2),
        f_size: args.word(3),
    };
    Ok((Command::Paint(Mask::Rectangle(rectangle)), args.p + 5))
}

fn read_trapezoid(args: Args) -> Result<(Command, usize), Refusal>
    ensures { (s l load : List ℕ) (least : ℕ) → read_as result ≡ placed s l args.entry.p (command load least 6 (words args.entry.after.now)) }
{
    args.need(6)?;
    let trapezoid = Trapezoid {
        s_min: args.word(0),
        s_size: args.word(1),
        f_min: args.word(2),
        f_size: args.word(3),
        f_min_last: args.word(4),
        f_size_last: args.word(5),
    };
    Ok((Command::Paint(Mask::Trapezoid(trapezoid)), args.p + 7))
}

// The group stands two words after the code word, in the sheet of which the arguments are the part from the place after it up to `end`.
fn read_runs<'a>(
    sheet: &'a [u8],
    args: Args<'a>,
    end: usize,
) -> Result<(Command<'a>, usize), Refusal>
    requires { (args.p < end) × (end ≤ length (words sheet.now)) × (args.after.now ≡ part_of sheet.now (args.p + 1) end) }
    ensures { (l load : List ℕ) (least : ℕ) → read_as result ≡ placed sheet.now l args.entry.p (command load least 7 (words args.entry.after.now)) }
{
    let n = group_extent(args.after, 1).ok_or(Fault::Cut.at(args.p))?;
    let from = args.p + 2;
    let to = from + n;
    let runs = Mask::Runs {
        s_min: args.word(0),
        group: Words {
            load: false,
            from,
            to,
            bytes: part(sheet, from, to),
        },
    };
    Ok((Command::Paint(runs), to))
}

// Apart from `read_runs`: they share one line, and differ in where the group, `s_min` and the next command stand. So do the two readers of arrays below.
fn read_load_runs<'a>(args: Args<'a>, load: &'a [u8]) -> Result<(Command<'a>, usize), Refusal>
    ensures { (s : List ℕ) (least : ℕ) → read_as result ≡ placed s load.now args.entry.p (command (load_words load.now) least 8 (words args.entry.after.now)) }
{
    args.need(3)?;
    let from = 2 + args.long(0) as usize;
    let n = group_extent(load, from).ok_or(Fault::LoadRange.at(args.p))?;
    let to = from + n;
    let runs = Mask::Runs {
        s_min: args.word(2),
        group: Words {
            load: true,
            from,
            to,
            bytes: part(load, from, to),
        },
    };
    Ok((Command::Paint(runs), args.p + 4))
}

// How many words the sample array at place q of a file takes, given its extent, where it is there and no bit is set in its padding; or the refusal, at the
// code word.
fn whole_array(
    extent: Option<usize>,
    file: &[u8],
    q: usize,
    past: Fault,
    p: usize,
) -> Result<usize, Refusal>
    ensures { (o : Option ℕ) → extent ≡ extent_of o → result ≡ array_answer past p o (padding_set (drop q (words file.now))) }
{
    let n = extent.ok_or(past.at(p))?;
    if padding_set(file, q) {
        return Err(Fault::Padding.at(p));
    }
    Ok(n)
}

// The array stands three words after the code word.
fn read_samples<'a>(
    sheet: &'a [u8],
    args: Args<'a>,
    end: usize,
) -> Result<(Command<'a>, usize), Refusal>
    requires { (args.p < end) × (end ≤ length (words sheet.now)) × (args.after.now ≡ part_of sheet.now (args.p + 1) end) }
    ensures { (l load : List ℕ) (least : ℕ) → read_as result ≡ placed sheet.now l args.entry.p (command load least 9 (words args.entry.after.now)) }
{
    let extent = array_extent(args.after, 2);
    let n = whole_array(extent, args.after, 2, Fault::Cut, args.p)?;
    let from = args.p + 3;
    let to = from + n;
    let samples = Mask::Samples {
        s_min: args.word(0),
        f_min: args.word(1),
        array: Words {
            load: false,
            from,
            to,
            bytes: part(sheet, from, to),
        },
    };
    Ok((Command::Paint(samples), to))
}

fn read_load_samples<'a>(args: Args<'a>, load: &'a [u8]) -> Result<(Command<'a>, usize), Refusal>
    ensures { (s : List ℕ) (least : ℕ) → read_as result ≡ placed s load.now args.entry.p (command (load_words load.now) least 10 (words args.entry.after.now)) }
{
    args.need(4)?;
    let from = 2 + args.long(0) as usize;
    let extent = array_extent(load, from);
    let n = whole_array(extent, load, from, Fault::LoadRange, args.p)?;
    let to = from + n;
    let samples = Mask::Samples {
        s_min: args.word(2),
        f_min: args.word(3),
        array: Words {
            load: true,
            from,
            to,
            bytes: part(load, from, to),
        },
    };
    Ok((Command::Paint(samples), args.p + 5))
}

// The command at place p of a band that ends before place `end`, where the band's priority so far is `least`, and the place after it. Where the sheet
// has not all words from p up to `end`, or there are none, no command is there, and it is cut at p. The words of a tile, a group or an array are
// the part of the load or of the sheet that holds them, and told with the file and the places where they stand. Inlined: its answer is large, and it is
// called for each command.
#[tactic(auto, using(crate::proofs::Commands::command_here, crate::proofs::Answers::ink_at, crate::proofs::Answers::clear_at), unfolding(crate::specs::Code::command_of, crate::specs::Code::bytes_in))]
#[inline(always)]
pub fn read_command<'a>(
    sheet: &'a [u8],
    load: &'a [u8],
    p: usize,
    end: usize,
    least: u32,
) -> Result<(Command<'a>, usize), Refusal>
    ensures { read_as result ≡ placed sheet.now load.now p (command_in (load_words load.now) least (words (part_of sheet.now p end))) }
{
    if p >= end || end > sheet.len() / 2 {
        return Err(Fault::Cut.at(p));
    }
    let after = part(sheet, p + 1, end);
    let args = Args { after, p };
    match word(sheet, p) {
        1 => read_priority(args, least),
        2 => Ok((Command::Ink, p + 1)),
        3 => Ok((Command::Clear, p + 1)),
        4 => read_tile(args, load),
        5 => read_rectangle(args),
        6 => read_trapezoid(args),
        7 => read_runs(sheet, args, end),
        8 => read_load_runs(args, load),
        9 => read_samples(sheet, args, end),
        10 => read_load_samples(args, load),
        _ => Err(Fault::UnknownCode.at(p)),
    }
}
