// Runs `film_masks::ink_mask` on a band of four rows and prints a line for each case: its name, and the buffer as it is then, in hexadecimal. What the
// program must print is in the file stdout beside src/.
#![tactic(auto)]

ghost use Rattle.std.specs.Prelude.{◌≤◌};

use film_commands::{Colour, Mask, Rectangle, Tile, Trapezoid, Words};
use film_cursor::{Cursor, Step, advance};
use film_masks::ink_mask;
use film_paint::Frame;
use std::io;

// Words of a sheet: a run group of three lines, in which two runs of line 0 overlap, the run of line 1 has no dots and that of line 2 goes past the film;
// and an array of two lines of 17 dots.
const GROUP: Words = Words {
    load: false,
    from: 0,
    to: 9,
    bytes: b"\x00\x03\x00\x01\x00\x03\x00\x02\x80\x04\x00\x09\x80\x00\x00\x0f\x80\x09",
};

const ARRAY: Words = Words {
    load: false,
    from: 0,
    to: 6,
    bytes: b"\x00\x02\x00\x11\xa0\x01\x80\x00\x50\x00\xff\xff",
};

// Words of a load: a tile of one line of two dots, 1 and 0, at 1, 2, one dot further for each line; a run group of one line; and an array of one line of
// 4 dots, its padding bits set. Each stands at the beginning of its file, after a load's two count words.
const TILE: &[u8] = b"\x00\x01\x00\x01\x00\x02\x00\x01\x00\x02\x80\x00";

const LOAD_GROUP: Words = Words {
    load: true,
    from: 2,
    to: 5,
    bytes: b"\x00\x01\x00\x04\x80\x02",
};

const LOAD_ARRAY: Words = Words {
    load: true,
    from: 2,
    to: 5,
    bytes: b"\x00\x01\x00\x04\xff\xff",
};

const NO_WORDS: Words = Words {
    load: false,
    from: 0,
    to: 0,
    bytes: &[],
};

const INK: Colour = Colour::Solid(true);

const CLEAR: Colour = Colour::Solid(false);

// The load's tile, and one of no words.
const OPAQUE: Colour = Colour::Tile(Tile {
    transparent: false,
    address: 0,
    to: 8,
    words: TILE,
});

const TRANSPARENT: Colour = Colour::Tile(Tile {
    transparent: true,
    address: 0,
    to: 8,
    words: TILE,
});

const NO_TILE: Colour = Colour::Tile(Tile {
    transparent: false,
    address: 0,
    to: 2,
    words: &[],
});

// Four rows of 16 dots, from the film's first line and dot on.
const BAND: Frame = Frame {
    top: 0,
    rows: 4,
    left: 0,
    width: 16,
};

// Four rows of nine dots from dot 3 of the film on.
const WINDOW: Frame = Frame {
    top: 0,
    rows: 4,
    left: 3,
    width: 9,
};

fn rectangle(s_min: u16, s_size: u16, f_min: u16, f_size: u16) -> Mask<'static> {
    Mask::Rectangle(Rectangle {
        s_min,
        s_size,
        f_min,
        f_size,
    })
}

fn trapezoid(
    s_size: u16,
    f_min: u16,
    f_size: u16,
    f_min_last: u16,
    f_size_last: u16,
) -> Mask<'static> {
    Mask::Trapezoid(Trapezoid {
        s_min: 0,
        s_size,
        f_min,
        f_size,
        f_min_last,
        f_size_last,
    })
}

// One mask in a frame, in a buffer of N bytes that are all `before`.
fn case<const N: usize>(
    rt: &impl Print,
    name: &str,
    before: u8,
    frame: Frame,
    colour: Colour,
    m: Mask,
) -> io::Result<()>
    requires { N ≤ 16 }
{
    let mut buf = [before; N];
    ink_mask(&mut buf, frame, colour, m);
    print!(rt; "{name}")?;
    for (i, b) in buf.iter().enumerate() {
        if i % 2 == 0 {
            print!(rt; " ")?;
        }
        print!(rt; "{b:02x}")?;
    }
    println!(rt; "")
}

// On rows that are all 0, and on rows that are all 1.
fn white(rt: &impl Print, name: &str, frame: Frame, colour: Colour, m: Mask) -> io::Result<()> {
    case::<8>(rt, name, 0, frame, colour, m)
}

fn black(rt: &impl Print, name: &str, frame: Frame, colour: Colour, m: Mask) -> io::Result<()> {
    case::<8>(rt, name, 255, frame, colour, m)
}

fn rectangles(rt: &impl Print) -> io::Result<()> {
    white(rt, "rectangle", BAND, INK, rectangle(1, 2, 1, 3))?;
    white(rt, "no-lines", BAND, INK, rectangle(1, 0, 1, 3))?;
    white(rt, "no-dots", BAND, INK, rectangle(1, 2, 1, 0))?;
    white(rt, "no-wrap", BAND, INK, rectangle(0, 1, 8, 65535))?;
    white(
        rt,
        "cut-by-band",
        Frame { top: 30, ..BAND },
        INK,
        rectangle(28, 4, 0, 16),
    )?;
    white(rt, "below-band", BAND, INK, rectangle(4, 1, 0, 16))?;
    black(rt, "cleared", BAND, CLEAR, rectangle(1, 2, 1, 3))
}

fn trapezoids(rt: &impl Print) -> io::Result<()> {
    white(rt, "leaning-right", BAND, INK, trapezoid(3, 0, 2, 3, 2))?;
    white(rt, "leaning-left", BAND, INK, trapezoid(3, 3, 1, 0, 1))?;
    white(rt, "from-a-point", BAND, INK, trapezoid(3, 0, 0, 0, 4))?;
    white(rt, "no-line", BAND, INK, trapezoid(0, 0, 9, 0, 9))?;
    white(rt, "one-line", BAND, INK, trapezoid(1, 1, 3, 9, 9))?;
    white(
        rt,
        "one-line-no-wrap",
        BAND,
        INK,
        trapezoid(1, 8, 65535, 0, 0),
    )?;
    black(
        rt,
        "one-line-cleared",
        BAND,
        CLEAR,
        trapezoid(1, 1, 3, 9, 9),
    )?;
    white(
        rt,
        "largest",
        BAND,
        INK,
        trapezoid(65535, 0, 65535, 65535, 65535),
    )?;
    white(
        rt,
        "last-lines",
        Frame { top: 65531, ..BAND },
        INK,
        trapezoid(65535, 16, 0, 0, 16),
    )
}

fn runs() -> Mask<'static> {
    Mask::Runs {
        s_min: 1,
        group: GROUP,
    }
}

fn load_runs() -> Mask<'static> {
    Mask::Runs {
        s_min: 2,
        group: LOAD_GROUP,
    }
}

fn samples(s_min: u16, f_min: u16, array: Words) -> Mask {
    Mask::Samples {
        s_min,
        f_min,
        array,
    }
}

fn groups_and_arrays(rt: &impl Print) -> io::Result<()> {
    white(rt, "runs", BAND, INK, runs())?;
    white(rt, "runs-above", Frame { top: 3, ..BAND }, INK, runs())?;
    white(rt, "load-runs", BAND, INK, load_runs())?;
    white(rt, "samples", BAND, INK, samples(2, 3, ARRAY))?;
    white(rt, "load-samples", BAND, INK, samples(1, 14, LOAD_ARRAY))?;
    white(rt, "no-such-words", BAND, INK, samples(0, 0, NO_WORDS))
}

fn tiles(rt: &impl Print) -> io::Result<()> {
    black(rt, "opaque", BAND, OPAQUE, rectangle(0, 4, 0, 16))?;
    white(rt, "transparent", BAND, TRANSPARENT, rectangle(0, 4, 0, 16))?;
    black(
        rt,
        "transparent-keeps",
        BAND,
        TRANSPARENT,
        rectangle(0, 4, 0, 16),
    )?;
    black(rt, "opaque-under-mask", BAND, OPAQUE, rectangle(1, 1, 4, 3))?;
    black(rt, "opaque-runs", BAND, OPAQUE, runs())?;
    black(rt, "opaque-samples", BAND, OPAQUE, samples(2, 4, ARRAY))?;
    black(rt, "opaque-no-tile", BAND, NO_TILE, rectangle(0, 2, 0, 8))
}

// The mask after a colour command, both read by a cursor that begins with another colour.
fn second<'a>(
    rt: &impl Print,
    name: &str,
    before: u8,
    colour: Colour<'a>,
    commands: &'a [u8],
) -> io::Result<()> {
    let first = Cursor {
        at: 0,
        least: 0,
        colour,
    };
    let load = b"\x00\x00\x00\x00";
    if let Ok(Some(Step::Other(next))) = advance(commands, load, 6, first) {
        if let Ok(Some(Step::Paint(m, _))) = advance(commands, load, 6, next) {
            case::<8>(rt, name, before, BAND, next.colour, m)?;
        }
    }
    Ok(())
}

fn colours(rt: &impl Print) -> io::Result<()> {
    let clear = b"\x00\x03\x00\x05\x00\x01\x00\x02\x00\x01\x00\x03";
    second(rt, "after-clear", 255, INK, clear)?;
    let ink = b"\x00\x02\x00\x05\x00\x01\x00\x02\x00\x01\x00\x03";
    second(rt, "after-ink", 0, OPAQUE, ink)
}

fn windows(rt: &impl Print) -> io::Result<()> {
    white(rt, "window-rectangle", WINDOW, INK, rectangle(1, 2, 1, 3))?;
    white(rt, "window-runs", WINDOW, INK, runs())?;
    white(rt, "window-samples", WINDOW, INK, samples(2, 1, ARRAY))?;
    black(rt, "window-opaque", WINDOW, OPAQUE, rectangle(0, 4, 0, 16))?;
    white(
        rt,
        "window-trapezoid",
        WINDOW,
        INK,
        trapezoid(3, 0, 2, 3, 2),
    )
}

// Other widths, and buffers that are not of the band's bytes.
fn buffers(rt: &impl Print) -> io::Result<()> {
    let spare = Frame { width: 12, ..BAND };
    white(rt, "spare-bits", spare, INK, rectangle(0, 4, 0, 16))?;
    let wide = Frame { width: 17, ..BAND };
    case::<16>(rt, "two-words", 0, wide, INK, rectangle(1, 1, 15, 9))?;
    case::<10>(rt, "bytes-beyond", 85, BAND, INK, rectangle(0, 5, 0, 16))?;
    case::<6>(rt, "too-short", 85, BAND, INK, rectangle(0, 5, 0, 16))
}

fn main(rt: HostRuntime) -> io::Result<()> {
    rectangles(&rt)?;
    trapezoids(&rt)?;
    groups_and_arrays(&rt)?;
    tiles(&rt)?;
    colours(&rt)?;
    windows(&rt)?;
    buffers(&rt)
}
