// The line reader: it holds the lent text, the place of the next line and that
// line's number, and hands out one line at a time as the part of the text itself.
// The scanner is `text`'s; the functions over `Reader` are thin, and
// `line_at` serves whoever has a plain text and two numbers.
#![tactic(auto)]

ghost use Rattle.std.specs.Prelude.{◌≡◌, ◌+◌, ◌<◌, ◌^◌};
ghost use Rattle.text.specs.Part.{PartOf};
ghost use Rattle.text.specs.Line.{next_line};
ghost use Rattle.reader.specs.LineReader.{found_at, ahead, moved_on, answer_of};

use text::{Cursor, Next};

// A lent text, the place of its next line, and that line's number.
#[derive(Drop)]
pub struct Reader<'a> {
    pub text: &'a [u8],
    pub at: usize,
    pub number: usize,
}

// A line without its LF, its number, and whether its LF was there. Where nothing is left there is neither a byte nor an LF.
// The flag is no Option: the bytes are there with and without the LF, and `all_lines` speaks of both.
#[derive(Drop)]
pub struct Line<'a> {
    pub bytes: &'a [u8],
    pub number: usize,
    pub ended: bool,
}

// What the scanner found at a place, in plain numbers: where the line
// ends, whether with LF, and where the next one starts, with its number.
#[derive(Drop)]
pub struct Found {
    pub end: usize,
    pub ended: bool,
    pub at: usize,
    pub number: usize,
}

// What stands at a place.
fn scan(text: &[u8], at: usize, number: usize) -> Found
    ensures { result ≡ found_at text.now at number }
{
    match text::next_line(text, Cursor { at, number }) {
        Next::Line {
            start: _,
            end,
            number: _,
            next,
        } => Found {
            end,
            ended: true,
            at: next.at,
            number: next.number,
        },
        Next::Unended {
            start: _,
            end,
            number: _,
        } => Found {
            end,
            ended: false,
            at: end,
            number: text::next_number(number),
        },
        Next::Done { number: _ } => Found {
            end: at,
            ended: false,
            at,
            number,
        },
    }
}

impl<'a> Reader<'a> {
    // A reader of a text from a place on, where the line of this number starts.
    pub fn new(text: &'a [u8], at: usize, number: usize) -> Self
        ensures { (result.text ≡ text.entry) × (result.at ≡ at) × (result.number ≡ number) }
    {
        Reader { text, at, number }
    }

    // The next line. The reader is left behind it. Put into its callers: handing a line on through memory costs as much as finding it.
    #[inline(always)]
    pub fn next(&mut self) -> Line<'a>
        ensures { (PartOf self.old.text self.old.at (ahead self.old).end result.bytes) × (result.number ≡ self.old.number) × (result.ended ≡ (ahead self.old).ended) × (self.new ≡ moved_on self.old) }
    {
        let at = self.at;
        let number = self.number;
        let found = scan(self.text, at, number);
        let bytes = text::part(self.text, at, found.end);
        self.at = found.at;
        self.number = found.number;
        Line {
            bytes,
            number,
            ended: found.ended,
        }
    }
}

// The scanner's answer at a place, by the length of the line that was handed out
// there, its number, whether its LF was there, and where the reader was left.
fn told(at: usize, length: usize, number: usize, ended: bool, place: usize, line: usize) -> Next
    requires { at + length < 2 ^ 64 }
    ensures { result ≡ answer_of at length number ended (record { at = place; number = line }) }
{
    if ended {
        return Next::Line {
            start: at,
            end: at + length,
            number,
            next: Cursor {
                at: place,
                number: line,
            },
        };
    }
    if length == 0 {
        return Next::Done { number };
    }
    Next::Unended {
        start: at,
        end: at + length,
        number,
    }
}

// The line at a place of a text, by a reader of its own: for whoever has a plain text and two numbers.
pub fn line_at(text: &[u8], at: usize, number: usize) -> Next
    ensures { result ≡ next_line text.now (record { at = at; number = number }) }
{
    let mut r = Reader::new(text, at, number);
    let line = r.next();
    told(
        at,
        line.bytes.len(),
        line.number,
        line.ended,
        r.at,
        r.number,
    )
}
