// The tree of a plan: its hubs and nodes, read line by line into tables of 32-bit cells.
#![tactic(auto)]

ghost use Rattle.std.specs.Prelude.{◌≡◌, length};
ghost use Rattle.text.specs.Line.{next_line};
ghost use Rattle.plan_tree.specs.Kind.{kind_of};
ghost use Rattle.plan_tree.specs.Part.{row_number, told_part, told_line, found};
ghost use Rattle.plan_tree.specs.Readers.{root_reader};

use text::{Cursor, Next};

mod readers;
mod stores;

// What a line of a plan is, other than a figure's.
#[derive(Clone, Copy, Debug, PartialEq, Eq)]
pub enum Kind {
    Close,
    Node,
    Empty,
    Hub,
    Other,
}

// Where a reader is: the next line's place and number, and the nodes and hubs so far.
#[derive(Clone, Copy, Debug, PartialEq, Eq)]
pub struct Place {
    pub at: usize,
    pub number: usize,
    pub nodes: u32,
    pub hubs: u32,
}

// The rows of the table that refuse a plan, 1 to 4: a line is no form that is allowed there, a figure is out of its range, a limit of the
// tree is passed, or there is no such framing.
#[derive(Clone, Copy, Debug, PartialEq, Eq)]
pub enum Row {
    Form,
    Range,
    Tree,
    Framing,
}

impl From<Row> for u32 {
    ghost from_gives = { λ row n. n ≡ row_number row };

    fn from(row: Row) -> u32 {
        match row {
            Row::Form => 1,
            Row::Range => 2,
            Row::Tree => 3,
            Row::Framing => 4,
        }
    }
}

// A plan is refused: the line, and the first row of the table that applies to it.
#[derive(Clone, Copy, Debug, PartialEq, Eq)]
pub struct Refused {
    pub line: usize,
    pub row: Row,
}

impl Refused {
    pub fn new(line: usize, row: Row) -> Self
        ensures { result ≡ (record { line = line; row = row }) }
    {
        Refused { line, row }
    }
}

// A line without its LF, its number, and where the next one starts.
#[derive(Drop)]
pub struct Line<'a> {
    pub bytes: &'a [u8],
    pub number: usize,
    pub next: Cursor,
}

// The tables of a plan: see specs/Tables.antt for what stands where. The cells before HUBS are the figures', which `plan` names.
pub type Plan = [u32; CELLS];

pub const CELLS: usize = 1672;

// Hub g's cells begin at HUBS + (g - 1) * PER_HUB: how many ports it has, its parent, the port there, its level; port q is at PORT + q.
pub const HUBS: usize = 8;

pub const PER_HUB: usize = 36;

pub const PORT_COUNT: usize = 0;

pub const PARENT: usize = 1;

pub const PLACE: usize = 2;

pub const LEVEL: usize = 3;

pub const PORT: usize = 3;

// A port's cell is EMPTY, a node's number, or HUB_CODE and a hub's number.
pub const EMPTY: u32 = 0;

pub const HUB_CODE: u32 = 256;

// Node k's cells begin at NODES + (k - 1) * PER_NODE: its hub, and its port there.
pub const NODES: usize = 1160;

pub const PER_NODE: usize = 2;

pub const NODE_HUB: usize = 0;

pub const NODE_PORT: usize = 1;

// What a line is, other than a figure's.
#[inline(always)]
pub fn kind_of(line: &[u8]) -> Kind
    ensures { result ≡ kind_of line.now }
{
    if line == b")".as_slice() {
        return Kind::Close;
    }
    if line == b"(node)".as_slice() {
        return Kind::Node;
    }
    if line == b"(empty)".as_slice() {
        return Kind::Empty;
    }
    if line == b"(hub".as_slice() {
        return Kind::Hub;
    }
    Kind::Other
}

// The line at a cursor. One without its LF and the text's end are row 1. Put into its callers, as the reader's `next` is.
#[inline(always)]
pub fn line_at(text: &[u8], c: Cursor) -> Result<Line<'_>, Refused>
    ensures { told_line result ≡ found text.now (next_line text.now c) }
{
    match reader::line_at(text, c.at, c.number) {
        Next::Line {
            start,
            end,
            number,
            next,
        } => Ok(Line {
            bytes: text::part(text, start, end),
            number,
            next,
        }),
        Next::Unended { number, .. } | Next::Done { number } => {
            Err(Refused::new(number, Row::Form))
        }
    }
}

// The root hub from its ports on, at a place behind its `(hub`: it is hub 1, of level 1, and 4 levels may stand below it.
// Each of its lines has a byte of the text, so the text's length is enough for the readers, which take one off for each line.
pub fn root_reader(text: &[u8], s: &mut Plan, x: Place) -> Result<Place, Refused>
    ensures value { told_part result ≡ (root_reader text.now (length text.now) x s.old).part }
    ensures s_after { s.new ≡ (root_reader text.now (length text.now) x s.old).tables }
{
    s[HUBS + LEVEL] = 1;
    readers::hub_reader(text, s, x, 1, 0, 4, text.len())
}
