// The plan: its header's lines, and with its tree the whole of it, read from a text into tables of 32-bit cells.
#![tactic(auto)]

ghost use Rattle.std.specs.Prelude.{◌≡◌, ◌≤◌, length};
ghost use Rattle.header.specs.Figure.{told_figure};
ghost use Rattle.header.specs.Lines.{optional_at};
ghost use Rattle.plan.specs.Tables.{put_figures};
ghost use Rattle.plan.specs.Answer.{told_answer};
ghost use Rattle.plan.specs.Reading.{framing_row, reading, leaves};
ghost use Rattle.plan.specs.PlanReader.{hub_at, plan_by};
ghost use Rattle.plan.specs.Words.{framing_word};
ghost use Rattle.plan.specs.Header.{figures_of, row_or_0, framing_of, behind_figures};

use figures::Figures;
use plan_tree::{CELLS, Plan, Refused, Row};
use text::Cursor;

mod figures;

// A plan that is taken: its numbers of nodes and hubs, and where the events start (byte and line number).
#[derive(Clone, Copy, Debug, PartialEq, Eq)]
pub struct Taken {
    pub nodes: u32,
    pub hubs: u32,
    pub at: usize,
    pub line: usize,
}

// The figures' cells, before those of the hubs: T, O, D, N, H, the framing and whether the plan is strict. One more is kept.
pub const FRAME: usize = 0;

pub const OVERHEAD: usize = 1;

pub const INTERRUPT: usize = 2;

pub const NODE_COUNT: usize = 3;

pub const HUB_COUNT: usize = 4;

pub const FRAMING: usize = 5;

pub const STRICT: usize = 6;

// The figures' cells.
fn put_figures(s: &mut Plan, figures: Figures, nodes: u32, hubs: u32)
    ensures { s.new ≡ put_figures (figures_of figures) nodes hubs s.old }
{
    s[FRAME] = figures.frame as u32;
    s[OVERHEAD] = figures.overhead as u32;
    s[INTERRUPT] = figures.interrupt as u32;
    s[NODE_COUNT] = nodes;
    s[HUB_COUNT] = hubs;
    s[FRAMING] = figures.framing as u32;
    s[STRICT] = figures.strict as u32;
}

// The framing is neither 3 nor 5, or else D is too small for it.
fn framing_row(o: u64, d: u64, framing: u64) -> Result<(), Row>
    requires { o ≤ 50000 }
    ensures { row_or_0 result ≡ framing_row o d framing }
{
    if !header::is_framing(framing) {
        return Err(Row::Framing);
    }
    if d < header::longest(framing as u32) + o {
        return Err(Row::Range);
    }
    Ok(())
}

// The framing's line, or without it framing 3; where the next line starts.
fn framing_at(text: &[u8], c: Cursor, o: u64, d: u64) -> Result<(u64, Cursor), Refused>
    requires { o ≤ 50000 }
    ensures { told_figure result ≡ framing_of (optional_at text.now c framing_word 1) c o d }
{
    let Some((framing, next)) = header::optional_at(text, c, b"(framing", 1) else {
        return Ok((3, c));
    };
    framing_row(o, d, framing).map_err(|row| Refused::new(c.number, row))?;
    Ok((framing, next))
}

// The lines in front of the root: T is 100,000 to 4,000,000, O is 0 to 50,000, D is 12,000 + O to T, then the framing's line and the
// line `(strict)`, which has no number, each if it is there. The root's line is the next one.
fn figures_at(text: &[u8]) -> Result<(Figures, Cursor), Refused>
    ensures { plan_by text.now (length text.now) ≡ behind_figures text.now (length text.now) result }
{
    let (frame, c) = header::figure_at(text, text::first_line(), b"(frame", 100000, 4000000)?;
    let (overhead, c) = header::figure_at(text, c, b"(overhead", 0, 50000)?;
    let (interrupt, c) = header::figure_at(text, c, b"(interrupt", 12000 + overhead, frame)?;
    let (framing, c) = framing_at(text, c, overhead, interrupt)?;
    let strict = header::optional_at(text, c, b"(strict", 0);
    let figures = Figures {
        frame,
        overhead,
        interrupt,
        framing,
        strict: strict.is_some(),
    };
    Ok((figures, strict.map_or(c, |x| x.1)))
}

// The root hub at a cursor. It is read into a table of its own, which takes the lent one's place at the end. A function by itself, so that
// a header that is refused pays for no table.
#[inline(never)]
fn hub_at(text: &[u8], plan: &mut Plan, figures: Figures, c: Cursor) -> Result<Taken, Refused>
    ensures value { told_answer result ≡ (hub_at text.now (length text.now) (figures_of figures) c).answer }
    ensures plan_after { plan.new ≡ leaves (hub_at text.now (length text.now) (figures_of figures) c) plan.old }
{
    let root = header::root_at(text, c)?;
    let mut s = [0u32; CELLS];
    let end = plan_tree::root_reader(text, &mut s, root)?;
    if end.nodes == 0 {
        return Err(Refused::new(end.number.saturating_sub(1), Row::Tree));
    }
    put_figures(&mut s, figures, end.nodes, end.hubs);
    *plan = s;
    Ok(Taken {
        nodes: end.nodes,
        hubs: end.hubs,
        at: end.at,
        line: end.number,
    })
}

// The plan at the start of a text. A taken one's tables stand in `plan`; a refused one leaves it as it was.
pub fn read(text: &[u8], plan: &mut Plan) -> Result<Taken, Refused>
    ensures value { told_answer result ≡ (reading text.now).answer }
    ensures plan_after { plan.new ≡ leaves (reading text.now) plan.old }
{
    let (figures, c) = figures_at(text)?;
    hub_at(text, plan, figures, c)
}
