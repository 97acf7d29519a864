// The lines in front of a plan's ports, each by itself: a figure that must stand there, a line that may, and the root's `(hub`.
#![tactic(auto)]

ghost use Rattle.std.specs.Prelude.{◌≡◌, ◌||◌, eqb};
ghost use Rattle.rules.specs.Plan.{longest_in};
ghost use Rattle.plan_tree.specs.Part.{told_part};
ghost use Rattle.header.specs.Figure.{told_figure};
ghost use Rattle.header.specs.Lines.{in_range, figure_at, optional_at, root_at};

use plan_tree::{Kind, Place, Refused, Row};
use text::Cursor;

// A number that is to lie from low to high, with the line where it stands and where the next one starts.
fn in_range(
    x: u64,
    low: u64,
    high: u64,
    line: usize,
    next: Cursor,
) -> Result<(u64, Cursor), Refused>
    ensures { told_figure result ≡ in_range x low high line next }
{
    if x < low || high < x {
        return Err(Refused::new(line, Row::Range));
    }
    Ok((x, next))
}

// The figure of this word, from low to high, at a cursor, and where the next line starts.
#[inline(never)]
pub fn figure_at(
    text: &[u8],
    c: Cursor,
    word: &[u8],
    low: u64,
    high: u64,
) -> Result<(u64, Cursor), Refused>
    ensures { told_figure result ≡ figure_at text.now c word.now low high }
{
    let line = plan_tree::line_at(text, c)?;
    let other = Refused::new(line.number, Row::Form);
    let [x, _, _, _] = text::form_at(line.bytes, word, 1).ok_or(other)?;
    in_range(x, low, high, line.number, line.next)
}

// The number on the line of this word and so many numbers, where it stands at a cursor, and where the next line starts. Any other line is
// left where it is.
pub fn optional_at(text: &[u8], c: Cursor, word: &[u8], count: u8) -> Option<(u64, Cursor)>
    ensures { result ≡ optional_at text.now c word.now count }
{
    let line = plan_tree::line_at(text, c).ok()?;
    let [x, _, _, _] = text::form_at(line.bytes, word, count)?;
    Some((x, line.next))
}

// The root's `(hub` at a cursor: behind it there is no node yet, and one hub.
pub fn root_at(text: &[u8], c: Cursor) -> Result<Place, Refused>
    ensures { told_part result ≡ root_at text.now c }
{
    let line = plan_tree::line_at(text, c)?;
    if plan_tree::kind_of(line.bytes) != Kind::Hub {
        return Err(Refused::new(line.number, Row::Form));
    }
    Ok(Place {
        at: line.next.at,
        number: line.next.number,
        nodes: 0,
        hubs: 1,
    })
}

// Whether there is such a framing.
pub fn is_framing(framing: u64) -> bool
    ensures { result ≡ (eqb framing 3 || eqb framing 5) }
{
    framing == 3 || framing == 5
}

// The longest packet by its framing.
pub fn longest(framing: u32) -> u64
    ensures { result ≡ longest_in framing }
{
    if framing == 5 { 36000 } else { 12000 }
}
