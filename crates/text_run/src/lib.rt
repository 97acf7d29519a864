// The run over one text: the plan is read, then each event behind all steps strictly before it, and the log is written into a lent buffer,
// all of it or nothing. No public function has a `requires`: what is written is one definition of a log, `log_spec`'s specs/Log.antt.
#![tactic(auto)]

ghost use Rattle.std.specs.Prelude.{◌≡◌, true, suc, ◌≤◌, length};
ghost use Rattle.plan.specs.Reading.{reading, leaves};
ghost use Rattle.plan.specs.Answer.{told_answer};
ghost use Rattle.log_lines.specs.Handed.{handed};
ghost use Rattle.log_lines.specs.FirstLine.{told_numbers};
ghost use Rattle.log_spec.specs.Cells.{events_by, behind_plan, pass_by, plan_left, cells_left};
ghost use Rattle.line_run.specs.LineRun.{Ran};
ghost use Rattle.log_spec.specs.Log.{log_bytes};
ghost use Rattle.writer.specs.Write.{fits, overwrite, put_answer, put_buffer, put_number, put_row};

use cells::Cascade;
use plan::Taken;
use plan_tree::{Plan, Refused};
use reader::Reader;

// How many bytes hold the log of every text: 18 times 65,536, `log_bound` in `log_spec`.
pub const LONGEST_LOG: usize = 1179648;

// The event lines from a place on, handed out one by one by a reader that holds the text. A `for` over lines would lose the last one's
// missing LF, which is a refusal.
fn events(
    text: &[u8],
    place: usize,
    line: usize,
    p: &Plan,
    s: &mut Cascade,
    write: bool,
    buffer: &mut [u8],
    at: usize,
) -> Option<usize>
    ensures { Ran (events_by write p.now text.now (suc (length text.now)) (record { at = place; number = line }) s.old buffer.old at) result s.new buffer.new }
{
    let mut lines = Reader::new(text, place, line);
    let mut z = at;
    loop {
        let l = lines.next();
        z = line_run::line_of(p, s, l.bytes, l.number, l.ended, write, buffer, z)?;
        if !l.ended {
            return Some(z);
        }
    }
}

// What follows the plan's own line: nothing behind a refused plan, and behind a taken one its events, from a fresh table.
fn behind_plan(
    text: &[u8],
    answer: Result<Taken, Refused>,
    p: &Plan,
    s: &mut Cascade,
    write: bool,
    buffer: &mut [u8],
    at: usize,
) -> Option<usize>
    ensures value { result ≡ (behind_plan write text.now (told_answer answer) p.now s.old buffer.old at).put }
    ensures s_after { s.new ≡ (behind_plan write text.now (told_answer answer) p.now s.old buffer.old at).cells }
    ensures buffer_after { buffer.new ≡ (behind_plan write text.now (told_answer answer) p.now s.old buffer.old at).buffer }
{
    match answer {
        Ok(taken) => {
            requests::fresh(s);
            events(text, taken.at, taken.line, p, s, write, buffer, at)
        }
        Err(_) => Some(at),
    }
}

// A plan's answer with the row's number in place of the row.
fn with_number(answer: Result<Taken, Refused>) -> Result<Taken, (usize, u32)>
    ensures { told_numbers result ≡ told_answer answer }
{
    match answer {
        Ok(taken) => Ok(taken),
        Err(refused) => Err((refused.line, u32::from(refused.row))),
    }
}

// One pass over a text: its log's lines are written, or only measured; the place behind them, or None at the first that doesn't fit.
fn pass(
    text: &[u8],
    plan: &mut Plan,
    s: &mut Cascade,
    write: bool,
    buffer: &mut [u8],
) -> Option<usize>
    ensures value { result ≡ (pass_by write text.now s.old buffer.old).put }
    ensures s_after { s.new ≡ (pass_by write text.now s.old buffer.old).cells }
    ensures buffer_after { buffer.new ≡ (pass_by write text.now s.old buffer.old).buffer }
    ensures plan_after { plan.new ≡ leaves (reading (handed text.now)) plan.old }
{
    let text = log_lines::handed(text);
    let answer = plan::read(text, plan);
    let z = log_lines::first_line(with_number(answer), write, buffer, 0)?;
    behind_plan(text, answer, plan, s, write, buffer, z)
}

// Whether so many bytes hold the log of any text as long as this one: 18 for each byte that is read, and a refused plan's line has 33.
fn holds_any(text: &[u8], room: usize) -> bool
    ensures { result ≡ true → length (log_bytes text.now) ≤ room }
{
    let read = log_lines::handed(text);
    if room < 33 {
        return false;
    }
    18 * read.len() <= room
}

// Whether the whole log of a text fits into a lent buffer. Where a log as long as any could be
// does, nothing is measured; else a pass on tables of its own finds it out, which only measures.
fn log_fits(text: &[u8], buffer: &mut [u8]) -> bool
    ensures value { result ≡ fits buffer.old 0 (log_bytes text.now) }
    ensures buffer_unchanged { buffer.new ≡ buffer.old }
{
    if holds_any(text, buffer.len()) {
        return true;
    }
    let mut plan = [0u32; plan_tree::CELLS];
    let mut s = [0u32; cells::CELLS];
    pass(text, &mut plan, &mut s, false, buffer).is_some()
}

// The whole log of a text into a lent buffer: the place behind it, or None where it doesn't fit, and then nothing that is
// lent changes. A taken plan's tables stand in `plan`, and the cascade's in `s`; a refused plan leaves both as they were.
pub fn run(text: &[u8], plan: &mut Plan, s: &mut Cascade, buffer: &mut [u8]) -> Option<usize>
    ensures value { result ≡ put_answer buffer.old 0 (log_bytes text.now) }
    ensures buffer_after { buffer.new ≡ put_buffer buffer.old 0 (log_bytes text.now) }
    ensures result_value { put_number result ≡ put_row buffer.old 0 (log_bytes text.now) }
    ensures plan_after { plan.new ≡ plan_left text.now plan.old buffer.old }
    ensures s_after { s.new ≡ cells_left text.now s.old buffer.old }
{
    if !log_fits(text, buffer) {
        return None;
    }
    pass(text, plan, s, true, buffer)
}

// The whole log of a text at the front of a buffer that holds every log, and how many bytes it has. Nothing has to be measured, so one pass
// writes it. A taken plan's tables stand in `plan`, and the cascade's in `s`; a refused plan leaves both as they were.
pub fn whole_log(
    text: &[u8],
    plan: &mut Plan,
    s: &mut Cascade,
    out: &mut [u8; LONGEST_LOG],
) -> usize
    ensures value { result ≡ length (log_bytes text.now) }
    ensures out_after { out.new ≡ overwrite out.old 0 (log_bytes text.now) }
    ensures plan_after { plan.new ≡ leaves (reading (handed text.now)) plan.old }
    ensures s_after { s.new ≡ (pass_by true text.now s.old out.old).cells }
{
    pass(text, plan, s, true, out).unwrap_or(0)
}
