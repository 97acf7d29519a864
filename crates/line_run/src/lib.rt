// One line of a text, run over the lent tables: an event behind all steps strictly before it, each with its line of the log.
// Lines are written into a lent buffer or only measured. No public function has a `requires`.
#![tactic(auto)]

ghost use Rattle.std.specs.Prelude.{◌≡◌, ◌+◌, ◌*◌, eqb, if◌then◌else◌};
ghost use Rattle.std.proofs.Math.Option.{some};
ghost use Rattle.event.specs.Call.{call_of};
ghost use Rattle.log_spec.specs.Cells.{steps_by, budget_by, before_by, call_by, event_line_by};
ghost use Rattle.line_run.specs.LineRun.{Moving, Ran, line_by};

use cells::{Cascade, Refusal, Step};
use event::Event;
use plan_tree::Plan;

// A step after which more may follow: a grant or a rest, and so one with a line.
fn moving(answer: Result<Step, Refusal>) -> Option<Step>
    ensures { Moving answer result }
{
    match answer {
        Ok(Step::Quiet) => None,
        Ok(step) => Some(step),
        Err(_) => None,
    }
}

// At most `left` steps with bound t, each with its line; `write` says whether lines are written or only measured.
fn steps(
    p: &Plan,
    s: &mut Cascade,
    left: u64,
    t: u64,
    write: bool,
    buffer: &mut [u8],
    at: usize,
) -> Option<usize>
    ensures value { result ≡ (steps_by write p.now left t s.old buffer.old at).put }
    ensures s_after { s.new ≡ (steps_by write p.now left t s.old buffer.old at).cells }
    ensures buffer_after { buffer.new ≡ (steps_by write p.now left t s.old buffer.old at).buffer }
{
    let mut z = at;
    for _ in 0..left {
        let Some(step) = moving(hub::step(p, s, t)) else {
            return Some(z);
        };
        z = log_lines::step_line(Ok(step), write, buffer, z)?;
    }
    Some(z)
}

// Twice a number of requests, and one more while a line is busy.
fn twice(busy: u32, standing: u32) -> u64
    ensures { result ≡ 2 * standing + (if eqb busy 0 then 0 else 1) }
{
    if busy == 0 {
        return 2 * standing as u64;
    }
    2 * standing as u64 + 1
}

// How many steps can come before the next event.
fn budget(s: &Cascade) -> u64
    ensures { result ≡ budget_by s.now }
{
    twice(s[cells::BUSY], s[cells::STANDING])
}

// All steps before an event.
fn before(
    p: &Plan,
    s: &mut Cascade,
    e: Event,
    write: bool,
    buffer: &mut [u8],
    at: usize,
) -> Option<usize>
    ensures value { result ≡ (before_by write p.now (some (call_of e)) s.old buffer.old at).put }
    ensures s_after { s.new ≡ (before_by write p.now (some (call_of e)) s.old buffer.old at).cells }
    ensures buffer_after { buffer.new ≡ (before_by write p.now (some (call_of e)) s.old buffer.old at).buffer }
{
    let left = budget(s);
    steps(p, s, left, event::time_of(e), write, buffer, at)
}

// The event itself, with its line where it is refused.
fn call(
    p: &Plan,
    s: &mut Cascade,
    number: usize,
    e: Event,
    write: bool,
    buffer: &mut [u8],
    at: usize,
) -> Option<usize>
    ensures value { result ≡ (call_by write p.now number (some (call_of e)) s.old buffer.old at).put }
    ensures s_after { s.new ≡ (call_by write p.now number (some (call_of e)) s.old buffer.old at).cells }
    ensures buffer_after { buffer.new ≡ (call_by write p.now number (some (call_of e)) s.old buffer.old at).buffer }
{
    match hub::event(p, s, e) {
        Ok(()) => Some(at),
        Err(row) => log_lines::refused_line(number as u64, u32::from(row), write, buffer, at),
    }
}

// One event: all steps before it, then the event.
fn event_line(
    p: &Plan,
    s: &mut Cascade,
    number: usize,
    e: Event,
    write: bool,
    buffer: &mut [u8],
    at: usize,
) -> Option<usize>
    ensures value { result ≡ (event_line_by write p.now number (some (call_of e)) s.old buffer.old at).put }
    ensures s_after { s.new ≡ (event_line_by write p.now number (some (call_of e)) s.old buffer.old at).cells }
    ensures buffer_after { buffer.new ≡ (event_line_by write p.now number (some (call_of e)) s.old buffer.old at).buffer }
{
    let z = before(p, s, e, write, buffer, at)?;
    call(p, s, number, e, write, buffer, z)
}

// One line that the reader handed out: an event's, one that is none, the last one, whose LF is missing, or nothing is left.
pub fn line_of(
    p: &Plan,
    s: &mut Cascade,
    bytes: &[u8],
    number: usize,
    ended: bool,
    write: bool,
    buffer: &mut [u8],
    at: usize,
) -> Option<usize>
    ensures { Ran (line_by write p.now bytes.now number ended s.old buffer.old at) result s.new buffer.new }
{
    if ended {
        return match event_lines::event_at(bytes) {
            Some(e) => event_line(p, s, number, e, write, buffer, at),
            None => log_lines::refused_line(number as u64, 1, write, buffer, at),
        };
    }
    if bytes.is_empty() {
        return Some(at);
    }
    log_lines::refused_line(number as u64, 1, write, buffer, at)
}
