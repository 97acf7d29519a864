// A list of calls as one call: a caller in another language crosses the border once for many.
#![tactic(auto)]

ghost use Rattle.std.specs.Prelude.{◌≡◌, ◌+◌, ◌*◌, ◌≤◌, true, length, get_or, Ok};
ghost use Rattle.event.specs.Call.{call_of};
ghost use Rattle.cells.specs.Step.{list_answer, told_step};
ghost use Rattle.cells.specs.Calls.{perform_by};
ghost use Rattle.call_list.specs.Table.{numbered, call_at, count_of, is_kind, kinds_from, list_number, told_seven, step_seven, number_seven, told_of, put_seven};
ghost use Rattle.call_list.specs.Promise.{ListPromise};

use cells::{Cascade, Misfit, Step};
use event::Event;
use plan_tree::Plan;

// An answer as it stands in a table. What its case doesn't have is 0.
#[derive(Clone, Copy, Debug, Default, PartialEq, Eq)]
pub struct Seven {
    pub number: u32,
    pub time: u64,
    pub node: u32,
    pub class: u32,
    pub end: u64,
    pub moves: u64,
    pub wait: u64,
}

impl Seven {
    // An answer that has only a number.
    fn of_number(number: u32) -> Seven
        ensures { told_seven result ≡ number_seven number }
    {
        Seven {
            number,
            ..Seven::default()
        }
    }

    // Into the place of answer i of a table.
    fn put(self, answers: &mut [u64], i: usize)
        requires { i * 7 + 7 ≤ length answers.old }
        ensures { answers.new ≡ put_seven i (told_seven self) answers.old }
    {
        let at = i * 7;
        answers[at] = self.number as u64;
        answers[at + 1] = self.time;
        answers[at + 2] = self.node as u64;
        answers[at + 3] = self.class as u64;
        answers[at + 4] = self.end;
        answers[at + 5] = self.moves;
        answers[at + 6] = self.wait;
    }
}

impl From<Step> for Seven {
    ghost from_gives = { λ step x. told_seven x ≡ step_seven (told_step (Ok step)) };

    fn from(step: Step) -> Seven {
        match step {
            Step::Grant {
                time,
                node,
                class,
                end,
                moves,
                wait,
            } => Seven {
                number: 1,
                time,
                node,
                class: u32::from(class),
                end,
                moves,
                wait,
            },
            Step::Rest { time, moves } => Seven {
                time,
                moves,
                ..Seven::of_number(2)
            },
            Step::Quiet => Seven::of_number(3),
        }
    }
}

// Whether each call is of some kind.
fn kinds(calls: &[u64]) -> bool
    ensures { result ≡ kinds_from calls.now 0 (count_of calls.now) }
{
    (0..calls.len() / 5).all(|i| (1..=6).contains(&calls[i * 5]))
}

// Why nothing is done, if so.
fn fitting(calls: &[u64], answers: &[u64]) -> Result<(), Misfit>
    ensures { list_answer result ≡ list_number calls.now answers.now }
{
    if calls.len() % 5 != 0 || !kinds(calls) {
        return Err(Misfit::Malformed);
    }
    if answers.len() < calls.len() / 5 * 7 {
        return Err(Misfit::TooLong);
    }
    Ok(())
}

// The event that a call's five numbers are. A number that its kind doesn't have is not looked at.
fn decoded(kind: u64, t: u64, k: u64, n: u64, b: u64) -> Event
    requires { (1 ≤ kind) × (kind ≤ 5) }
    ensures { call_of result ≡ numbered kind t k n b }
{
    match kind {
        1 => Event::Normal { t, k, b },
        2 => Event::High { t, k, b },
        3 => Event::Off { t, k },
        4 => Event::Reserve { t, k, n, b },
        _ => Event::Until { t },
    }
}

// Call i, and its answer's numbers.
fn make(p: &Plan, s: &mut Cascade, calls: &[u64], i: usize) -> Seven
    requires { (i * 5 + 5 ≤ length calls.now) × (is_kind (get_or calls.now (i * 5) 0) ≡ true) }
    ensures s_value { told_of (perform_by p.now (call_at calls.now i) s.old) ≡ told_seven result }
    ensures s_after { s.new ≡ (perform_by p.now (call_at calls.now i) s.old).cells }
{
    let at = i * 5;
    let kind = calls[at];
    let t = calls[at + 1];
    if kind == 6 {
        return match hub::step(p, s, t) {
            Ok(step) => Seven::from(step),
            Err(refusal) => Seven::of_number(u32::from(refusal)),
        };
    }
    let k = calls[at + 2];
    let n = calls[at + 3];
    let b = calls[at + 4];
    Seven::of_number(cells::number(hub::event(p, s, decoded(kind, t, k, n, b))))
}

// The calls of the table, in order, with their answers into the other table. Where the tables misfit nothing is done.
pub fn list(p: &Plan, s: &mut Cascade, calls: &[u64], answers: &mut [u64]) -> Result<(), Misfit>
    ensures { ListPromise p.now s.old calls.now answers.old (list_answer result) s.new answers.new }
{
    fitting(calls, answers)?;
    for i in 0..calls.len() / 5 {
        make(p, s, calls, i).put(answers, i);
    }
    Ok(())
}
