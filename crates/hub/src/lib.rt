// The cascade hub: the five events and the step.
// No public function has a `requires`: each says its answer and the whole table
// that it leaves, for every content of both tables, by a definition of `cells`.
#![tactic(auto)]

ghost use Rattle.std.specs.Prelude.{◌≡◌, ◌≤◌, ◌<◌, set};
ghost use Rattle.rules.specs.Plan.{most_nodes};
ghost use Rattle.rules.specs.Call.{ask, off, reserve, until, normal, high};
ghost use Rattle.event.specs.Call.{call_of};
ghost use Rattle.cells.specs.Layout.{half, class_of, latest_cell};
ghost use Rattle.cells.specs.Step.{number, told_step};
ghost use Rattle.cells.specs.Calls.{put_up_code, EventPromise, StepPromise};

use cells::{Cascade, Refusal, Step};
use event::Event;
use plan_tree::Plan;

mod handling;

// The cell of the request that is put up: a high one of a node with nothing reserved in force is taken as a normal one.
fn request_code(s: &Cascade, high: bool, k: u32, b: u64) -> u32
    requires { (1 ≤ k) × (k ≤ most_nodes) × (b < half) }
    ensures { result ≡ put_up_code (class_of high) k b s.now }
{
    if high && cells::HALF <= s[cells::FORCE + (k as usize - 1)] {
        return cells::HIGH + b as u32;
    }
    cells::NORMAL + b as u32
}

// A request of either class, or the row that refuses it.
#[tactic(auto, using(rows::proofs::CallRows::ask_asked))]
fn ask(p: &Plan, s: &mut Cascade, high: bool, t: u64, k: u64, b: u64) -> Result<(), Refusal>
    ensures { EventPromise p.now (ask (class_of high) t k b) s.old (number result) s.new }
{
    rows::ask_row(p, s, high, t, k, b)?;
    frames::advance(p, s, t);
    let code = request_code(s, high, k as u32, b);
    waits::record(s, k as u32, code, t);
    requests::put_request(p, s, k as u32, code);
    Ok(())
}

// (normal t k b), or the row that refuses it, and then no cell changes. So are the others.
// It and `high` are `ask` under document 01's two names, which C's callers have too.
pub fn normal(p: &Plan, s: &mut Cascade, t: u64, k: u64, b: u64) -> Result<(), Refusal>
    ensures { EventPromise p.now (ask normal t k b) s.old (number result) s.new }
{
    ask(p, s, false, t, k, b)
}

// (high t k b)
pub fn high(p: &Plan, s: &mut Cascade, t: u64, k: u64, b: u64) -> Result<(), Refusal>
    ensures { EventPromise p.now (ask high t k b) s.old (number result) s.new }
{
    ask(p, s, true, t, k, b)
}

// (off t k). It is short, so a call of it costs as much as a third of it does.
#[inline(always)]
#[tactic(auto, using(rows::proofs::CallRows::off_node))]
pub fn off(p: &Plan, s: &mut Cascade, t: u64, k: u64) -> Result<(), Refusal>
    ensures { EventPromise p.now (off t k) s.old (number result) s.new }
{
    rows::node_row(p, s, t, k)?;
    frames::advance(p, s, t);
    requests::put_request(p, s, k as u32, 0);
    Ok(())
}

// Node k's latest accepted reservation becomes a cell.
fn put_latest(s: &mut Cascade, k: u32, share: u32)
    requires { (1 ≤ k) × (k ≤ most_nodes) }
    ensures { s.new ≡ set s.old (latest_cell k) share }
{
    s[cells::LATEST + (k as usize - 1)] = share;
}

// (reserve t k n b)
#[tactic(auto, using(admission::proofs::ReserveRows::reserve_reserved))]
pub fn reserve(p: &Plan, s: &mut Cascade, t: u64, k: u64, n: u64, b: u64) -> Result<(), Refusal>
    ensures { EventPromise p.now (reserve t k n b) s.old (number result) s.new }
{
    admission::reserve_row(p, s, t, k, n, b)?;
    frames::advance(p, s, t);
    put_latest(s, k as u32, admission::share_code(n as u16, b as u16));
    Ok(())
}

// (until t)
pub fn until(p: &Plan, s: &mut Cascade, t: u64) -> Result<(), Refusal>
    ensures { EventPromise p.now (until t) s.old (number result) s.new }
{
    rows::time_row(p, s, t)?;
    frames::advance(p, s, t);
    Ok(())
}

// A step with bound t.
pub fn step(p: &Plan, s: &mut Cascade, t: u64) -> Result<Step, Refusal>
    ensures { StepPromise p.now t s.old (told_step result) s.new }
{
    if rows::out_of_time(s, t) {
        return Err(Refusal::OutOfTime);
    }
    Ok(handling::step_due(p, s, t))
}

// An event, whichever it is, or the row that refuses it, and then no cell changes.
pub fn event(p: &Plan, s: &mut Cascade, e: Event) -> Result<(), Refusal>
    ensures { EventPromise p.now (call_of e) s.old (number result) s.new }
{
    match e {
        Event::Normal { t, k, b } => ask(p, s, false, t, k, b),
        Event::High { t, k, b } => ask(p, s, true, t, k, b),
        Event::Off { t, k } => off(p, s, t, k),
        Event::Reserve { t, k, n, b } => reserve(p, s, t, k, n, b),
        Event::Until { t } => until(p, s, t),
    }
}
