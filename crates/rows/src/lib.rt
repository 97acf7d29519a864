// "Where each no is said", of all calls but a reserve: the first row that applies, if one does.
// No public function has a `requires`: each says its answer for every content of both tables.
#![tactic(auto)]

ghost use Rattle.std.specs.Prelude.{◌≡◌, ◌||◌, ltb, get_or, if◌then◌else◌};
ghost use Rattle.rules.specs.Drawn.{Within};
ghost use Rattle.rules.specs.Call.{ask, off, until};
ghost use Rattle.rules.specs.Rows.{last_time, row13, row15, row16};
ghost use Rattle.cells.specs.Layout.{time_at, clock_cell, class_of, force_cell, latest_cell};
ghost use Rattle.cells.specs.Decode.{plan_in, core_of};
ghost use Rattle.cells.specs.Frames.{new_frame};
ghost use Rattle.cells.specs.Step.{number};
ghost use Rattle.cells.specs.Calls.{row_by};

use cells::{Cascade, Refusal};
use plan_tree::Plan;

// 11: t above 10^15, or before the clock.
pub fn out_of_time(s: &Cascade, t: u64) -> bool
    ensures { result ≡ (ltb last_time t || ltb t (time_at s.now clock_cell)) }
{
    !(requests::clock(s)..=1000000000000000).contains(&t)
}

// 11, then 12: an instant strictly before t is due.
pub fn time_row(p: &Plan, s: &Cascade, t: u64) -> Result<(), Refusal>
    ensures { number result ≡ row_by p.now (until t) s.now }
{
    if out_of_time(s, t) {
        return Err(Refusal::OutOfTime);
    }
    match instants::due_before(p, s, t) {
        Some(_) => Err(Refusal::StillDue),
        None => Ok(()),
    }
}

// 13: k is 0 or above N.
pub fn no_node(p: &Plan, k: u64) -> bool
    ensures { result ≡ (row13 (plan_in p.now) k).applies }
{
    !(1..=masks::nodes(p) as u64).contains(&k)
}

// 11, 12, then 13.
pub fn node_row(p: &Plan, s: &Cascade, t: u64, k: u64) -> Result<(), Refusal>
    ensures { number result ≡ row_by p.now (off t k) s.now }
{
    time_row(p, s, t)?;
    if no_node(p, k) {
        return Err(Refusal::NoNode);
    }
    Ok(())
}

// 15: b outside 512 to the plan's longest packet.
pub fn outside(p: &Plan, b: u64) -> bool
    ensures { result ≡ (row15 (plan_in p.now) b).applies }
{
    !(512..=header::longest(p[plan::FRAMING])).contains(&b)
}

// The cell of node k's reservation in force at t.
fn share_at(p: &Plan, s: &Cascade, t: u64, k: u32) -> u32
    requires { Within (plan_in p.now).nodes k }
    ensures { result ≡ (if new_frame (plan_in p.now) t s.now then get_or s.now (latest_cell k) 0 else get_or s.now (force_cell k) 0) }
{
    let at = k as usize - 1;
    if frames::new_frame(p, s, t) {
        return s[cells::LATEST + at];
    }
    s[cells::FORCE + at]
}

// 16, of a request of a node of the plan: a high one in a strict plan with n = 0 in force, or longer than the b in force.
fn unreserved(p: &Plan, s: &Cascade, high: bool, t: u64, k: u32, b: u64) -> bool
    requires { Within (plan_in p.now).nodes k }
    ensures { result ≡ (row16 (plan_in p.now) (core_of (plan_in p.now) s.now) (class_of high) t k b).applies }
{
    if !high {
        return false;
    }
    let share = share_at(p, s, t, k);
    if share < cells::HALF {
        return p[plan::STRICT] != 0;
    }
    ((share % cells::HALF) as u64) < b
}

// 11 to 16, of a normal or high request.
pub fn ask_row(p: &Plan, s: &Cascade, high: bool, t: u64, k: u64, b: u64) -> Result<(), Refusal>
    ensures { number result ≡ row_by p.now (ask (class_of high) t k b) s.now }
{
    node_row(p, s, t, k)?;
    if outside(p, b) {
        return Err(Refusal::Outside);
    }
    if unreserved(p, s, high, t, k as u32, b) {
        return Err(Refusal::Unreserved);
    }
    Ok(())
}
