// The due instant and the class sought, read off the root's two masks and the number of standing requests.
// No public function has a `requires`: each says its answer for every content of both tables.
#![tactic(auto)]

ghost use Rattle.std.specs.Prelude.{◌≡◌, true, false, ◌||◌, ◌+◌, ◌*◌, ◌/◌};
ghost use Rattle.cells.specs.Decode.{plan_in};
ghost use Rattle.cells.specs.Sought.{told_sought};
ghost use Rattle.cells.specs.Instants.{root_shows, sought_by};
ghost use Rattle.instants.specs.Bound.{if_before, due_before};

use cells::{Cascade, Class};
use plan_tree::Plan;

// The root is hub 1.
const NORMAL_MASK: usize = cells::HUBS + cells::MASK;

const HIGH_MASK: usize = cells::HUBS + cells::HIGH_MASK;

// Whether the root sees a request that counts.
fn some_counts(s: &Cascade) -> bool
    ensures { result ≡ (root_shows true s.now || root_shows false s.now) }
{
    s[HIGH_MASK] != 0 || s[NORMAL_MASK] != 0
}

// The instant d, if it is strictly before t.
fn if_before(d: u64, t: u64) -> Option<u64>
    ensures { result ≡ if_before t d }
{
    (d < t).then_some(d)
}

// The start of the frame behind the clock's, if it is strictly before t. One that doesn't fit 64 bits is before none.
fn start_before(frame: u32, clock: u64, t: u64) -> Option<u64>
    ensures { result ≡ if_before t ((clock / frame + 1) * frame) }
{
    let start = frames::frame_of(frame, clock) * frame as u64;
    if_before(start.checked_add(frame as u64)?, t)
}

// The due instant where it is strictly before t: what row 12 asks of an event, and what a step with bound t handles.
pub fn due_before(p: &Plan, s: &Cascade, t: u64) -> Option<u64>
    ensures { result ≡ due_before (plan_in p.now) t s.now }
{
    if s[cells::BUSY] != 0 {
        return if_before(requests::line_end(s), t);
    }
    let clock = requests::clock(s);
    if some_counts(s) {
        return if_before(clock, t);
    }
    if s[cells::STANDING] == 0 {
        return None;
    }
    start_before(p[plan::FRAME], clock, t)
}

// The class that a grant goes to; none where no request counts.
pub fn sought(s: &Cascade) -> Option<Class>
    ensures { told_sought result ≡ sought_by s.now }
{
    if s[HIGH_MASK] != 0 {
        return Some(Class::High);
    }
    if s[NORMAL_MASK] != 0 {
        return Some(Class::Normal);
    }
    None
}
