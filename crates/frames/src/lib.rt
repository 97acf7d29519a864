// Frames: the clock, what a frame's start changes, and the sum of all reservations.
// No public function has a `requires`: each says its answer and the whole
// table that it leaves, for every content, by a definition of `cells`.
#![tactic(auto)]

ghost use Rattle.std.specs.Prelude.{◌≡◌, true, ◌+◌, ◌*◌, ◌/◌, ◌%◌, ◌≤◌, ltb};
ghost use Rattle.rules.specs.Core.{reclassed};
ghost use Rattle.rules.specs.Rows.{loads};
ghost use Rattle.cells.specs.Layout.{half, request_of, request_code, share_of};
ghost use Rattle.cells.specs.Decode.{plan_in, core_of};
ghost use Rattle.cells.specs.Waits.{turn_all, start_by};
ghost use Rattle.cells.specs.Frames.{start_frame, new_frame, advance_by};

use cells::Cascade;
use plan_tree::Plan;

// The frame that a time lies in. A plan that was taken has no frame of 0.
pub fn frame_of(frame: u32, t: u64) -> u64
    ensures { result ≡ t / frame }
{
    if frame == 0 {
        return 0;
    }
    t / frame as u64
}

// The class in which a standing request goes on, by the reservation that comes into force: what its cell has above its bits.
fn class_then(share: u32, x: u32) -> u32
    requires { half ≤ x }
    ensures half_value { result + x % half ≡ request_code (reclassed (share_of share) (request_of x)) }
    ensures upper_bound { result ≤ 131072 }
{
    if x < cells::HIGH || share < cells::HALF || share % cells::HALF < x % cells::HALF {
        return cells::NORMAL;
    }
    cells::HIGH
}

// What becomes of a request's cell at a frame's start. One sum for every class is what the compiler makes the shortest loop of.
fn reclassed(share: u32, x: u32) -> u32
    ensures { result ≡ request_code (reclassed (share_of share) (request_of x)) }
{
    if x < cells::NORMAL {
        return 0;
    }
    class_then(share, x) + x % cells::HALF
}

// Each node's cells, and then the masks.
fn start_frame(p: &Plan, s: &mut Cascade)
    ensures { s.new ≡ start_frame p.now s.old }
{
    for at in (0..masks::nodes(p) as usize).rev() {
        let share = s[cells::LATEST + at];
        s[cells::REQUEST + at] = reclassed(share, s[cells::REQUEST + at]);
        s[cells::FORCE + at] = share;
        s[cells::GRANTED + at] = 0;
    }
    masks::build(p, s);
}

// Whether the frame of the clock ends at t at the latest: one division, and none where the clock doesn't move.
fn ends_by(frame: u32, clock: u64, t: u64) -> bool
    ensures { result ≡ ltb (clock / frame) (t / frame) }
{
    if t <= clock || frame == 0 {
        return false;
    }
    let start = clock / frame as u64 * frame as u64;
    frame as u64 <= t - start
}

// Whether the clock's frame ends at t or before.
pub fn new_frame(p: &Plan, s: &Cascade, t: u64) -> bool
    ensures { result ≡ new_frame (plan_in p.now) t s.now }
{
    ends_by(p[plan::FRAME], requests::clock(s), t)
}

// The start of the frame behind the clock's, where that frame ends at t at the latest.
fn next_start(frame: u32, clock: u64, t: u64) -> u64
    requires { ltb (clock / frame) (t / frame) ≡ true }
    ensures { result ≡ (clock / frame + 1) * frame }
{
    if frame == 0 {
        return 0;
    }
    (clock / frame as u64 + 1) * frame as u64
}

// A frame starts before t or at t: the requests that it makes normal get its start, and then it has its work done.
fn start_at(p: &Plan, s: &mut Cascade, t: u64)
    requires { new_frame (plan_in p.now) t s.old ≡ true }
    ensures { s.new ≡ start_frame p.now (turn_all p.now (start_by p.now s.old) s.old) }
{
    let start = next_start(p[plan::FRAME], requests::clock(s), t);
    waits::turn(p, s, start);
    start_frame(p, s);
}

// The clock comes to t.
pub fn advance(p: &Plan, s: &mut Cascade, t: u64)
    ensures { s.new ≡ advance_by p.now t s.old }
{
    if new_frame(p, s, t) {
        start_at(p, s, t);
    }
    requests::put_clock(s, t);
}

// n × (b + O) of a reservation's cell.
pub fn load(overhead: u32, share: u32) -> u64
    ensures { result ≡ share / half * (share % half + overhead) }
{
    (share / cells::HALF) as u64 * ((share % cells::HALF) as u64 + overhead as u64)
}

// The sum of n × (b + O) over all nodes, by their latest accepted reservations.
pub fn loads(p: &Plan, s: &Cascade) -> u64
    ensures value { result ≡ loads (plan_in p.now) (core_of (plan_in p.now) s.now).latest }
    ensures upper_bound { result ≤ 288230376151711744 }
{
    let mut all: u64 = 0;
    for at in 0..masks::nodes(p) as usize {
        all += load(p[plan::OVERHEAD], s[cells::LATEST + at]);
    }
    all
}
