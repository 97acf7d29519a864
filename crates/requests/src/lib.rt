// Requests in the cascade's table, its times, and the masks that a change at a node mends from its hub up.
// No public function has a `requires`: each says the whole table that it leaves, for every content, by a definition of `cells`.
#![tactic(auto)]

ghost use Rattle.std.specs.Prelude.{◌≡◌, true, false, ◌+◌, ◌*◌, ◌/◌, ◌%◌, ◌≤◌};
ghost use Rattle.cells.specs.Layout.{two_32, time_at, put_time, clock_cell, end_cell};
ghost use Rattle.cells.specs.Masks.{stands_in, counts_by, alike, mend, mend_bit, mend_class, standing_after, put_request, granted_more, grant_node};
ghost use Rattle.cells.specs.Fresh.{fresh_cells};
ghost use Rattle.cells.specs.Calls.{busy_until};

use cells::{Cascade, Hub, Node};
use plan_tree::Plan;

// The time whose two cells hold these: the low 32 bits, and the high ones.
pub fn wide(low: u32, high: u32) -> u64
    ensures { result ≡ low + high * two_32 }
{
    low as u64 + high as u64 * cells::TWO_32
}

// What the two cells of a time hold.
pub fn halves(t: u64) -> (u32, u32)
    ensures low { result.0 ≡ t % two_32 }
    ensures high { result.1 ≡ t / two_32 }
{
    ((t % cells::TWO_32) as u32, (t / cells::TWO_32) as u32)
}

// This and the next are one line each: a place handed over would only hide which time it is.
pub fn clock(s: &Cascade) -> u64
    ensures { result ≡ time_at s.now clock_cell }
{
    wide(s[cells::CLOCK], s[cells::CLOCK_HIGH])
}

pub fn line_end(s: &Cascade) -> u64
    ensures { result ≡ time_at s.now end_cell }
{
    wide(s[cells::END], s[cells::END_HIGH])
}

// The time whose cells begin at `at` becomes t.
fn put_time(s: &mut Cascade, at: usize, t: u64)
    requires { at ≤ end_cell }
    ensures { s.new ≡ put_time at t s.old }
{
    let (low, high) = halves(t);
    s[at] = low;
    s[at + cells::HIGH_HALF] = high;
}

pub fn put_clock(s: &mut Cascade, t: u64)
    ensures { s.new ≡ put_time clock_cell t s.old }
{
    put_time(s, cells::CLOCK, t);
}

pub fn busy_until(s: &mut Cascade, end: u64)
    ensures { s.new ≡ busy_until end s.old }
{
    s[cells::BUSY] = 1;
    put_time(s, cells::END, end);
}

// Whether a request's cell stands for a request of a class.
pub fn stands_in(high: bool, x: u32) -> bool
    ensures { result ≡ stands_in high x }
{
    if high {
        return cells::HIGH <= x;
    }
    (cells::NORMAL..cells::HIGH).contains(&x)
}

// Whether a request counts in a class, by its node's cells.
fn counts(high: bool, x: u32, granted: u32, force: u32) -> bool
    ensures { result ≡ counts_by high x granted force }
{
    stands_in(high, x) && (!high || granted < force / cells::HALF)
}

// Both masks show some port, or neither does.
fn alike(old: u32, mask: u32) -> bool
    ensures { result ≡ alike old mask }
{
    ports::any_shown(old) == ports::any_shown(mask)
}

// Port q of hub g shows in a class a request or none: its bit is put. Only where what the hub shows at all
// changes does its parent's mask change, and it changes as the bit did: so b goes up as it is.
fn mend(p: &Plan, s: &mut Cascade, high: bool, g: u32, q: u32, b: bool, levels: u32)
    ensures { s.new ≡ mend p.now high levels g q b s.old }
{
    if levels == 0 {
        return;
    }
    let Some(hub) = Hub::new(g) else {
        return;
    };
    let at = hub.mask(high);
    let old = s[at];
    let mask = ports::put_port(old, q, b);
    s[at] = mask;
    if alike(old, mask) {
        return;
    }
    let own = plan_tree::HUBS + (hub.number as usize - 1) * plan_tree::PER_HUB;
    mend(
        p,
        s,
        high,
        p[own + plan_tree::PARENT],
        p[own + plan_tree::PLACE],
        b,
        levels - 1,
    );
}

// A node's bit in a class, by its request x, its high grants in the frame and its reservation in force.
fn put_bit(p: &Plan, s: &mut Cascade, high: bool, node: Node, x: u32)
    ensures { s.new ≡ mend_bit p.now high node.number x s.old }
{
    let at = node.number as usize - 1;
    let own = plan_tree::NODES + at * plan_tree::PER_NODE;
    let b = counts(high, x, s[cells::GRANTED + at], s[cells::FORCE + at]);
    mend(
        p,
        s,
        high,
        p[own + plan_tree::NODE_HUB],
        p[own + plan_tree::NODE_PORT],
        b,
        5,
    );
}

// A node's bits where x comes in place of `old`. Nearly always one of the two stands, and one class is concerned.
// Each way through the tests names its class, so that the compiler knows there what the bit becomes.
fn put_bits(p: &Plan, s: &mut Cascade, node: Node, old: u32, x: u32)
    ensures { s.new ≡ mend_class p.now true node.number old x (mend_class p.now false node.number old x s.old) }
{
    if x < cells::NORMAL {
        if old < cells::NORMAL {
            return;
        }
        if old < cells::HIGH {
            put_bit(p, s, false, node, x);
            return;
        }
        put_bit(p, s, true, node, x);
        return;
    }
    if x < cells::HIGH {
        put_bit(p, s, false, node, x);
        if old < cells::HIGH {
            return;
        }
        put_bit(p, s, true, node, x);
        return;
    }
    if old < cells::NORMAL || cells::HIGH <= old {
        put_bit(p, s, true, node, x);
        return;
    }
    put_bit(p, s, false, node, x);
    put_bit(p, s, true, node, x);
}

// The number of standing requests where a request's cell changes.
fn standing_after(n: u32, old: u32, new: u32) -> u32
    ensures { result ≡ standing_after n old new }
{
    match (cells::NORMAL <= old, cells::NORMAL <= new) {
        (true, false) => n.saturating_sub(1),
        (false, true) if n < cells::MOST_NODES => n + 1,
        _ => n,
    }
}

// A node's request becomes x.
fn replace(p: &Plan, s: &mut Cascade, node: Node, x: u32)
    ensures { s.new ≡ put_request p.now node.number x s.old }
{
    let at = cells::REQUEST + (node.number as usize - 1);
    let old = s[at];
    s[cells::STANDING] = standing_after(s[cells::STANDING], old, x);
    s[at] = x;
    put_bits(p, s, node, old, x);
}

// Node k's request becomes x. A number that is no node changes nothing.
pub fn put_request(p: &Plan, s: &mut Cascade, k: u32, x: u32)
    ensures { s.new ≡ put_request p.now k x s.old }
{
    let Some(node) = Node::new(k) else {
        return;
    };
    replace(p, s, node, x);
}

fn granted_more(high: bool, n: u32) -> u32
    ensures { result ≡ granted_more high n }
{
    if high && n < cells::MOST_GRANTED {
        return n + 1;
    }
    n
}

// Node k is granted in a class: its request is removed, and a high grant is counted.
pub fn grant_node(p: &Plan, s: &mut Cascade, high: bool, k: u32)
    ensures { s.new ≡ grant_node p.now high k s.old }
{
    let Some(node) = Node::new(k) else {
        return;
    };
    let at = cells::GRANTED + (node.number as usize - 1);
    s[at] = granted_more(high, s[at]);
    replace(p, s, node, 0);
}

// The table before any event: each pointer is port 1, without mark. Nothing of it is the plan's.
pub fn fresh(s: &mut Cascade)
    ensures { s.new ≡ fresh_cells }
{
    *s = [0u32; cells::CELLS];
    s[cells::HOLDER] = 1;
    for hub in (0..cells::MOST_HUBS as usize).rev() {
        let at = cells::HUBS + hub * cells::PER_HUB;
        s[at + cells::POINTER] = cells::PORT_1;
        s[at + cells::HIGH_POINTER] = cells::PORT_1;
    }
}
