// The times at which the nodes' standing requests were first put up (request 1 of document 02), in the last two tables of the cells.
// No public function has a `requires`: each says its answer or the whole
// table that it leaves, for every content, by a definition of `cells`.
#![tactic(auto)]

ghost use Rattle.std.specs.Prelude.{◌≡◌, ◌+◌, ◌%◌, ltb, if◌then◌else◌};
ghost use Rattle.cells.specs.Layout.{half};
ghost use Rattle.cells.specs.Waits.{turn_all, record_since, wait_at};

use cells::{Cascade, Node};
use plan_tree::Plan;

// One more than the bits of a cell that is at least so much, and 0 of any other. Of a reservation it is its b plus one, or 0 where
// n is 0; of a request its own length plus one if it is high, else 0: so one test tells whether a frame's start turns it.
fn bits_above(x: u32, least: u32) -> u32
    ensures { result ≡ (if ltb x least then 0 else x % half + 1) }
{
    if x < least {
        return 0;
    }
    x % cells::HALF + 1
}

// A choice of two numbers, both at hand: of such choices and of the one test the compiler makes a loop over four nodes at a time.
fn pick(b: bool, x: u32, y: u32) -> u32
    ensures { result ≡ (if b then x else y) }
{
    if b { x } else { y }
}

// A frame starts: the requests that it makes normal get its start.
pub fn turn(p: &Plan, s: &mut Cascade, start: u64)
    ensures { s.new ≡ turn_all p.now start s.old }
{
    let (low, high) = requests::halves(start);
    for at in (0..masks::nodes(p) as usize).rev() {
        let most = bits_above(s[cells::LATEST + at], cells::HALF);
        let own = bits_above(s[cells::REQUEST + at], cells::HIGH);
        let turned = most < own;
        let new_low = pick(turned, low, s[cells::SINCE + at]);
        let new_high = pick(turned, high, s[cells::SINCE_HIGH + at]);
        s[cells::SINCE + at] = new_low;
        s[cells::SINCE_HIGH + at] = new_high;
    }
}

// A request whose cell is to be x is put up by node k at t: where one of its class stands already, that one's time is kept.
pub fn record(s: &mut Cascade, k: u32, x: u32, t: u64)
    ensures { s.new ≡ record_since k x t s.old }
{
    let Some(node) = Node::new(k) else {
        return;
    };
    let at = node.number as usize - 1;
    if requests::stands_in(cells::HIGH <= x, s[cells::REQUEST + at]) {
        return;
    }
    let (low, high) = requests::halves(t);
    s[cells::SINCE + at] = low;
    s[cells::SINCE_HIGH + at] = high;
}

// The wait of node k at d; a number that is no node has none.
pub fn wait(s: &Cascade, d: u64, k: u32) -> u64
    ensures { result ≡ wait_at d k s.now }
{
    let Some(node) = Node::new(k) else {
        return 0;
    };
    let at = node.number as usize - 1;
    d.saturating_sub(requests::wide(s[cells::SINCE + at], s[cells::SINCE_HIGH + at]))
}
