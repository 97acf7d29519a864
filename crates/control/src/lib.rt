// Control, hub by hub: a look finds the port by trailing zeros of the hub's mask, and the walk passes control until a node is found.
// No public function has a `requires`: each says its answer and the whole
// table that it leaves, for every content, by a definition of `cells`.
#![tactic(auto)]

ghost use Rattle.std.specs.Prelude.{◌≡◌, ◌≤◌, ◌<◌, get_or, set};
ghost use Rattle.rules.specs.Plan.{most_ports};
ghost use Rattle.rules.specs.Control.{most_looks};
ghost use Rattle.plan_tree.specs.Tables.{port_of, port_cell};
ghost use Rattle.cells.specs.Layout.{pointer_cell};
ghost use Rattle.cells.specs.Turns.{down_by, take_by, up_by, hand_up_by, look_by, walk_by, climb_by, nearer_by, nearest_by, walked, settled, choose_by};

use cells::{Cascade, Hub, Look, Turn};
use plan_tree::Plan;

// A turn ends within so many looks.
const MOST_LOOKS: u32 = 15;

// A hub's pointer of a class becomes x.
fn point(s: &mut Cascade, high: bool, hub: Hub, x: u32)
    ensures { s.new ≡ set s.old (pointer_cell high hub.number) x }
{
    let at = hub.pointer(high);
    s[at] = x;
}

// Rule 3, a hub found below at port q: the pointer is that port, marked; the hub below resumes if it was so before, and else starts afresh.
fn go_down(s: &mut Cascade, high: bool, hub: Hub, q: u32, below: Hub)
    requires { (1 ≤ q) × (q ≤ most_ports) }
    ensures { s.new ≡ down_by high hub.number q below.number s.old }
{
    let at = hub.pointer(high);
    let before = s[at];
    let marked = q * cells::PER_PORT + cells::MARK;
    s[at] = marked;
    if before == marked {
        return;
    }
    point(s, high, below, cells::PORT_1);
}

// Rule 3 at port q of a hub.
fn take(p: &Plan, s: &mut Cascade, high: bool, hub: Hub, q: u32) -> Look
    requires { (1 ≤ q) × (q ≤ most_ports) }
    ensures value { result ≡ (take_by high hub.number q (port_of (get_or p.now (port_cell hub.number q) 0)) s.old).look }
    ensures s_after { s.new ≡ (take_by high hub.number q (port_of (get_or p.now (port_cell hub.number q) 0)) s.old).cells }
{
    let own = plan_tree::HUBS + (hub.number as usize - 1) * plan_tree::PER_HUB;
    let x = p[own + (plan_tree::PORT + q as usize)];
    if x == plan_tree::EMPTY {
        return Look::Stop;
    }
    if x <= plan_tree::HUB_CODE {
        point(s, high, hub, (q + 1) * cells::PER_PORT);
        return Look::Node(x);
    }
    let Some(below) = Hub::new(x - plan_tree::HUB_CODE) else {
        return Look::Stop;
    };
    go_down(s, high, hub, q, below);
    Look::Pass(below.number)
}

// Rule 4 at a lower hub that stands at port q of hub h.
fn go_up(s: &mut Cascade, high: bool, h: u32, q: u32) -> Look
    ensures value { result ≡ (up_by high h q s.old).look }
    ensures s_after { s.new ≡ (up_by high h q s.old).cells }
{
    let Some(above) = Hub::new(h) else {
        return Look::Stop;
    };
    if cells::MOST_PORTS < q {
        return Look::Stop;
    }
    point(s, high, above, (q + 1) * cells::PER_PORT);
    Look::Pass(h)
}

// Rule 4 at a hub: the root goes to port 1, another hands control up.
fn hand_up(p: &Plan, s: &mut Cascade, high: bool, hub: Hub) -> Look
    ensures value { result ≡ (hand_up_by p.now high hub.number s.old).look }
    ensures s_after { s.new ≡ (hand_up_by p.now high hub.number s.old).cells }
{
    if hub.number == 1 {
        point(s, high, hub, cells::PORT_1);
        return Look::Round;
    }
    let own = plan_tree::HUBS + (hub.number as usize - 1) * plan_tree::PER_HUB;
    go_up(
        s,
        high,
        p[own + plan_tree::PARENT],
        p[own + plan_tree::PLACE],
    )
}

// One look at a hub.
fn look(p: &Plan, s: &mut Cascade, high: bool, hub: Hub) -> Look
    ensures value { result ≡ (look_by p.now high hub.number s.old).look }
    ensures s_after { s.new ≡ (look_by p.now high hub.number s.old).cells }
{
    let mask = s[hub.mask(high)];
    let pointer = s[hub.pointer(high)];
    match ports::lowest(mask, pointer / cells::PER_PORT) {
        Some(q) => take(p, s, high, hub, q),
        None => hand_up(p, s, high, hub),
    }
}

// A turn that nobody has, or not yet: control at a hub, after so many moves.
fn nobody(hub: u32, moves: u64) -> Turn
    ensures { result ≡ record { node = 0; hub = hub; moves = moves } }
{
    Turn {
        node: 0,
        hub,
        moves,
    }
}

// Rules 3 and 4, repeated, with control at hub `from` after so many moves. A loop with one call of it keeps the turn in registers:
// a walk that calls itself hands its answer back through memory at each look.
fn walk(p: &Plan, s: &mut Cascade, high: bool, from: u32, before: u64) -> Turn
    requires { before < 4294967296 }
    ensures value { result ≡ (walk_by p.now high most_looks from before s.old).turn }
    ensures s_after { s.new ≡ (walk_by p.now high most_looks from before s.old).cells }
{
    let mut g = from;
    let mut moves = before;
    for _ in 0..MOST_LOOKS {
        let Some(hub) = Hub::new(g) else {
            return nobody(g, moves);
        };
        match look(p, s, high, hub) {
            Look::Node(k) => {
                return Turn {
                    node: k,
                    hub: g,
                    moves,
                };
            }
            Look::Pass(h) => {
                g = h;
                moves += 1;
            }
            Look::Round => {
                g = 1;
            }
            Look::Stop => {
                return nobody(g, moves);
            }
        }
    }
    nobody(g, moves)
}

// Moves from hub g up to the root: one for each level.
pub fn climb(p: &Plan, g: u32) -> u64
    ensures value { result ≡ climb_by p.now g }
    ensures upper_bound { result < 4294967296 }
{
    let Some(hub) = Hub::new(g) else {
        return 0;
    };
    let own = plan_tree::HUBS + (hub.number as usize - 1) * plan_tree::PER_HUB;
    p[own + plan_tree::LEVEL].saturating_sub(1) as u64
}

// Rule 2, one hub g of the holder's line, which goes on at port q: t stays the nearest hub if g's pointer is marked and there.
fn nearer(pointer: u32, g: u32, q: u32, t: u32) -> u32
    ensures { result ≡ nearer_by pointer g q t }
{
    let mark = pointer % cells::PER_PORT;
    let port = pointer / cells::PER_PORT;
    if mark != 0 && port == q {
        return t;
    }
    g
}

// From hub g up to the root, t being the nearest hub of those passed.
fn nearest(p: &Plan, s: &Cascade, high: bool, g: u32, q: u32, t: u32, levels: u32) -> u32
    ensures { result ≡ nearest_by p.now high levels g q t s.now }
{
    if levels == 0 {
        return 1;
    }
    let Some(hub) = Hub::new(g) else {
        return 1;
    };
    let u = nearer(s[hub.pointer(high)], g, q, t);
    if g == 1 {
        return u;
    }
    let own = plan_tree::HUBS + (hub.number as usize - 1) * plan_tree::PER_HUB;
    nearest(
        p,
        s,
        high,
        p[own + plan_tree::PARENT],
        p[own + plan_tree::PLACE],
        u,
        levels - 1,
    )
}

// Rule 2: where the class sought differs from that of the latest grant, control goes up to the nearest hub first. The walk starts there.
fn start(p: &Plan, s: &Cascade, high: bool) -> Turn
    ensures s_value { walked p.now high s.now ≡ walk_by p.now high most_looks result.hub result.moves s.now }
    ensures moves_bound { result.moves < 4294967296 }
{
    let holder = s[cells::HOLDER];
    if s[cells::CLASS] == high as u32 {
        return nobody(holder, 0);
    }
    let near = nearest(p, s, high, holder, 0, holder, 5);
    let moves = climb(p, holder).saturating_sub(climb(p, near));
    nobody(near, moves)
}

// Who has control after a turn, and of what class the latest grant was.
fn settle(s: &mut Cascade, high: bool, t: Turn)
    ensures { s.new ≡ settled high t s.old }
{
    s[cells::HOLDER] = t.hub;
    if t.node == 0 {
        return;
    }
    s[cells::CLASS] = high as u32;
}

// The turn of a class that is sought.
pub fn choose(p: &Plan, s: &mut Cascade, high: bool) -> Turn
    ensures value { result ≡ (choose_by p.now high s.old).turn }
    ensures s_after { s.new ≡ (choose_by p.now high s.old).cells }
{
    let from = start(p, s, high);
    let t = walk(p, s, high, from.hub, from.moves);
    settle(s, high, t);
    t
}
