// The masks built anew at a frame's start: they are cleared, then a pass over the nodes shows
// their requests, and a pass over the hubs their summaries.
// No public function has a `requires`: each says its answer or the whole
// table that it leaves, for every content, by a definition of `cells`.
#![tactic(auto)]

ghost use Rattle.std.specs.Prelude.{◌≡◌, ◌≤◌};
ghost use Rattle.rules.specs.Plan.{most_hubs};
ghost use Rattle.cells.specs.Decode.{plan_in};
ghost use Rattle.cells.specs.Build.{clear_masks, show_port, show_nodes, show_hubs, hubs_in, build_masks};

use cells::{Cascade, Hub};
use plan_tree::Plan;

// How many nodes the plan has; no more than the table has cells for.
pub fn nodes(p: &Plan) -> u32
    ensures { result ≡ (plan_in p.now).nodes }
{
    p[plan::NODE_COUNT].min(cells::MOST_NODES)
}

// How many hubs it has; no more than the table has cells for.
fn hubs(p: &Plan) -> u32
    ensures { result ≡ hubs_in p.now }
{
    p[plan::HUB_COUNT].min(cells::MOST_HUBS)
}

// Hubs n to 1 show nothing.
fn clear_masks(s: &mut Cascade, n: u32)
    requires { n ≤ most_hubs }
    ensures { s.new ≡ clear_masks n s.old }
{
    for hub in (0..n as usize).rev() {
        let at = cells::HUBS + hub * cells::PER_HUB;
        s[at + cells::MASK] = 0;
        s[at + cells::HIGH_MASK] = 0;
    }
}

// Port q of hub g shows what it showed, or b.
fn show_port(s: &mut Cascade, high: bool, g: u32, q: u32, b: bool)
    ensures { s.new ≡ show_port high g q b s.old }
{
    let Some(hub) = Hub::new(g) else {
        return;
    };
    let at = hub.mask(high);
    s[at] = ports::with_port(s[at], q, b);
}

// The nodes, from the last to the first: the port of each shows in its class whether a request stands.
// There is no test for it: the processor couldn't foresee its outcome, and each wrong guess costs more than an or of nothing.
fn show_nodes(p: &Plan, s: &mut Cascade)
    ensures { s.new ≡ show_nodes p.now (plan_in p.now).nodes s.old }
{
    for at in (0..nodes(p) as usize).rev() {
        let own = plan_tree::NODES + at * plan_tree::PER_NODE;
        let x = s[cells::REQUEST + at];
        show_port(
            s,
            cells::HIGH <= x,
            p[own + plan_tree::NODE_HUB],
            p[own + plan_tree::NODE_PORT],
            cells::NORMAL <= x,
        );
    }
}

// Hubs n to 1: in its parent the port of each shows the classes that it shows itself. A hub's number is above its parent's.
fn show_hubs(p: &Plan, s: &mut Cascade, n: u32)
    requires { n ≤ most_hubs }
    ensures { s.new ≡ show_hubs p.now n s.old }
{
    for hub in (0..n as usize).rev() {
        let at = cells::HUBS + hub * cells::PER_HUB;
        let own = plan_tree::HUBS + hub * plan_tree::PER_HUB;
        let normal = ports::any_shown(s[at + cells::MASK]);
        let high = ports::any_shown(s[at + cells::HIGH_MASK]);
        show_port(
            s,
            false,
            p[own + plan_tree::PARENT],
            p[own + plan_tree::PLACE],
            normal,
        );
        show_port(
            s,
            true,
            p[own + plan_tree::PARENT],
            p[own + plan_tree::PLACE],
            high,
        );
    }
}

// The masks of what stands: where every standing request counts, as at a frame's start, they are right.
pub fn build(p: &Plan, s: &mut Cascade)
    ensures { s.new ≡ build_masks p.now s.old }
{
    let n = hubs(p);
    clear_masks(s, n);
    show_nodes(p, s);
    show_hubs(p, s, n);
}
