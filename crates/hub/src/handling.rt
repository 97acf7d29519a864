// The step: the due instant is handled by a grant or a rest.
ghost use Rattle.std.specs.Prelude.{◌≡◌, ◌+◌, ◌≤◌, Ok};
ghost use Rattle.rules.specs.Rows.{last_time};
ghost use Rattle.cells.specs.Sought.{is_high};
ghost use Rattle.cells.specs.Step.{told_step};
ghost use Rattle.cells.specs.Calls.{bits_at, grant_by, rest_by, handled_by, step_due};
ghost use Rattle.cells.specs.Decode.{plan_in};
ghost use Rattle.cells.specs.Instants.{sought_by, due_by};

use cells::{Cascade, Class, Step, Turn};
use plan_tree::Plan;

// The length of node k's request; a number that is no node has none.
fn bits_at(s: &Cascade, k: u32) -> u32
    ensures { result ≡ bits_at k s.now }
{
    if !(1..=cells::MOST_NODES).contains(&k) {
        return 0;
    }
    let x = s[cells::REQUEST + (k as usize - 1)];
    if x < cells::NORMAL {
        return 0;
    }
    x % cells::HALF
}

// The end of a packet that starts at d.
fn end_of(d: u64, bits: u32, overhead: u32) -> u64
    requires { d ≤ last_time }
    ensures { result ≡ d + bits + overhead }
{
    d + bits as u64 + overhead as u64
}

// A grant at d to a turn's node.
#[tactic(auto, using(crate::proofs::CallLaws::high_same), unfolding(cells::specs::Calls::grant_by, plan::specs::Tables::plan_of))]
fn grant_turn(p: &Plan, s: &mut Cascade, d: u64, class: Class, t: Turn) -> Step
    requires { d ≤ last_time }
    ensures value { told_step (Ok result) ≡ (grant_by p.now d (is_high class) (record { turn = t; cells = s.old })).answer }
    ensures s_after { s.new ≡ (grant_by p.now d (is_high class) (record { turn = t; cells = s.old })).cells }
{
    let node = t.node;
    let end = end_of(d, bits_at(s, node), p[plan::OVERHEAD]);
    let wait = waits::wait(s, d, node);
    requests::grant_node(p, s, class == Class::High, node);
    requests::busy_until(s, end);
    Step::Grant {
        time: d,
        node,
        class,
        end,
        moves: t.moves,
        wait,
    }
}

// A rest at d: control goes up to the root.
fn rest(p: &Plan, s: &mut Cascade, d: u64) -> Step
    ensures value { told_step (Ok result) ≡ (rest_by p.now d s.old).answer }
    ensures s_after { s.new ≡ (rest_by p.now d s.old).cells }
{
    let moves = control::climb(p, s[cells::HOLDER]);
    s[cells::HOLDER] = 1;
    s[cells::BUSY] = 0;
    Step::Rest { time: d, moves }
}

// The instant d is handled, the clock having come to it.
fn handle(p: &Plan, s: &mut Cascade, d: u64) -> Step
    requires { d ≤ last_time }
    ensures value { told_step (Ok result) ≡ (handled_by p.now d (sought_by s.old) s.old).answer }
    ensures s_after { s.new ≡ (handled_by p.now d (sought_by s.old) s.old).cells }
{
    match instants::sought(s) {
        Some(class) => {
            let t = control::choose(p, s, class == Class::High);
            grant_turn(p, s, d, class, t)
        }
        None => rest(p, s, d),
    }
}

// A step whose bound row 11 allows: the instant due before it is handled, if there is one.
pub(crate) fn step_due(p: &Plan, s: &mut Cascade, t: u64) -> Step
    requires { t ≤ last_time }
    ensures value { told_step (Ok result) ≡ (step_due p.now (due_by (plan_in p.now) s.old) t s.old).answer }
    ensures s_after { s.new ≡ (step_due p.now (due_by (plan_in p.now) s.old) t s.old).cells }
{
    match instants::due_before(p, s, t) {
        Some(d) => {
            frames::advance(p, s, d);
            handle(p, s, d)
        }
        None => Step::Quiet,
    }
}
