// What would make an offer fit (request 10 of document 02): the smallest single change that would turn a 17 into a grant.
// Both tables are lent for reading only. No function has a `requires`: each says its answer for every content of them.
#![tactic(auto)]

ghost use Rattle.std.specs.Prelude.{◌≡◌, not, ◌&&◌, ◌||◌, ◌+◌, ◌-◌, ◌*◌, ◌/◌, ◌%◌, eqb, ltb, leb, Ok};
ghost use Rattle.cells.specs.Layout.{half};
ghost use Rattle.cells.specs.Decode.{plan_in, core_of};
ghost use Rattle.fit.specs.Change.{told_fit};
ghost use Rattle.fit.specs.Fit.{largest_below, release_for, fit_within, fit_for};

use cells::{Cascade, Refusal};
use plan_tree::Plan;

// What an offer of n packets of b bits for a node hears.
#[derive(Clone, Copy, Debug, PartialEq, Eq)]
pub enum Fit {
    // It is granted as it is.
    Granted,
    // So many packets would fit.
    Packets(u64),
    // Packets of so many bits would fit.
    Bits(u64),
    // With this node's reservation given up it would fit.
    Release(u32),
    // No single change would make it fit.
    Nothing,
}

// The most pieces of one size that have room together, from 1 on and below a bound; 0 if not even one has.
fn most_below(bound: u64, each: u64, room: u64) -> u64
    ensures { result ≡ largest_below bound 1 (λ m. leb (m * each) room) }
{
    if bound == 0 {
        return 0;
    }
    if each == 0 {
        return bound - 1;
    }
    let many = room / each;
    if many < bound {
        return many;
    }
    bound - 1
}

// The largest lower n of at least 1 for the same b; 0 if there is none.
fn lower_packets(overhead: u32, room: u64, n: u16, b: u16) -> u64
    ensures { result ≡ largest_below n 1 (λ m. leb (m * (b + overhead)) room) }
{
    most_below(n as u64, b as u64 + overhead as u64, room)
}

// The largest lower b from 512 on at the same n; 0 if there is none. With its overhead it is the largest number that has room n times.
fn lower_bits(overhead: u32, room: u64, n: u16, b: u16) -> u64
    ensures { result ≡ largest_below b 512 (λ c. leb (n * (c + overhead)) room) }
{
    let long = most_below(b as u64 + overhead as u64, n as u64, room);
    if long < 512 + overhead as u64 {
        return 0;
    }
    long - overhead as u64
}

// Whether node j's release suffices for node k, whose offer needs so much, and is cheaper than the best one so far.
fn better(
    j: u32,
    k: u64,
    share: u32,
    load: u64,
    room: u64,
    needed: u64,
    best: u32,
    least: u64,
) -> bool
    ensures { result ≡ ((not (eqb j k) && (not (eqb (share / half) 0) && leb needed (room + load))) && (eqb best 0 || ltb load least)) }
{
    if j as u64 == k {
        return false;
    }
    if share < cells::HALF {
        return false;
    }
    if load < needed && room < needed - load {
        return false;
    }
    if best == 0 {
        return true;
    }
    load < least
}

// The other node whose release suffices at the least n × c, by one pass over the nodes; 0 if there is none.
fn release(p: &Plan, s: &Cascade, room: u64, k: u64, needed: u64) -> u32
    ensures { result ≡ release_for (plan_in p.now) (core_of (plan_in p.now) s.now) room k needed }
{
    let mut best = 0;
    let mut least = 0;
    for j in 0..masks::nodes(p) {
        let share = s[cells::LATEST + j as usize];
        let load = frames::load(p[plan::OVERHEAD], share);
        if better(j + 1, k, share, load, room, needed, best, least) {
            best = j + 1;
            least = load;
        }
    }
    best
}

// The smallest change of an offer with which it has room. The room is a parameter, since in a hall the trunk may leave less than the frame.
pub fn within(p: &Plan, s: &Cascade, room: u64, k: u64, n: u16, b: u16) -> Fit
    ensures { told_fit (Ok result) ≡ fit_within (plan_in p.now) (core_of (plan_in p.now) s.now) room k n b }
{
    let packets = lower_packets(p[plan::OVERHEAD], room, n, b);
    if packets != 0 {
        return Fit::Packets(packets);
    }
    let bits = lower_bits(p[plan::OVERHEAD], room, n, b);
    if bits != 0 {
        return Fit::Bits(bits);
    }
    let needed = frames::load(p[plan::OVERHEAD], admission::share_code(n, b));
    let node = release(p, s, room, k, needed);
    if node != 0 {
        return Fit::Release(node);
    }
    Fit::Nothing
}

// What D and all loads but an old one leave of the frame, or 0. A sum that is more than T and the old load by itself is answered first, so
// that nothing wraps, whatever sum is handed over.
pub fn frame_room(frame: u32, overhead: u32, interrupt: u32, all: u64, old: u32) -> u64
    ensures { result ≡ (frame + old / half * (old % half + overhead)) - (interrupt + all) }
{
    let most = frame as u64 + frames::load(overhead, old);
    if most < all {
        return 0;
    }
    if most < interrupt as u64 + all {
        return 0;
    }
    most - (interrupt as u64 + all)
}

// What would make an offer fit at a time t: the row that refuses it, request 9's answer, or, where that is 17, the smallest change.
pub fn at_time(p: &Plan, s: &Cascade, t: u64, k: u64, n: u64, b: u64) -> Result<Fit, Refusal>
    ensures { told_fit result ≡ fit_for p.now t s.now (record { node = k; packets = n; bits = b }) }
{
    rows::time_row(p, s, t)?;
    let all = frames::loads(p, s);
    let Err(row) = admission::share_row_with(p, s, all, k, n, b) else {
        return Ok(Fit::Granted);
    };
    if row != Refusal::Overfull {
        return Err(row);
    }
    let at = cells::LATEST + (k as usize - 1);
    let room = frame_room(
        p[plan::FRAME],
        p[plan::OVERHEAD],
        p[plan::INTERRUPT],
        all,
        s[at],
    );
    Ok(within(p, s, room, k, n as u16, b as u16))
}
