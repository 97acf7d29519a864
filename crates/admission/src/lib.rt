// Admission: the rows of a reserve, and the cell of a reservation.
// No public function has a `requires`: each says its answer for every content of both tables.
#![tactic(auto)]

ghost use Rattle.std.specs.Prelude.{◌≡◌, not, ◌||◌, ◌+◌, ◌*◌, ◌/◌, ◌%◌, ltb, eqb, if◌then◌else◌};
ghost use Rattle.rules.specs.Call.{reserve};
ghost use Rattle.rules.specs.Rows.{first_row, row15r};
ghost use Rattle.cells.specs.Layout.{half, share_code};
ghost use Rattle.cells.specs.Decode.{plan_in, core_of};
ghost use Rattle.cells.specs.Step.{number};
ghost use Rattle.cells.specs.Calls.{number_of, row_by};
ghost use Rattle.admission.specs.Share.{limit_rows, row17_with, share_row_by, share_row_with};

use cells::{Cascade, Refusal};
use plan_tree::Plan;

// 15 in a reserve: with n = 0 instead, b not 0.
fn share_outside(p: &Plan, n: u64, b: u64) -> bool
    ensures { result ≡ (row15r (plan_in p.now) n b).applies }
{
    if n == 0 {
        return b != 0;
    }
    rows::outside(p, b)
}

// The cell of a reservation.
pub fn share_code(n: u16, b: u16) -> u32
    ensures { result ≡ share_code n b }
{
    n as u32 * cells::HALF + b as u32
}

// Whether D and all loads, with a new reservation in place of an old one of them, are more than T. Their sum saturates, far above T and
// the old load, so that nothing wraps, whatever sum is handed over.
fn more_than(frame: u32, overhead: u32, interrupt: u32, all: u64, old: u32, new: u32) -> bool
    ensures { result ≡ ltb (frame + old / half * (old % half + overhead)) (interrupt + (all + new / half * (new % half + overhead))) }
{
    let out = frames::load(overhead, old);
    let put = frames::load(overhead, new);
    frame as u64 + out < all.saturating_add(interrupt as u64 + put)
}

// 13, 14 and 15 of a reservation.
fn limit_row(p: &Plan, k: u64, n: u64, b: u64) -> Result<(), Refusal>
    ensures { number result ≡ number_of (first_row (limit_rows (plan_in p.now) k n b)) }
{
    if rows::no_node(p, k) {
        return Err(Refusal::NoNode);
    }
    if 64 < n {
        return Err(Refusal::TooMany);
    }
    if share_outside(p, n, b) {
        return Err(Refusal::Outside);
    }
    Ok(())
}

// 17 by the sum of all loads, of a reservation that no row above refuses.
#[tactic(auto, using(crate::proofs::ReserveRows::limits_kept))]
fn overfull(p: &Plan, s: &Cascade, all: u64, k: u64, n: u64, b: u64) -> bool
    requires { number_of (first_row (limit_rows (plan_in p.now) k n b)) ≡ 0 }
    ensures { result ≡ (row17_with (plan_in p.now) (core_of (plan_in p.now) s.now) all k (record { packets = n; bits = b })).applies }
{
    let at = cells::LATEST + (k as usize - 1);
    more_than(
        p[plan::FRAME],
        p[plan::OVERHEAD],
        p[plan::INTERRUPT],
        all,
        s[at],
        share_code(n as u16, b as u16),
    )
}

// 13, 14, 15 and 17 of a reservation, with the sum of all loads at hand: for many of them it is worked out once.
pub fn share_row_with(
    p: &Plan,
    s: &Cascade,
    all: u64,
    k: u64,
    n: u64,
    b: u64,
) -> Result<(), Refusal>
    ensures { number result ≡ share_row_with p.now all k n b s.now }
{
    limit_row(p, k, n, b)?;
    if overfull(p, s, all, k, n, b) {
        return Err(Refusal::Overfull);
    }
    Ok(())
}

// 13, 14, 15 and 17: what refuses a reservation, whatever the time. One that 13, 14 or 15 refuses needs no pass over the nodes.
pub fn share_row(p: &Plan, s: &Cascade, k: u64, n: u64, b: u64) -> Result<(), Refusal>
    ensures { number result ≡ share_row_by p.now k n b s.now }
{
    limit_row(p, k, n, b)?;
    share_row_with(p, s, frames::loads(p, s), k, n, b)
}

// 11 to 17, of a reserve.
pub fn reserve_row(p: &Plan, s: &Cascade, t: u64, k: u64, n: u64, b: u64) -> Result<(), Refusal>
    ensures { number result ≡ row_by p.now (reserve t k n b) s.now }
{
    rows::time_row(p, s, t)?;
    share_row(p, s, k, n, b)
}
