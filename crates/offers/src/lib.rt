// Many offers in one pass (request 9 of document 02): each is answered as the single reserve would be, and nothing is reserved.
// No function has a `requires`: each says its answer and the whole buffer that it leaves, for every content of both tables.
#![tactic(auto)]

ghost use Rattle.std.specs.Prelude.{◌≡◌, eqb, if◌then◌else◌};
ghost use Rattle.cells.specs.Step.{number, list_answer};
ghost use Rattle.admission.specs.Share.{share_row_with};
ghost use Rattle.offers.specs.Offers.{offers_row, clock_of, OffersPromise};

use cells::{Cascade, Misfit, Refusal};
use plan_tree::Plan;

// Why nothing is answered, if so.
#[tactic(auto, using(crate::proofs::Laws::offers_count), unfolding(crate::specs::Offers::offers_row))]
fn fitting(offers: &[u64], answers: &[u8]) -> Result<(), Misfit>
    ensures { list_answer result ≡ offers_row offers.now answers.now }
{
    if offers.len() % 3 != 0 {
        return Err(Misfit::Malformed);
    }
    if 64 < offers.len() / 3 || answers.len() < offers.len() / 3 {
        return Err(Misfit::TooLong);
    }
    Ok(())
}

// One offer's answer, by the row of the time and the sum of all loads, which are the same for every offer.
fn answer(p: &Plan, s: &Cascade, late: Result<(), Refusal>, all: u64, k: u64, n: u64, b: u64) -> u8
    ensures { result ≡ (if eqb (number late) 0 then share_row_with p.now all k n b s.now else number late) }
{
    match late {
        Ok(()) => cells::number(admission::share_row_with(p, s, all, k, n, b)) as u8,
        Err(_) => cells::number(late) as u8,
    }
}

// The answers at a time t: one pass over the nodes for the sum, and one over the offers. Where the lists misfit nothing is written.
pub fn at_time(
    p: &Plan,
    s: &Cascade,
    t: u64,
    offers: &[u64],
    answers: &mut [u8],
) -> Result<(), Misfit>
    ensures { OffersPromise p.now t s.now offers.now answers.old (list_answer result) answers.new }
{
    fitting(offers, answers)?;
    let late = rows::time_row(p, s, t);
    let all = frames::loads(p, s);
    for i in 0..offers.len() / 3 {
        let at = i * 3;
        answers[i] = answer(p, s, late, all, offers[at], offers[at + 1], offers[at + 2]);
    }
    Ok(())
}

// The answers at the cascade's clock.
pub fn at_clock(p: &Plan, s: &Cascade, offers: &[u64], answers: &mut [u8]) -> Result<(), Misfit>
    ensures { OffersPromise p.now (clock_of s.now) s.now offers.now answers.old (list_answer result) answers.new }
{
    at_time(p, s, requests::clock(s), offers, answers)
}
