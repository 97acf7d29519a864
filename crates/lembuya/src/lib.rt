// The hub for programs in C and Rust: include/lembuya.h has a comment for each function. No exported function has a `requires`:
// each says its answer and all that it leaves, for every content of the tables and every length of the texts, lists and buffers.
// A refusal leaves all that is lent as it was, but for a refused plan's line, which is told.
#![tactic(auto)]

ghost use Rattle.std.specs.Prelude.{◌≡◌, set, if◌then◌else◌};
ghost use Rattle.rules.specs.Plan.{longest};
ghost use Rattle.rules.specs.Call.{ask, off, reserve, until, normal, high};
ghost use Rattle.writer.specs.Write.{put_answer, put_buffer, put_row};
ghost use Rattle.plan.specs.Tables.{plan_of};
ghost use Rattle.plan.specs.Reading.{reading, leaves};
ghost use Rattle.cells.specs.Fresh.{fresh_cells};
ghost use Rattle.cells.specs.Step.{list_answer};
ghost use Rattle.cells.specs.Calls.{EventPromise, step_by};
ghost use Rattle.offers.specs.Offers.{answer_to, clock_of, OffersPromise};
ghost use Rattle.fit.specs.Fit.{fit_for};
ghost use Rattle.call_list.specs.Table.{told_seven, put_seven};
ghost use Rattle.call_list.specs.Promise.{ListPromise};
ghost use Rattle.log_spec.specs.Log.{log_bytes};
ghost use Rattle.log_spec.specs.Cells.{plan_left, cells_left};
ghost use Rattle.lembuya.specs.Exports.{read_number, put_told, step_number, put_step, put_fit, put_end};

use call_list::Seven;
use cells::{Cascade, Misfit};
use fit::Fit;
use plan::Taken;
use plan_tree::Plan;

// What a plan's reader tells: nodes, hubs, where the events start and on which line.
fn tell(told: &mut [u64; 4], taken: Taken)
    ensures { told.new ≡ set (set (set (set told.old 0 taken.nodes) 1 taken.hubs) 2 taken.at) 3 taken.line }
{
    told[0] = taken.nodes as u64;
    told[1] = taken.hubs as u64;
    told[2] = taken.at as u64;
    told[3] = taken.line as u64;
}

#[unsafe(no_mangle)]
pub extern "C" fn lembuya_read(text: &[u8], plan: &mut Plan, told: &mut [u64; 4]) -> u32
    ensures value { result ≡ read_number (reading text.now).answer }
    ensures plan_after { plan.new ≡ leaves (reading text.now) plan.old }
    ensures told_after { told.new ≡ put_told (reading text.now).answer told.old }
{
    match plan::read(text, plan) {
        Ok(taken) => {
            tell(told, taken);
            0
        }
        Err(refused) => {
            let number = u32::from(refused.row);
            told[3] = refused.line as u64;
            number
        }
    }
}

#[unsafe(no_mangle)]
pub extern "C" fn lembuya_longest(p: &Plan) -> u64
    ensures { result ≡ longest (plan_of p.now) }
{
    header::longest(p[plan::FRAMING])
}

#[unsafe(no_mangle)]
pub extern "C" fn lembuya_strict(p: &Plan) -> u32
    ensures { result ≡ (if (plan_of p.now).strict then 1 else 0) }
{
    (p[plan::STRICT] != 0) as u32
}

#[unsafe(no_mangle)]
pub extern "C" fn lembuya_fresh(s: &mut Cascade)
    ensures { s.new ≡ fresh_cells }
{
    requests::fresh(s);
}

#[unsafe(no_mangle)]
pub extern "C" fn lembuya_normal(p: &Plan, s: &mut Cascade, t: u64, k: u64, b: u64) -> u32
    ensures { EventPromise p.now (ask normal t k b) s.old result s.new }
{
    cells::number(hub::normal(p, s, t, k, b))
}

#[unsafe(no_mangle)]
pub extern "C" fn lembuya_high(p: &Plan, s: &mut Cascade, t: u64, k: u64, b: u64) -> u32
    ensures { EventPromise p.now (ask high t k b) s.old result s.new }
{
    cells::number(hub::high(p, s, t, k, b))
}

#[unsafe(no_mangle)]
pub extern "C" fn lembuya_off(p: &Plan, s: &mut Cascade, t: u64, k: u64) -> u32
    ensures { EventPromise p.now (off t k) s.old result s.new }
{
    cells::number(hub::off(p, s, t, k))
}

#[unsafe(no_mangle)]
pub extern "C" fn lembuya_reserve(p: &Plan, s: &mut Cascade, t: u64, k: u64, n: u64, b: u64) -> u32
    ensures { EventPromise p.now (reserve t k n b) s.old result s.new }
{
    cells::number(hub::reserve(p, s, t, k, n, b))
}

#[unsafe(no_mangle)]
pub extern "C" fn lembuya_until(p: &Plan, s: &mut Cascade, t: u64) -> u32
    ensures { EventPromise p.now (until t) s.old result s.new }
{
    cells::number(hub::until(p, s, t))
}

// The seven numbers of a step. A list's answer is a row of a table, whose place has to be in it; here every place is known.
fn put_seven(answer: &mut [u64; 7], x: Seven)
    ensures { answer.new ≡ put_seven 0 (told_seven x) answer.old }
{
    answer[0] = x.number as u64;
    answer[1] = x.time;
    answer[2] = x.node as u64;
    answer[3] = x.class as u64;
    answer[4] = x.end;
    answer[5] = x.moves;
    answer[6] = x.wait;
}

#[unsafe(no_mangle)]
pub extern "C" fn lembuya_step(p: &Plan, s: &mut Cascade, t: u64, answer: &mut [u64; 7]) -> u32
    ensures value { result ≡ step_number (step_by p.now t s.old).answer }
    ensures answer_after { answer.new ≡ put_step (step_by p.now t s.old).answer answer.old }
    ensures s_after { s.new ≡ (step_by p.now t s.old).cells }
{
    match hub::step(p, s, t) {
        Ok(step) => {
            let seven = Seven::from(step);
            put_seven(answer, seven);
            seven.number
        }
        Err(refusal) => u32::from(refusal),
    }
}

// 0, or why nothing was done with the lists.
fn list_number(answer: Result<(), Misfit>) -> u32
    ensures { result ≡ list_answer answer }
{
    match answer {
        Ok(()) => 0,
        Err(misfit) => u32::from(misfit),
    }
}

#[unsafe(no_mangle)]
pub extern "C" fn lembuya_list(p: &Plan, s: &mut Cascade, calls: &[u64], answers: &mut [u64]) -> u32
    ensures { ListPromise p.now s.old calls.now answers.old result s.new answers.new }
{
    list_number(call_list::list(p, s, calls, answers))
}

#[unsafe(no_mangle)]
pub extern "C" fn lembuya_offers(p: &Plan, s: &Cascade, offers: &[u64], answers: &mut [u8]) -> u32
    ensures { OffersPromise p.now (clock_of s.now) s.now offers.now answers.old result answers.new }
{
    list_number(offers::at_clock(p, s, offers, answers))
}

// The case of a change and its number, and the 17 that they follow.
fn put_change(change: &mut [u64; 2], case: u64, number: u64) -> u32
    ensures change_after { change.new ≡ set (set change.old 0 case) 1 number }
    ensures value { result ≡ 17 }
{
    change[0] = case;
    change[1] = number;
    17
}

#[unsafe(no_mangle)]
pub extern "C" fn lembuya_fit(
    p: &Plan,
    s: &Cascade,
    k: u64,
    n: u64,
    b: u64,
    change: &mut [u64; 2],
) -> u32
    ensures value { result ≡ answer_to p.now (clock_of s.now) s.now (record { node = k; packets = n; bits = b }) }
    ensures change_after { change.new ≡ put_fit (fit_for p.now (clock_of s.now) s.now (record { node = k; packets = n; bits = b })) change.old }
{
    match fit::at_time(p, s, requests::clock(s), k, n, b) {
        Ok(Fit::Granted) => 0,
        Ok(Fit::Packets(lower)) => put_change(change, 1, lower),
        Ok(Fit::Bits(lower)) => put_change(change, 2, lower),
        Ok(Fit::Release(node)) => put_change(change, 3, node as u64),
        Ok(Fit::Nothing) => put_change(change, 4, 0),
        Err(refusal) => u32::from(refusal),
    }
}

#[unsafe(no_mangle)]
pub extern "C" fn lembuya_run(
    text: &[u8],
    plan: &mut Plan,
    s: &mut Cascade,
    log: &mut [u8],
    end: &mut [u64; 1],
) -> u32
    ensures value { result ≡ put_row log.old 0 (log_bytes text.now) }
    ensures log_after { log.new ≡ put_buffer log.old 0 (log_bytes text.now) }
    ensures end_after { end.new ≡ put_end (put_answer log.old 0 (log_bytes text.now)) end.old }
    ensures plan_after { plan.new ≡ plan_left text.now plan.old log.old }
    ensures s_after { s.new ≡ cells_left text.now s.old log.old }
{
    match text_run::run(text, plan, s, log) {
        Some(z) => {
            end[0] = z as u64;
            0
        }
        None => 18,
    }
}
