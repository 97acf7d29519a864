// How much of a text is read, and the log's lines: the plan's own, grants,
// rests and refusals, each written whole into a lent buffer or not at all.
// No public function has a `requires`: each says its whole answer and the whole of what is lent to it, by a definition of specs/.
#![tactic(auto)]

ghost use Rattle.std.specs.Prelude.{Ok, ◌≡◌, length, take, Ok, Some};
ghost use Rattle.writer.specs.Write.{pass_buffer, put_answer, put_number, put_row};
ghost use Rattle.cells.specs.Step.{told_step};
ghost use Rattle.log_lines.specs.Handed.{handed};
ghost use Rattle.log_lines.specs.FirstLine.{nodes_head, nodes_line, refused_line, told_numbers, first_line};
ghost use Rattle.log_lines.specs.Lines.{step_line};

use cells::{Refusal, Step};
use plan::Taken;

// The part of a text that is read: its first 65,536 bytes.
pub fn handed(text: &[u8]) -> &[u8]
    ensures { result.now ≡ handed text.now }
{
    &text[..text.len().min(65536)]
}

// `(nodes N hubs` at the front of an array, which has room for it whatever N is; how many bytes it has.
fn nodes_head(nodes: u32, head: &mut [u8; 32]) -> Option<usize>
    ensures { (result ≡ Some (length (nodes_head nodes))) × (take (length (nodes_head nodes)) head.new ≡ nodes_head nodes) }
{
    let number = writer::put_word(head, 0, b"(nodes ")?;
    let word = writer::put_number(head, number, nodes as u64)?;
    writer::put_word(head, word, b" hubs")
}

// `(nodes N hubs H)` and LF into the buffer from `at` on, or nothing. Without `write` it is only measured.
fn nodes_line(nodes: u32, hubs: u32, write: bool, buffer: &mut [u8], at: usize) -> Option<usize>
    ensures { (result ≡ put_answer buffer.old at (nodes_line nodes hubs)) × (buffer.new ≡ pass_buffer write buffer.old at (nodes_line nodes hubs)) × (put_number result ≡ put_row buffer.old at (nodes_line nodes hubs)) }
{
    let mut head = [0u8; 32];
    let end = nodes_head(nodes, &mut head)?;
    let numbers = [hubs as u64];
    writer::put_form(write, buffer, at, &head[..end], &numbers)
}

// The line of a plan's answer into the buffer from `at` on, or nothing. Without `write` it is only measured.
// A refusal is a line and a number, whatever they are.
pub fn first_line(
    answer: Result<Taken, (usize, u32)>,
    write: bool,
    buffer: &mut [u8],
    at: usize,
) -> Option<usize>
    ensures value { result ≡ put_answer buffer.old at (first_line (told_numbers answer)) }
    ensures buffer_after { buffer.new ≡ pass_buffer write buffer.old at (first_line (told_numbers answer)) }
    ensures result_value { put_number result ≡ put_row buffer.old at (first_line (told_numbers answer)) }
{
    match answer {
        Ok(taken) => nodes_line(taken.nodes, taken.hubs, write, buffer, at),
        Err((line, number)) => refused_line(line as u64, number, write, buffer, at),
    }
}

// `(refused line number)` and LF into the buffer from `at` on, or nothing. Without `write` it is only measured.
pub fn refused_line(
    line: u64,
    number: u32,
    write: bool,
    buffer: &mut [u8],
    at: usize,
) -> Option<usize>
    ensures value { result ≡ put_answer buffer.old at (refused_line line number) }
    ensures buffer_after { buffer.new ≡ pass_buffer write buffer.old at (refused_line line number) }
    ensures result_value { put_number result ≡ put_row buffer.old at (refused_line line number) }
{
    let numbers = [line, number as u64];
    writer::put_form(write, buffer, at, b"(refused", &numbers)
}

// The line of a step that was made. Quiet has none.
fn made_line(step: Step, write: bool, buffer: &mut [u8], at: usize) -> Option<usize>
    ensures value { result ≡ put_answer buffer.old at (step_line (told_step (Ok step))) }
    ensures buffer_after { buffer.new ≡ pass_buffer write buffer.old at (step_line (told_step (Ok step))) }
    ensures result_value { put_number result ≡ put_row buffer.old at (step_line (told_step (Ok step))) }
{
    match step {
        Step::Grant {
            time,
            node,
            class,
            end,
            moves,
            wait,
        } => {
            let numbers = [time, node as u64, u32::from(class) as u64, end, moves, wait];
            writer::put_form(write, buffer, at, b"(grant", &numbers)
        }
        Step::Rest { time, moves } => {
            let numbers = [time, moves];
            writer::put_form(write, buffer, at, b"(rest", &numbers)
        }
        Step::Quiet => writer::put_word(buffer, at, b""),
    }
}

// The line of a step's answer into the buffer from `at` on, or nothing. Without `write` it
// is only measured. Quiet has no line; neither has a refused step, which no run makes.
pub fn step_line(
    answer: Result<Step, Refusal>,
    write: bool,
    buffer: &mut [u8],
    at: usize,
) -> Option<usize>
    ensures value { result ≡ put_answer buffer.old at (step_line (told_step answer)) }
    ensures buffer_after { buffer.new ≡ pass_buffer write buffer.old at (step_line (told_step answer)) }
    ensures result_value { put_number result ≡ put_row buffer.old at (step_line (told_step answer)) }
{
    match answer {
        Ok(step) => made_line(step, write, buffer, at),
        Err(_) => writer::put_word(buffer, at, b""),
    }
}
