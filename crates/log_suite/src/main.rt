// Reads texts on standard input, 1,048,576 bytes at most, with a byte 0 between one and the next, and writes the log of each
// with a line `--` behind it. Where standard input or output fails it says so on standard error.
#![tactic(auto)]

use cells::Cascade;
use plan_tree::Plan;
use std::io::Read;

// The log of one text and the line behind it, through what is lent; whether both are written.
fn write_log(
    rt: &impl Print,
    text: &[u8],
    plan: &mut Plan,
    s: &mut Cascade,
    out: &mut [u8; text_run::LONGEST_LOG],
) -> bool {
    let end = text_run::whole_log(text, plan, s, out);
    let log: &[u8] = out;
    rt.write_all(&log[..end]).is_ok() && rt.write_all(b"--\n").is_ok()
}

// The logs of all texts, as far as they can be written; whether all are.
fn write_logs(
    rt: &impl Print,
    texts: &[u8],
    plan: &mut Plan,
    s: &mut Cascade,
    out: &mut [u8; text_run::LONGEST_LOG],
) -> bool {
    for text in texts.split(|b| *b == 0) {
        if !write_log(rt, text, plan, s, out) {
            return false;
        }
    }
    true
}

// What is read is a part of the array.
fn read_texts(
    rt: &(impl Print + Eprint),
    reader: &mut impl Read,
    texts: &mut [u8],
    plan: &mut Plan,
    s: &mut Cascade,
    out: &mut [u8; text_run::LONGEST_LOG],
) {
    match input::read_all(reader, texts) {
        Ok(n) => {
            if !write_logs(rt, &texts[..n], plan, s, out) {
                let _ = rt.eprintln("log_suite: standard output can't be written");
            }
        }
        Err(_) => {
            let _ = rt.eprintln("log_suite: standard input can't be read");
        }
    }
}

// The array's length is its type's here, so that no proof counts the zeros in `main`.
fn run_all(
    rt: &(impl Print + Eprint),
    reader: &mut impl Read,
    texts: &mut [u8; 1048576],
    plan: &mut Plan,
    s: &mut Cascade,
    out: &mut [u8; text_run::LONGEST_LOG],
) {
    read_texts(rt, reader, texts, plan, s, out);
}

fn main(rt: HostRuntime) {
    let mut texts = [0u8; 1048576];
    let mut plan = [0u32; plan_tree::CELLS];
    let mut cascade = [0u32; cells::CELLS];
    let mut out = [0u8; text_run::LONGEST_LOG];
    run_all(
        &rt,
        &mut rt.stdin(),
        &mut texts,
        &mut plan,
        &mut cascade,
        &mut out,
    );
}
