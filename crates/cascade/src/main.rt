// Reads a text on standard input, at most 65,536 bytes, and writes its log to standard output.
// Where one of them fails it says so on standard error.
#![tactic(auto)]

use cells::Cascade;
use plan_tree::Plan;

// The log of a text to standard output, through what is lent.
fn write_log(
    rt: &(impl Print + Eprint),
    text: &[u8],
    plan: &mut Plan,
    s: &mut Cascade,
    out: &mut [u8; text_run::LONGEST_LOG],
) {
    let end = text_run::whole_log(text, plan, s, out);
    let log: &[u8] = out;
    if rt.write_all(&log[..end]).is_err() {
        let _ = rt.eprintln("cascade: standard output can't be written");
    }
}

fn main(rt: HostRuntime) {
    let mut text = [0u8; 65536];
    let mut plan = [0u32; plan_tree::CELLS];
    let mut cascade = [0u32; cells::CELLS];
    let mut out = [0u8; text_run::LONGEST_LOG];
    match input::read_all(&mut rt.stdin(), &mut text) {
        Ok(n) => write_log(&rt, &text[..n], &mut plan, &mut cascade, &mut out),
        Err(_) => {
            let _ = rt.eprintln("cascade: standard input can't be read");
        }
    }
}
