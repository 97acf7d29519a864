// One event as a value: the call that it is, and its time.
// A text's line and a table's five numbers both become this, and whoever makes events looks at nothing else.
#![tactic(auto)]

ghost use Rattle.std.specs.Prelude.{◌≡◌};
ghost use Rattle.rules.specs.Call.{time};
ghost use Rattle.event.specs.Call.{call_of};

// The five events of document 01: t is the time, k the node, n a number of packets and b the bits of one.
#[derive(Clone, Copy, Debug, PartialEq, Eq)]
pub enum Event {
    Normal { t: u64, k: u64, b: u64 },
    High { t: u64, k: u64, b: u64 },
    Off { t: u64, k: u64 },
    Reserve { t: u64, k: u64, n: u64, b: u64 },
    Until { t: u64 },
}

// An event's time.
pub fn time_of(e: Event) -> u64
    ensures { result ≡ time (call_of e) }
{
    match e {
        Event::Normal { t, .. }
        | Event::High { t, .. }
        | Event::Off { t, .. }
        | Event::Reserve { t, .. }
        | Event::Until { t } => t,
    }
}
