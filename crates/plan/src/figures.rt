// The figures of a plan's header, whose ranges the type keeps.
ghost use Rattle.std.specs.Prelude.{◌≤◌};

// What the header's lines say, in their ranges.
#[derive(Clone, Copy, Debug, PartialEq, Eq)]
pub struct Figures {
    pub frame: u64,
    pub overhead: u64,
    pub interrupt: u64,
    pub framing: u64,
    pub strict: bool,
    ghost in_range: { (frame ≤ 4000000) × (overhead ≤ 50000) × (interrupt ≤ 4000000) × (framing ≤ 5) },
}
