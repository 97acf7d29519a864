// The cascade's table, and what its functions answer. specs/ says what stands where and what each call leaves.
#![tactic(auto)]

ghost use Rattle.std.specs.Prelude.{◌≡◌};
ghost use Rattle.cells.specs.Sought.{is_high};
ghost use Rattle.cells.specs.Step.{class_number, refusal_number, number, misfit_number};

mod numbers;

pub use numbers::{Hub, Node};

// The table that a caller lends: see specs/Layout.antt for what stands where. It travels beside the plan's in every call, and no struct
// holds both, since C lends each by itself and `EventPromise` speaks of each.
// The places below are the same numbers, and stand nowhere else.
pub type Cascade = [u32; CELLS];

pub const CELLS: usize = 1672;

// The clock and the end of a busy line take two cells each, the low 32 bits first: such a time is low + high * TWO_32.
pub const CLOCK: usize = 0;

pub const CLOCK_HIGH: usize = 1;

pub const END: usize = 2;

pub const END_HIGH: usize = 3;

// How far behind its low 32 bits a time's high ones stand.
pub const HIGH_HALF: usize = 1;

pub const TWO_32: u64 = 4294967296;

pub const BUSY: usize = 4;

pub const HOLDER: usize = 5;

pub const CLASS: usize = 6;

pub const STANDING: usize = 7;

// Hub g's cells begin at HUBS + (g - 1) * PER_HUB: two masks and two pointers, of the normal class first.
pub const HUBS: usize = 8;

pub const PER_HUB: usize = 4;

pub const MASK: usize = 0;

pub const HIGH_MASK: usize = 1;

pub const POINTER: usize = 2;

pub const HIGH_POINTER: usize = 3;

// A pointer is its port * PER_PORT, and MARK more where it is marked.
pub const PER_PORT: u32 = 2;

pub const MARK: u32 = 1;

// Port 1 without mark, where a hub starts afresh.
pub const PORT_1: u32 = 2;

// Behind the hubs stand six tables of MOST_NODES cells, with node k's cell at k - 1 in each. Here each of them begins.
// They are tables since a frame's start passes over whole ones, which the compiler vectorises.
pub const REQUEST: usize = 136;

pub const FORCE: usize = 392;

pub const LATEST: usize = 648;

pub const GRANTED: usize = 904;

// The time at which a node's standing request was first put up: its low 32 bits in one table, its high ones in the next.
pub const SINCE: usize = 1160;

pub const SINCE_HIGH: usize = 1416;

// A request is NORMAL + b or HIGH + b; below NORMAL none stands.
pub const NORMAL: u32 = 65536;

pub const HIGH: u32 = 131072;

// A reservation is n * HALF + b.
pub const HALF: u32 = 65536;

// The greatest count of high grants: no reservation allows more.
pub const MOST_GRANTED: u32 = 65535;

// What the table has cells for; a mask has as many bits as a hub has ports at most.
pub const MOST_HUBS: u32 = 32;

pub const MOST_PORTS: u32 = 32;

pub const MOST_NODES: u32 = 256;

// The two classes of requests and grants.
#[derive(Clone, Copy, Debug, PartialEq, Eq)]
pub enum Class {
    Normal,
    High,
}

// As a number in tables and log lines.
impl From<Class> for u32 {
    ghost from_gives = { λ class n. n ≡ class_number (is_high class) };

    fn from(class: Class) -> u32 {
        match class {
            Class::Normal => 1,
            Class::High => 2,
        }
    }
}

// The rows of the table that refuse a call at a hub, 11 to 17.
#[derive(Clone, Copy, Debug, PartialEq, Eq)]
pub enum Refusal {
    // The time is above 10^15, or before the clock.
    OutOfTime,
    // An instant strictly before the time is due.
    StillDue,
    // There is no such node.
    NoNode,
    // More than 64 packets.
    TooMany,
    // The bits are outside 512 to the plan's longest packet, or are not 0 where no packet is reserved.
    Outside,
    // A high request has nothing reserved in a strict plan, or is longer than its reservation.
    Unreserved,
    // The frame has no room for the reservation.
    Overfull,
}

impl From<Refusal> for u32 {
    ghost from_gives = { λ refusal n. n ≡ refusal_number refusal };

    fn from(refusal: Refusal) -> u32 {
        match refusal {
            Refusal::OutOfTime => 11,
            Refusal::StillDue => 12,
            Refusal::NoNode => 13,
            Refusal::TooMany => 14,
            Refusal::Outside => 15,
            Refusal::Unreserved => 16,
            Refusal::Overfull => 17,
        }
    }
}

// 0, or the number of the row that refuses.
pub fn number(answer: Result<(), Refusal>) -> u32
    ensures { result ≡ number answer }
{
    match answer {
        Ok(()) => 0,
        Err(refusal) => u32::from(refusal),
    }
}

// Why nothing is done with a caller's lists: one isn't made of whole rows of the right kinds, or one is too long for the other.
#[derive(Clone, Copy, Debug, PartialEq, Eq)]
pub enum Misfit {
    Malformed,
    TooLong,
}

impl From<Misfit> for u32 {
    ghost from_gives = { λ misfit n. n ≡ misfit_number misfit };

    fn from(misfit: Misfit) -> u32 {
        match misfit {
            Misfit::Malformed => 1,
            Misfit::TooLong => 18,
        }
    }
}

// One look at a hub: a node is granted, control passes to another hub, the root goes round to port 1, or the tables are no plan's.
#[derive(Clone, Copy, Debug, PartialEq, Eq)]
pub enum Look {
    Node(u32),
    Pass(u32),
    Round,
    Stop,
}

// A turn: the node that it goes to, the hub that has control then, and the moves of control. Node 0 is none.
#[derive(Clone, Copy, Debug, PartialEq, Eq)]
pub struct Turn {
    pub node: u32,
    pub hub: u32,
    pub moves: u64,
}

// What a step does. The wait is the time less that at which the request was first put up.
#[derive(Clone, Copy, Debug, PartialEq, Eq)]
pub enum Step {
    Grant {
        time: u64,
        node: u32,
        class: Class,
        end: u64,
        moves: u64,
        wait: u64,
    },
    Rest {
        time: u64,
        moves: u64,
    },
    Quiet,
}
