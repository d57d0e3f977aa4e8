// The search for the best timetable, or for one with a wanted gap: caps, the walk by a rule, and the two calls.
#![tactic(auto)]

mod caps;
pub mod entry;
mod layout;
mod place;
mod tries;
mod walking;
pub mod wanted;

use network::grounds::Refusal;
use network::{Network, Rating, Rows};

// What the search call answers where it refuses nothing.
#[derive(Clone, Copy)]
pub enum SearchAnswer {
    Finished { best: Rating, tries: u32 },
    Stopped { best: Rating, tries: u32 },
    StoppedWithNone { tries: u32 },
}

// What rate and search answer on one file.
#[derive(Clone, Copy)]
pub struct RatedAndSearched {
    pub rated: Result<Rating, Refusal>,
    pub found: Result<SearchAnswer, Refusal>,
}

// What the call with a wanted gap answers where it refuses nothing.
#[derive(Clone, Copy)]
pub enum WantedAnswer {
    Found { tries: u32 },
    None { tries: u32 },
    Stopped { tries: u32 },
}

// What a walk goes by: document 01's rule drops what isn't above the best so far; request A.3's what doesn't reach a wanted gap, and its first
// full timetable ends the walk; that of request A.11's second pass what doesn't reach a floor or, once there is a best, its sum.
// An enum and not a closure: the walk's contract names the rule, `rule_of`.
#[derive(Clone, Copy)]
enum Rule {
    AboveBest,
    AtLeast { wanted: u32 },
    BySum { floor: u32 },
}

// What a placing is given up for beside the best so far, whatever the rule, so that it is one test after each call: a least gap below the floor
// and, if there is a sum, one that isn't above it, at the floor itself or anywhere.
#[derive(Clone, Copy)]
struct Cut {
    pub floor: u32,
    pub sum: Option<u32>,
    pub anywhere: bool,
}

// What a walk is given: its rule, and how many tries it may make.
#[derive(Clone, Copy)]
struct Task {
    pub rule: Rule,
    pub budget: u32,
}

// A try: a line at a start.
#[derive(Clone, Copy)]
struct Try {
    pub line: usize,
    pub start: u16,
}

// A line's starts from `from` on, `count` of them.
#[derive(Clone, Copy)]
struct Starts {
    pub line: usize,
    pub from: u16,
    pub count: u16,
}

// The rows of a network with its calls in the order of their lines, and for each line the place of its first call.
// Rows of fixed length: no call allocates, docs/ABI.md.
#[derive(Clone, Copy)]
struct Ordered {
    pub rows: Rows,
    pub first: [u16; Ordered::FIRSTS],
}

impl Ordered {
    // A place for each line, and one behind the last.
    pub const FIRSTS: usize = 17;

    // More than any place of a call, so that the place of a line's first call and the number of its starts stand in one number.
    pub const PLACES: u32 = 512;

    // More than any divisor, so that a divisor and its reciprocal stand in one number.
    pub const DIVISOR_LIMIT: u64 = 2048;

    // 2^40, over which a reciprocal is taken: a raised difference of arrivals times its divisor is below it.
    pub const RECIPROCAL_SCALE: u64 = 1099511627776;

    // One less than that: one more than a quotient of it is a reciprocal rounded up.
    pub const BELOW_SCALE: u64 = 1099511627775;
}

// A partial timetable: the starts of the placed lines, the upper values of the stops, and the upper rating that they make.
// Rows of fixed length: no call allocates, docs/ABI.md.
#[derive(Clone, Copy)]
struct Placed {
    pub starts: [u16; Network::MAX_LINES],
    pub values: [u16; Network::STOPS],
    pub upper: Rating,
}

// A walk on its way: the tries made, whether it has stopped, and the best so far with its starts. It stops with a best or without one, so that the
// flag is no case of either.
// A row of fixed length: no call allocates, docs/ABI.md.
#[derive(Clone, Copy)]
struct Walk {
    pub tries: u32,
    pub stopped: bool,
    pub best: Option<Rating>,
    pub starts: [u16; Network::MAX_LINES],
}

impl Walk {
    // Before the first try.
    pub const FIRST: Walk = Walk {
        tries: 0,
        stopped: false,
        best: Rating::NONE,
        starts: [0u16; Network::MAX_LINES],
    };
}
