// The walk: trying a line's starts and judging one placement call each other; lines left, then starts left, fall.
ghost use Rattle.std.specs.Prelude.{◌≡◌, not, ◌&&◌, ◌+◌, ◌<◌, ◌≤◌};
ghost use Rattle.network.specs.Network.{max_period};
ghost use Rattle.network.specs.Engine.Rated.{rated, ranked};
ghost use Rattle.network.specs.Engine.Stored.{net_of};
ghost use Rattle.search.specs.Engine.Representation as rows;

use crate::layout::Layout;
use crate::place::cut_of;
use crate::{Ordered, Placed, Rule, Starts, Task, Try, Walk};
use network::Rating;

// Whether the walk is over because it has its first full timetable.
fn has_ended(rule: Rule, best: Option<Rating>) -> bool
    ensures { result ≡ ((rows.rule_of rule).ends_at_first && (ranked best).some) }
{
    match rule {
        Rule::AboveBest => false,
        Rule::AtLeast { .. } => best.is_some(),
        Rule::BySum { .. } => false,
    }
}

// Whether an upper rating stands beside the best so far: it is above it, or reaches the wanted gap, or reaches the floor and has a larger sum.
// What a rule keeps is decided here, by the order of ratings; the cut that a placing is given up by only spares work.
fn stands(rule: Rule, upper: Rating, best: Option<Rating>) -> bool
    ensures { result ≡ not ((rows.rule_of rule).drops (rated upper) (ranked best)) }
{
    match rule {
        Rule::AboveBest => Rating::is_above(Some(upper), best),
        Rule::AtLeast { wanted } => Rating::reaches(Some(upper), wanted),
        Rule::BySum { floor } => {
            Rating::reaches(Some(upper), floor) && Rating::sum_is_above(Some(upper), best)
        }
    }
}

// One try: its start for a line is judged, unless the walk is over. It stops the walk where the budget is used up, and is dropped by the
// rule beside the best so far; otherwise it sends the walk to the next line or, on the last line, where its upper rating is its rating,
// becomes the best.
#[cycle(judge_try_starts)]
fn judge(layout: &Layout<'_>, task: Task, due: Try, placed: Placed, walk: Walk) -> Walk
    requires may_try { rows.CanTry (net_of layout.now.network.now.rows) due.line placed }
    requires start_lt_max_period { (due.start < max_period) × (walk.tries ≤ task.budget) }
    ensures within { result.tries ≤ task.budget }
    ensures tried { rows.state_of (net_of layout.now.network.now.rows) result ≡ rows.one_of (net_of layout.now.network.now.rows) task due placed (rows.state_of (net_of layout.now.network.now.rows) walk) }
{
    if walk.stopped {
        return walk;
    }
    if has_ended(task.rule, walk.best) {
        return walk;
    }
    let mut next = walk;
    if walk.tries == task.budget {
        next.stopped = true;
        return next;
    }
    next.tries = walk.tries + 1;
    let cut = cut_of(task.rule, walk.best);
    let made = layout.place(cut, due, placed);
    let upper = made.upper;
    if stands(task.rule, upper, walk.best) {
        let line = due.line + 1;
        if line < layout.network.rows.lines {
            let starts = Starts {
                line,
                from: 0,
                count: (layout.lines[line] / Ordered::PLACES) as u16,
            };
            return try_starts(layout, task, starts, made, next);
        }
        let starts = made.starts;
        next.best = Some(upper);
        next.starts = starts;
        return next;
    }
    next
}

// A line's starts, ascending. They are split into halves, so that the calls nest only as deep as the number of starts has digits in base
// two.
#[cycle(judge_try_starts)]
pub fn try_starts(
    layout: &Layout<'_>,
    task: Task,
    starts: Starts,
    placed: Placed,
    walk: Walk,
) -> Walk
    requires may_try { rows.CanTry (net_of layout.now.network.now.rows) starts.line placed }
    requires count_bound { (starts.from + starts.count ≤ max_period) × (walk.tries ≤ task.budget) }
    ensures within { result.tries ≤ task.budget }
    ensures tried { rows.state_of (net_of layout.now.network.now.rows) result ≡ rows.each_of (net_of layout.now.network.now.rows) task starts placed (rows.state_of (net_of layout.now.network.now.rows) walk) }
{
    if starts.count == 0 {
        return walk;
    }
    if starts.count == 1 {
        let due = Try {
            line: starts.line,
            start: starts.from,
        };
        return judge(layout, task, due, placed, walk);
    }
    let half = starts.count / 2;
    let lower = Starts {
        count: half,
        ..starts
    };
    let next = try_starts(layout, task, lower, placed, walk);
    let upper = Starts {
        from: starts.from + half,
        count: starts.count - half,
        ..starts
    };
    try_starts(layout, task, upper, placed, next)
}
