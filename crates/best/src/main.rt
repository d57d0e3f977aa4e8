// Reads a network file on standard input, searches for its best timetable with a budget of 1,000,000 tries, and prints the least gap, the
// sum, the tries and the starts; or why the file is refused. Where reading or writing failed it says so on standard error; its exit status
// doesn't tell.
#![tactic(auto)]

ghost use Rattle.std.specs.Prelude.{◌≡◌, ◌≤◌, length, take, IfOk};
ghost use Rattle.network.specs.Network.{max_lines};

use network::grounds::Refusal;
use network::{Network, Rating};
use search::SearchAnswer;
use std::io;
use std::io::Read;

const BUDGET: u32 = 1000000;

// How much of the input is read. What doesn't fit doesn't decide and is left unread.
const ROOM: usize = 4096;

// What a failed read left out could change the answer, so none is printed.
fn main(rt: HostRuntime) {
    let mut stdin = rt.stdin();
    let mut buffer = [0u8; ROOM];
    match read_input(&mut stdin, &mut buffer) {
        Err(_) => complain(&rt, "reading standard input"),
        Ok(end) => {
            if run(&rt, &buffer[..end]).is_err() {
                complain(&rt, "writing standard output");
            }
        }
    }
}

// Where standard error can't be written either, nobody is told.
fn complain(rt: &impl Eprint, what: &str) {
    let _ = eprintln!(rt; "best: {what} failed");
}

// How many bytes the input has, or the buffer room for. A loop by hand: `read_exact` wants the buffer filled, and `read_to_end` a heap. The
// programs of cases have it too (`cases_typed`), on which a program that is handed out doesn't depend.
fn read_input<R: Read>(stdin: &mut R, buffer: &mut [u8]) -> io::Result<usize>
    ensures { IfOk result (λ end. (end ≤ length buffer.new) × (end ≡ length (take end buffer.new))) }
{
    let mut end = 0;
    while end < buffer.len() {
        let more = stdin.read(&mut buffer[end..])?;
        if more == 0 {
            break;
        }
        end += more;
    }
    Ok(end)
}

// The read call says how many starts there are. Like each function below it answers an error where not all was written.
fn run(rt: &impl Print, file: &[u8]) -> io::Result<()> {
    match network::reader::read(file) {
        Err(refusal) => print_refusal(rt, refusal),
        Ok(accepted) => find(rt, file, accepted.lines as usize),
    }
}

fn find(rt: &impl Print, file: &[u8], lines: usize) -> io::Result<()>
    requires { lines ≤ max_lines }
{
    let mut row = [0i32; Network::MAX_LINES];
    let starts = &mut row[..lines];
    match search::entry::search(file, starts, BUDGET) {
        Ok(SearchAnswer::Finished { best, tries }) => print_best(rt, best, tries, starts),
        Ok(SearchAnswer::Stopped { best, tries }) => {
            print!(rt; "stopped ")?;
            print_best(rt, best, tries, starts)
        }
        // The budget is more than the lines, so a full timetable is always reached.
        Ok(SearchAnswer::StoppedWithNone { tries }) => print_tries(rt, tries),
        Err(refusal) => print_refusal(rt, refusal),
    }
}

// A word and a number are a write each, as ever: of an output that takes only some of them a test tells how far the line came.
fn print_best(rt: &impl Print, best: Rating, tries: u32, starts: &[i32]) -> io::Result<()> {
    let Rating { least, sum } = best;
    print!(rt; "gap ")?;
    print!(rt; "{least}")?;
    print!(rt; " sum ")?;
    print!(rt; "{sum}")?;
    print!(rt; " tries ")?;
    print!(rt; "{tries}")?;
    print!(rt; " starts")?;
    print_starts(rt, starts)?;
    println!(rt)
}

fn print_starts(rt: &impl Print, starts: &[i32]) -> io::Result<()> {
    for start in starts {
        print_start(rt, *start)?;
    }
    Ok(())
}

// The walk's starts are below the periods and never negative.
fn print_start(rt: &impl Print, start: i32) -> io::Result<()> {
    print!(rt; " ")?;
    if start < 0 {
        return Ok(());
    }
    print!(rt; "{start}")
}

fn print_tries(rt: &impl Print, tries: u32) -> io::Result<()> {
    print!(rt; "stopped tries ")?;
    print!(rt; "{tries}")?;
    println!(rt)
}

fn print_refusal(rt: &impl Print, refusal: Refusal) -> io::Result<()> {
    let number = refusal.reason.number();
    let place = refusal.place;
    print!(rt; "refused ")?;
    print!(rt; "{number}")?;
    print!(rt; " at ")?;
    print!(rt; "{place}")?;
    println!(rt)
}
