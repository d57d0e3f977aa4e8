// Files with many lines and many calls.
ghost use Rattle.std.specs.Prelude.{◌<◌, ◌≤◌};

// So many lines of one period, and behind them 256 calls that go round the first `callers` lines: each of these at stop 0, then each at
// stop 1, and so on. All have offset 1, so that lines which start together meet at every stop; or, sloping, the line's number times the
// stop's, so that stops differ.
pub fn large_file(lines: usize, callers: usize, period: u16, sloping: bool) -> [u8; 2048]
    requires { (lines ≤ 16) × (0 < callers) }
{
    let mut file = [0u8; 2048];
    put_lines(&mut file, 0, lines, period);
    put_calls(&mut file, 3 * lines, callers, sloping);
    file
}

// The same behind an edition.
pub fn large_file_in_edition(edition: u8, lines: usize, callers: usize, period: u16) -> [u8; 2048]
    requires { (lines ≤ 16) × (0 < callers) }
{
    let mut file = [0u8; 2048];
    file[0] = 0x56;
    file[1] = edition;
    put_lines(&mut file, 2, lines, period);
    put_calls(&mut file, 2 + 3 * lines, callers, false);
    file
}

// The lines, from a place on behind which there are zeros.
fn put_lines(file: &mut [u8; 2048], from: usize, lines: usize, period: u16)
    requires { (from ≤ 2) × (lines ≤ 16) }
{
    let [high, low] = period.to_be_bytes();
    // By index: the line's number is what its place is made of.
    for line in 0..lines {
        let at = from + 3 * line;
        file[at..at + 3].copy_from_slice(&[0x4C, high, low]);
    }
}

// The calls, from a place on behind which there are zeros. Line times stop is at most the number of the call, so that it fits a byte.
fn put_calls(file: &mut [u8; 2048], from: usize, callers: usize, sloping: bool)
    requires { (from ≤ 50) × (0 < callers) }
{
    // By index: the call's number is what its place, its line and its stop are made of.
    for call in 0..256usize {
        let at = from + 5 * call;
        let line = call % callers;
        let stop = call / callers;
        let offset = if sloping { line * stop } else { 1 };
        file[at..at + 5].copy_from_slice(&[0x43, line as u8, stop as u8, 0, offset as u8]);
    }
}
