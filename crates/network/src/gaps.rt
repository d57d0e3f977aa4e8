// The gap of two calls by theorem 3.1.2 of source 000.
ghost use Rattle.std.specs.Prelude.{◌≡◌, ℕ, ◌<◌, ◌≤◌, ◌+◌, ◌*◌, ◌^◌, pos, nat_abs, length, get_or, ◌+ℤ◌, ◌-ℤ◌};
ghost use Rattle.network.specs.Divisor as divisor;
ghost use Rattle.network.specs.Gap as gaps;
ghost use Rattle.network.specs.Network as net;

use crate::Network;
use crate::divisor::gcd;

// A difference of arrivals, of either sign, reduced to 0..g-1.
pub fn residue(x: i64, g: u32) -> u32
    requires { 0 < g }
    ensures { result ≡ gaps.residue x g }
{
    let modulus = g as u64;
    if x < 0 {
        // -1 - x is at least 0 for every negative x, the lowest included.
        let below = (-1 - x) as u64 % modulus;
        g - 1 - below as u32
    } else {
        let above = x as u64 % modulus;
        above as u32
    }
}

// One arrival of a call: its line's start plus its offset.
pub fn arrival(start: i32, offset: u16) -> i64
    ensures { (result ≡ start +ℤ pos offset) × (nat_abs result ≤ 2 ^ 32) }
{
    start as i64 + offset as i64
}

// The gap of two calls: the difference of their arrivals, reduced by the divisor of their periods, or what is left of that divisor.
pub fn gap(a: i64, b: i64, g: u32) -> u32
    requires { (nat_abs a ≤ 2 ^ 32) × (nat_abs b ≤ 2 ^ 32) × (0 < g) }
    ensures { result ≡ gaps.fold g (gaps.residue (a -ℤ b) g) }
{
    let d = residue(a - b, g);
    if d < g - d { d } else { g - d }
}

// The greatest common divisor of two periods.
fn divisor_of(period: u16, other: u16) -> u32
    ensures { result ≡ divisor.gcd period other }
{
    gcd(period as u32, other as u32)
}

// Writes the greatest common divisors of the periods of each two lines, at 16 times the one line plus the other. Two lines may meet at
// many stops, and the divisor takes longer than the rest of their gap. It is computed once for both orders of the two. The row is lent,
// since copying it back takes as long as reading a small file.
pub fn write_divisors(
    periods: &[u16; Network::MAX_LINES],
    lines: usize,
    row: &mut [u32; Network::PAIRS],
)
    requires { (lines ≤ net.max_lines) × (length row.old ≡ net.max_lines * net.max_lines) }
    ensures { (i j : ℕ) → i < lines → j < lines → get_or row.new (i * net.max_lines + j) 0 ≡ divisor.gcd (get_or periods.now i 0) (get_or periods.now j 0) }
{
    let places = lines * Network::MAX_LINES;
    // By index: the two lines are the place's parts, and the divisor is written at two places.
    for k in 0..places {
        let line = k / Network::MAX_LINES;
        let other = k % Network::MAX_LINES;
        if other <= line {
            let g = divisor_of(periods[line], periods[other]);
            row[k] = g;
            row[other * Network::MAX_LINES + line] = g;
        }
    }
}
