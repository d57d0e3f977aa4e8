// Divisors and multiples of periods.
ghost use Rattle.std.specs.Prelude.{◌≡◌, [], ◌∷◌, ◌<◌, ◌≤◌};
ghost use Rattle.network.specs.Divisor as divisor;
ghost use Rattle.network.specs.Network as net;

// The greatest common divisor, by repeated remainder: the second number falls at each call.
pub fn gcd(a: u32, b: u32) -> u32
    ensures { result ≡ divisor.gcd a b }
{
    if b == 0 { a } else { gcd(b, a % b) }
}

// The running common cycle, brought forward by a line's period: the least common multiple of the two. No earlier period is looked at again.
pub fn brought_forward(cycle: u32, period: u16) -> u32
    requires { (0 < cycle) × (cycle ≤ net.max_cycle) × (0 < period) × (period ≤ net.max_period) }
    ensures { divisor.IsLeastCommonMultiple (cycle ∷ period ∷ []) result }
{
    let minutes = period as u32;
    cycle / gcd(cycle, minutes) * minutes
}
