// A fixed generator: the numbers that a test program draws, and a checksum of what it is answered.
#![tactic(auto)]

ghost use Rattle.std.specs.Prelude.{◌≡◌, ◌%◌, ◌≤◌};
ghost use Rattle.generator.specs.Drawing.{drawn, mixed};

// The k-th number up to n that a seed gives.
pub fn draw(seed: u32, k: u32, n: u32) -> u32
    ensures value { result ≡ drawn seed k n }
    ensures at_most { result ≤ n % 65536 }
{
    let x = (seed as u64 * 48271 + k as u64 * 16807) % 2147483647;
    let y = (x ^ (x >> 12)) % 2147483648 * 69621 % 2147483647;
    y as u32 % (n % 65536 + 1)
}

// The checksum with one more answer.
pub fn mix(sum: u32, answer: u32) -> u32
    ensures { result ≡ mixed sum answer }
{
    ((sum as u64 * 48271 + answer as u64) % 4294967291) as u32
}
