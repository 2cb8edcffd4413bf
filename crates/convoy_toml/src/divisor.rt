ghost use Rattle.std.specs.Prelude.{◌≡◌, ◌≤◌, max};
ghost use Rattle.convoy_toml.specs.Times.{common_divisor};

/// The greatest number that divides both.
pub fn common_divisor(a: u64, b: u64) -> u64
    ensures divisor { result ≡ common_divisor a b }
    ensures bounded { result ≤ max a b }
{
    let mut divisor = a;
    let mut rest = b;
    while rest != 0 {
        let over = divisor % rest;
        divisor = rest;
        rest = over;
    }
    divisor
}
