// Greatest common divisor and least common multiple.
ghost use Rattle.std.specs.Prelude.{◌≡◌, ℕ};
ghost use Rattle.std.specs.Int.{◌∣◌};
ghost use Rattle.cycle.specs.Multiple.{gcd, lcm, within};

// The greatest common divisor, by Euclid's rule.
pub fn gcd(a: u64, b: u64) -> u64
    ensures value { result ≡ gcd a b }
    ensures divides { (result ∣ a) × (result ∣ b) }
    ensures greatest { (d : ℕ) → d ∣ a → d ∣ b → d ∣ result }
{
    let mut x = a;
    let mut y = b;
    while y != 0 {
        (x, y) = (y, x % y);
    }
    x
}

// The least common multiple, where it is at most the limit.
pub fn lcm_within(a: u64, b: u64, limit: u64) -> Option<u64>
    ensures value { result ≡ within limit (lcm a b) }
    ensures multiple { (a ∣ lcm a b) × (b ∣ lcm a b) }
    ensures least { (m : ℕ) → a ∣ m → b ∣ m → lcm a b ∣ m }
{
    if a == 0 {
        return Some(0);
    }
    (a / gcd(a, b))
        .checked_mul(b)
        .filter(|multiple| *multiple <= limit)
}
