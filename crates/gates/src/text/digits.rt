// Numbers in base ten.
ghost use Rattle.std.specs.Prelude.{◌≡◌, ◌≤◌, length, decimal};

// The number of digits of `n`. Most fields have one or two, for which a logarithm is slower than these tests.
#[inline]
pub(super) fn digit_count(n: u32) -> usize
    ensures value { result ≡ length (decimal n) }
    ensures bound { result ≤ 10 }
{
    match n {
        0..=9 => 1,
        10..=99 => 2,
        _ => n.ilog10() as usize + 1,
    }
}

// Fills the memory with the digits of `n`.
#[inline]
pub(super) fn write_digits(n: u32, memory: &mut [u8])
    requires { length memory.old ≡ length (decimal n) }
    ensures { memory.new ≡ decimal n }
{
    // by place: nothing is known of what an adapter of `iter_mut` wrote; the first digit is left over with no division
    let mut rest = n;
    for place in (1..memory.len()).rev() {
        memory[place] = b'0' + (rest % 10) as u8;
        rest /= 10;
    }
    memory[0] = b'0' + rest as u8;
}
