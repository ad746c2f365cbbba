// The reader of a sheet's text.
ghost use Rattle.std.specs.Prelude.{◌+◌, ◌≤◌, length};

mod steps;
pub(crate) mod whole;

// What is left of a text, and the place of its first line, counted from 1: each line took a byte.
#[derive(Drop)]
pub(crate) struct Reader<'a> {
    rest: &'a [u8],
    line: u32,
    ghost short: { line + length rest.now ≤ 61441 },
}
