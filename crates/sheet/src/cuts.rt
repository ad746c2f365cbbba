// The text cut at a byte.
ghost use Rattle.std.specs.Prelude.{◌≡◌, ◌<◌, ◌==◌, length, position, IfSome};
ghost use Rattle.std.specs.Option.{option_map};
ghost use Rattle.sheet.specs.Cuts.{cut_at, both_parts};

// The place of the first byte `b`.
fn place_of(text: &[u8], b: u8) -> Option<usize>
    ensures { result ≡ position (λ x. x == b) text.now }
{
    text.iter().position(|x| *x == b)
}

// The part before the first byte `b` and the part behind it; none where there is no such byte.
pub(crate) fn cut(text: &[u8], b: u8) -> Option<(&[u8], &[u8])>
    ensures parts { option_map both_parts result ≡ cut_at b text.now }
    ensures shorter { IfSome result (λ p. length p.1.now < length text.now) }
{
    let i = place_of(text, b)?;
    Some((&text[0..i], &text[i + 1..]))
}
