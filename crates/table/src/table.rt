// The table's calls. A table is a caller's slice, its memory, and a length: it holds the first `len` records of the slice.
// Slice and length stand side by side, since by a rule of the project these calls work in memory that a caller lends;
// `owned` has the table as one value.
ghost use Rattle.std.specs.Prelude.{◌≡◌, take, MatchOption, MatchResult};
ghost use Rattle.std.specs.List.{slice_get};
ghost use Rattle.table.specs.Calls.{PlaceFor, Put, Kept, Taken, Nothing};

use crate::full::Full;
use crate::order::Ordered;

// The place of x, behind the last record that it does not precede: of equals the one that came first stays in front.
fn place_for<T: Ordered>(x: &T, held: &[T]) -> usize
    ensures { PlaceFor T.before x.now held.now result }
{
    held.iter()
        .rposition(|y| !x.precedes(y))
        .map_or(0, |last| last + 1)
}

// Puts a record at the place that it goes to, where a caller knows that place already: else as `put`, which looks for it.
#[inline]
pub fn put_at<T: Ordered + Copy>(
    table: &mut [T],
    len: usize,
    at: usize,
    x: T,
) -> Result<usize, Full>
    requires { PlaceFor T.before x (take len table.old) at }
    ensures { MatchResult result (Put T.before x len table.old table.new) (λ _. Kept len table.old table.new) }
{
    if len >= table.len() {
        return Err(Full);
    }
    table.copy_within(at..len, at + 1);
    table[at] = x;
    Ok(len + 1)
}

// Puts a record behind its equals, and answers the length after; refused, with nothing changed, where every place is taken.
#[inline]
pub fn put<T: Ordered + Copy>(table: &mut [T], len: usize, x: T) -> Result<usize, Full>
    ensures { MatchResult result (Put T.before x len table.old table.new) (λ _. Kept len table.old table.new) }
{
    // before the place is looked for, so that a refusal costs the same however many records there are
    if table.len() <= len {
        return Err(Full);
    }
    let at = place_for(&x, &table[..len]);
    put_at(table, len, at, x)
}

// The record at a place, counted from 0, or none where the table holds no record there.
pub fn show<T: Copy>(table: &[T], len: usize, at: usize) -> Option<T>
    ensures { result ≡ slice_get (take len table.now) at }
{
    table[..len.min(table.len())].get(at).copied()
}

// Takes the first record, the others moving up, and answers it with the length after; none where the table holds no record.
pub fn take_first<T: Ordered + Copy>(table: &mut [T], len: usize) -> Option<(T, usize)>
    ensures { MatchOption result (Nothing len table.old table.new) (λ a. Taken T.before a.0 len table.old table.new a.1) }
{
    let first = show(table, len, 0)?;
    let count = len.min(table.len());
    table.copy_within(1..count, 0);
    Some((first, count - 1))
}
