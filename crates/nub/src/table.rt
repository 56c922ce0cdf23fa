//! Tables with places that may not be there.
ghost use Rattle.std.specs.Prelude.{◌≡◌, slice_index_or, slice_set};

/// What the table holds at `i`, and `past` where it has no such place.
pub(crate) fn at<T: Copy>(table: &[T], i: usize, past: T) -> T
    ensures { result ≡ slice_index_or table.now i past }
{
    table.get(i).copied().unwrap_or(past)
}

/// Puts `x` at `i`; a table that has no such place stays as it was.
pub(crate) fn put<T: Copy>(table: &mut [T], i: usize, x: T)
    ensures { table.new ≡ slice_set table.old i x }
{
    // By index: a proof is told nothing of what is written through the `get_mut` of a slice.
    if i < table.len() {
        table[i] = x;
    }
}
