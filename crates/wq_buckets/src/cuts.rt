//! A list cut into consecutive pieces, of which only the beginnings are kept. A piece is found in constant time.

ghost use Rattle.std.specs.Prelude.{◌≡◌, ◌<◌, ◌≤◌, ◌+◌, length, slice_range};
ghost use Rattle.wq_buckets.specs.Cuts.{AreCuts, piece};

/// The part of a list from place `begin` up to place `end`.
fn between<'a, T>(whole: &'a [T], begin: usize, end: usize) -> &'a [T]
    requires begin { begin ≤ end }
    requires end { end ≤ length whole.now }
    ensures { result.now ≡ slice_range whole.now begin end }
{
    &whole[begin..end]
}

/// Piece `k` of a list that is cut at the places `begins`, the last of which is the end of the last piece.
pub(crate) fn piece<'a, T>(whole: &'a [T], begins: &[usize], k: u16) -> &'a [T]
    requires cuts { AreCuts begins.now (length whole.now) }
    requires among { k + 1 < length begins.now }
    ensures { result.now ≡ piece begins.now whole.now k }
{
    let k = usize::from(k);
    between(whole, begins[k], begins[k + 1])
}
