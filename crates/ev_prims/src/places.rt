//! Places in texts and lists, as integers name them.

ghost use Rattle.std.specs.Prelude.{◌≡◌, ◌+◌, ◌<◌, ◌≤◌, IfSome};
ghost use Rattle.def_machine.specs.Native as native;

/// The place that an index names among so many.
#[tactic(auto, unfolding(def_machine::specs::Native::index_in))]
pub(crate) fn index_in(count: usize, index: i128) -> Option<usize>
    ensures place { result ≡ native.index_in count index }
    ensures within { IfSome result (λ place. place < count) }
{
    if 0 <= index && index < count as i128 {
        Some(index as usize)
    } else {
        None
    }
}

/// From one place to before another among so many: where it begins, and how many.
#[tactic(auto, unfolding(def_machine::specs::Native::range_in))]
pub(crate) fn range_in(count: usize, start: i128, end: i128) -> Option<(usize, usize)>
    ensures range { result ≡ native.range_in count start end }
    ensures within { IfSome result (λ range. range.0 + range.1 ≤ count) }
{
    if 0 <= start && start <= end && end <= count as i128 {
        let first = start as usize;
        let past = end as usize;
        Some((first, past - first))
    } else {
        None
    }
}
