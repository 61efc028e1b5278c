// One entry of an array, by a place that may lie past its end: nothing stands there, and nothing is stored there.
ghost use Rattle.std.specs.Prelude.{◌≡◌, get_or};
ghost use Rattle.numbers.specs.Entries.{stored_at};

// The entry at a place, or `none` past the end.
pub fn entry_or<T: Copy, const N: usize>(entries: [T; N], at: u8, none: T) -> T
    ensures { result ≡ get_or entries at none }
{
    entries.get(usize::from(at)).copied().unwrap_or(none)
}

// The array with one entry stored.
pub fn stored_at<T: Copy, const N: usize>(mut entries: [T; N], at: u8, entry: T) -> [T; N]
    ensures { result ≡ stored_at N entries at entry }
{
    let at = usize::from(at);
    if at < N {
        entries[at] = entry;
    }
    entries
}
