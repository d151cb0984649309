// Numbers sorted in place, by the library: it takes no memory, and at 1,024 numbers less than 3 KiB of stack.
ghost use Rattle.std.specs.Prelude.{◌≡◌, ◌++◌, ◌+◌, ◌≤◌, ◌<◌, length, take, drop, get_or};
ghost use Rattle.ranking.specs.Sort.{itself, insert, sort_by};
ghost use Rattle.ranking.specs.Order.{Ascending};

// The number at a place goes in among those before it, which are in order: each that is greater moves up by one, until the place is found.
pub fn put_in(keys: &mut [u64], at: usize)
    requires at_in_bounds { at < length keys.old }
    requires ascending { Ascending itself (take at keys.old) }
    ensures { keys.new ≡ insert itself (get_or keys.old at 0) (take at keys.old) ++ drop (at + 1) keys.old }
{
    let key = keys[at];
    let mut i = at;
    while 0 < i && key < keys[i - 1] {
        keys[i] = keys[i - 1];
        i -= 1;
    }
    keys[i] = key;
}

// The first n are sorted, and the rest stays as it is.
// The count stays beside the slice: the contract and the must-fail edit `one_more_sorted` speak of what stands behind the first n.
pub fn sort(keys: &mut [u64], n: usize)
    requires { n ≤ length keys.old }
    ensures { keys.new ≡ sort_by itself (take n keys.old) ++ drop n keys.old }
{
    keys[..n].sort_unstable();
}
