// The front of a list is cleared.
ghost use Rattle.std.specs.Prelude.{◌≤◌, ◌++◌, ◌≡◌, length, drop, replicate};

// Zeros for the first `count` entries.
pub fn clear(list: &mut [u16], count: usize)
    requires { count ≤ length list.old }
    ensures { list.new ≡ replicate count 0 ++ drop count list.old }
{
    list[..count].fill(0);
}
