ghost use Rattle.std.specs.Prelude.{◌≡◌, ◌≤◌, ◌++◌, length, take, drop, min};

/// Copies the front of `from` over the front of `target`, as many bytes as both have, and answers how many.
pub(crate) fn copy_front(target: &mut [u8], from: &[u8]) -> usize
    ensures count { result ≡ min (length target.old) (length from.now) }
    ensures copied { target.new ≡ take result from.now ++ drop result target.old }
{
    let count = target.len().min(from.len());
    target[..count].copy_from_slice(&from[..count]);
    count
}

/// Copies the bytes over the front of `target`, which has place for them.
pub(crate) fn copy_all(target: &mut [u8], from: &[u8])
    requires { length from.now ≤ length target.old }
    ensures { target.new ≡ from.now ++ drop (length from.now) target.old }
{
    target[..from.len()].copy_from_slice(from);
}
