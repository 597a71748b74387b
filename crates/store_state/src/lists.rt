ghost use Rattle.std.specs.Prelude.{◌≡◌, ◌+◌, ◌≤◌, ◌++◌, vec_len, vec_capacity};

/// Moves all of `more` to the end of a list that has room for it.
pub(crate) fn append_reserved<T: Drop>(list: &mut Vec<T>, mut more: Vec<T>)
    requires { vec_len list.old + vec_len more ≤ vec_capacity list.old }
    ensures { list.new.items ≡ list.old.items ++ more.items }
{
    match list.append(&mut more) {
        Ok(()) => {}
        Err(_) => unreachable!(),
    }
}
