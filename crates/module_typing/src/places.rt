ghost use Rattle.std.specs.Prelude.{◌≡◌, option_copied, slice_get};
ghost use Rattle.module_typing.specs.Imported.{seen};

// The item at a place, lent.
pub(crate) fn item<T>(items: &[T], place: usize) -> Option<&T>
    ensures { option_copied result ≡ slice_get items.now place }
{
    items.get(place)
}

// What the reference at a place leads to.
pub(crate) fn referred<'a, T>(refs: &[&'a T], place: usize) -> Option<&'a T>
    ensures { option_copied result ≡ slice_get (seen refs.now) place }
{
    refs.get(place).copied()
}
