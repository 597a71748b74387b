ghost use Rattle.std.specs.Prelude.{◌≡◌, ◌≤◌, ◌+◌, ◌++◌, ◌&&◌, replicate, vec_len, vec_capacity};
ghost use Rattle.std.specs.Bool.{OnTrue, OnFalse};
ghost use Rattle.wasm_types.specs.Ranges.{is_range, range_of, with_range};

// Whether bytes or references have such a range. The empty one is there at the end.
pub(crate) fn holds<X: Copy>(items: &[X], at: usize, count: usize) -> bool
    ensures { result ≡ is_range at count items.now }
{
    at <= items.len() && count <= items.len() - at
}

// Makes `len` items from the place `at` on all `value`; `false` exactly where that range passes the end.
pub(crate) fn fill<X: Copy>(items: &mut [X], at: usize, value: X, len: usize) -> bool
    requires infallible { X.is_infallible value }
    requires exact { (y : X) → X.is_clone value y → y ≡ value }
    ensures range { result ≡ is_range at len items.old }
    ensures filled { OnTrue result (items.new ≡ with_range at (replicate len value) items.old) }
    ensures refused { OnFalse result (items.new ≡ items.old) }
{
    if !holds(items, at, len) {
        return false;
    }
    items[at..at + len].fill(value);
    true
}

// Replaces `len` items from the place `dst` on by those from the place `src` on, as they were; `false` exactly where one of
// the two ranges passes the end.
pub(crate) fn copy_within<X: Copy>(items: &mut [X], dst: usize, src: usize, len: usize) -> bool
    ensures range { result ≡ (is_range dst len items.old && is_range src len items.old) }
    ensures copied { OnTrue result (items.new ≡ with_range dst (range_of src len items.old) items.old) }
    ensures refused { OnFalse result (items.new ≡ items.old) }
{
    if !holds(items, dst, len) || !holds(items, src, len) {
        return false;
    }
    items.copy_within(src..src + len, dst);
    true
}

// Replaces `len` items from the place `dst` on by those of `source` from its place `src` on; `false` exactly where one of
// the two ranges passes its end.
pub(crate) fn copy_from<X: Copy>(
    items: &mut [X],
    dst: usize,
    source: &[X],
    src: usize,
    len: usize,
) -> bool
    ensures range { result ≡ (is_range dst len items.old && is_range src len source.now) }
    ensures copied { OnTrue result (items.new ≡ with_range dst (range_of src len source.now) items.old) }
    ensures refused { OnFalse result (items.new ≡ items.old) }
{
    if !holds(items, dst, len) || !holds(source, src, len) {
        return false;
    }
    items[dst..dst + len].copy_from_slice(&source[src..src + len]);
    true
}

// Appends `extra` items, each of them `value`, for which there is room. It takes no memory.
pub(crate) fn lengthen<X: Copy>(items: &mut Vec<X>, extra: usize, value: X)
    requires { vec_len items.old + extra ≤ vec_capacity items.old }
    ensures { items.new.items ≡ items.old.items ++ replicate extra value }
{
    let length = items.len() + extra;
    match items.resize(length, value) {
        Ok(()) => {}
        Err(_) => unreachable!(),
    }
}
