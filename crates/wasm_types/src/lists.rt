ghost use Rattle.std.specs.Prelude.{◌≡◌, length};

use std::marker::Model;

/// Items in order. Contracts see the list of the items.
pub struct Items<T>(pub Vec<T>);

// Written out, so that the crates above do not prove it again of all that is in it.
impl<T: Drop> Drop for Items<T> {
    fn drop(self) {
        let Items(_items) = self;
    }
}

impl<T> Model for Items<T> {
    ghost use Rattle.std.specs.Prelude.{List};

    ghost Value = { List T };

    ghost view = { λ list. list.0.items };
}

impl<T> Items<T> {
    /// The items, lent.
    pub fn as_slice(&self) -> &[T]
        ensures { result.now ≡ self.now }
    {
        self.0.as_slice()
    }

    /// How many items there are.
    pub fn len(&self) -> usize
        ensures { result ≡ length self.now }
    {
        self.0.len()
    }

    /// The items; no memory is taken.
    pub fn into_vec(self) -> Vec<T>
        ensures { result.items ≡ self }
    {
        let Items(items) = self;
        items
    }
}

/// Bytes in order. Contracts see the list of the bytes.
#[derive(Drop)]
pub struct ByteList(pub Vec<u8>);

impl Model for ByteList {
    ghost use Rattle.std.specs.Prelude.{List, ℕ};

    ghost Value = { List ℕ };

    ghost view = { λ list. list.0.items };
}

impl ByteList {
    /// The bytes, lent.
    pub fn as_slice(&self) -> &[u8]
        ensures { result.now ≡ self.now }
    {
        self.0.as_slice()
    }

    /// How many bytes there are.
    pub fn len(&self) -> usize
        ensures { result ≡ length self.now }
    {
        self.0.len()
    }
}

/// A text. Contracts see the list of its bytes.
#[derive(Drop)]
pub struct Text(pub String);

impl Model for Text {
    ghost use Rattle.std.specs.Prelude.{List, ℕ, string_bytes};

    ghost Value = { List ℕ };

    ghost view = { λ text. string_bytes text.0 };
}

impl Text {
    /// The text, lent.
    pub fn as_str(&self) -> &str
        ensures { result.now ≡ self.now }
    {
        self.0.as_str()
    }
}
