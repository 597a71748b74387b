ghost use Rattle.std.specs.Prelude.{◌≡◌};
ghost use Rattle.wasm_values.specs.Handles.{func_of, func_store, func_index, global_of, global_store, global_index, table_of, table_store, table_index, memory_of, memory_store, memory_index, tag_of, tag_store, tag_index, instance_of, instance_store, instance_index};

use crate::store_id::StoreId;

/// A handle of a function of a store: the store's id and the place of the function in it.
///
/// A handle may be made by hand, of anything: the calls on a store refuse one that stands for nothing of theirs.
#[derive(Clone, Copy, PartialEq, Eq)]
pub struct Func {
    store: StoreId,
    index: usize,
}

impl Func {
    /// The handle of the function at place `index` of the store of the id `store`.
    pub fn from_parts(store: StoreId, index: usize) -> Self
        ensures { result ≡ func_of store index }
    {
        Func { store, index }
    }

    /// The id of the function's store.
    pub fn store_id(&self) -> StoreId
        ensures { result ≡ func_store self.now }
    {
        self.store
    }

    /// The place of the function in its store, from 0.
    pub fn index(&self) -> usize
        ensures { result ≡ func_index self.now }
    {
        self.index
    }
}

/// A handle of a global of a store: the store's id and the place of the global in it.
///
/// A handle may be made by hand, of anything: the calls on a store refuse one that stands for nothing of theirs.
#[derive(Clone, Copy, PartialEq, Eq)]
pub struct Global {
    store: StoreId,
    index: usize,
}

impl Global {
    /// The handle of the global at place `index` of the store of the id `store`.
    pub fn from_parts(store: StoreId, index: usize) -> Self
        ensures { result ≡ global_of store index }
    {
        Global { store, index }
    }

    /// The id of the global's store.
    pub fn store_id(&self) -> StoreId
        ensures { result ≡ global_store self.now }
    {
        self.store
    }

    /// The place of the global in its store, from 0.
    pub fn index(&self) -> usize
        ensures { result ≡ global_index self.now }
    {
        self.index
    }
}

/// A handle of a table of a store: the store's id and the place of the table in it.
///
/// A handle may be made by hand, of anything: the calls on a store refuse one that stands for nothing of theirs.
#[derive(Clone, Copy, PartialEq, Eq)]
pub struct Table {
    store: StoreId,
    index: usize,
}

impl Table {
    /// The handle of the table at place `index` of the store of the id `store`.
    pub fn from_parts(store: StoreId, index: usize) -> Self
        ensures { result ≡ table_of store index }
    {
        Table { store, index }
    }

    /// The id of the table's store.
    pub fn store_id(&self) -> StoreId
        ensures { result ≡ table_store self.now }
    {
        self.store
    }

    /// The place of the table in its store, from 0.
    pub fn index(&self) -> usize
        ensures { result ≡ table_index self.now }
    {
        self.index
    }
}

/// A handle of a memory of a store: the store's id and the place of the memory in it.
///
/// A handle may be made by hand, of anything: the calls on a store refuse one that stands for nothing of theirs.
#[derive(Clone, Copy, PartialEq, Eq)]
pub struct Memory {
    store: StoreId,
    index: usize,
}

impl Memory {
    /// The handle of the memory at place `index` of the store of the id `store`.
    pub fn from_parts(store: StoreId, index: usize) -> Self
        ensures { result ≡ memory_of store index }
    {
        Memory { store, index }
    }

    /// The id of the memory's store.
    pub fn store_id(&self) -> StoreId
        ensures { result ≡ memory_store self.now }
    {
        self.store
    }

    /// The place of the memory in its store, from 0.
    pub fn index(&self) -> usize
        ensures { result ≡ memory_index self.now }
    {
        self.index
    }
}

/// A handle of a tag of a store: the store's id and the place of the tag in it.
///
/// A handle may be made by hand, of anything: the calls on a store refuse one that stands for nothing of theirs.
#[derive(Clone, Copy, PartialEq, Eq)]
pub struct Tag {
    store: StoreId,
    index: usize,
}

impl Tag {
    /// The handle of the tag at place `index` of the store of the id `store`.
    pub fn from_parts(store: StoreId, index: usize) -> Self
        ensures { result ≡ tag_of store index }
    {
        Tag { store, index }
    }

    /// The id of the tag's store.
    pub fn store_id(&self) -> StoreId
        ensures { result ≡ tag_store self.now }
    {
        self.store
    }

    /// The place of the tag in its store, from 0.
    pub fn index(&self) -> usize
        ensures { result ≡ tag_index self.now }
    {
        self.index
    }
}

/// A handle of an instance of a store: the store's id and the place of the instance in it.
///
/// A handle may be made by hand, of anything: the calls on a store refuse one that stands for nothing of theirs.
#[derive(Clone, Copy, PartialEq, Eq)]
pub struct Instance {
    store: StoreId,
    index: usize,
}

impl Instance {
    /// The handle of the instance at place `index` of the store of the id `store`.
    pub fn from_parts(store: StoreId, index: usize) -> Self
        ensures { result ≡ instance_of store index }
    {
        Instance { store, index }
    }

    /// The id of the instance's store.
    pub fn store_id(&self) -> StoreId
        ensures { result ≡ instance_store self.now }
    {
        self.store
    }

    /// The place of the instance in its store, from 0.
    pub fn index(&self) -> usize
        ensures { result ≡ instance_index self.now }
    {
        self.index
    }
}
