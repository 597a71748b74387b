ghost use Rattle.std.specs.Prelude.{◌≡◌, ◌≤◌, ◌%◌, ◌*◌, ◌&&◌, length, replicate, IfOk, OnOk};
ghost use Rattle.std.specs.Bool.{OnTrue, OnFalse};
ghost use Rattle.std.specs.Borrow.{sem};
ghost use Rattle.wasm_types.specs.Ranges.{is_range, range_of, with_range};
ghost use Rattle.wasm_types.specs.MemoryTypes.{page_size};
ghost use Rattle.wasm_types.specs.Memories.{memory, new_memory};
ghost use Rattle.wasm_objects.specs.Growth.{longer_memory};
ghost use Rattle.wasm_objects.specs.Lazy.{imaged_memory};
ghost use Rattle.wasm_objects.specs.Lending.{LendsBytes};

use crate::ranges::{copy_from, copy_within, fill, holds, lengthen};
use crate::segments::DataSegment;
use std::alloc::Global;
use std::marker::Model;
use wasm_types::{MemoryType, OutOfMemory};

/// A memory: its type, and its bytes. Contracts see both, and for how many more bytes there is room.
pub struct MemoryObject {
    ty: MemoryType,
    bytes: Vec<u8>,
}

// Written out, so that the crates above do not prove it again of all that is in it.
impl Drop for MemoryObject {
    fn drop(self) {
        let MemoryObject {
            ty: _ty,
            bytes: _bytes,
        } = self;
    }
}

impl Model for MemoryObject {
    ghost use Rattle.std.specs.Prelude.{◌-◌, vec_len, vec_capacity};
    ghost use Rattle.wasm_types.specs.Memories.{memory};
    ghost use Rattle.wasm_objects.specs.Growth.{MemoryObjectParts};
    ghost use Rattle.wasm_objects.specs.Objects.{memory_object_parts};

    ghost Value = { MemoryObjectParts };

    ghost view = { λ m. memory_object_parts (memory m.ty m.bytes.items) (vec_capacity m.bytes - vec_len m.bytes) };
}

impl MemoryObject {
    /// A memory of the minimum of `ty`, in pages, with all bytes zero.
    pub fn try_new(alloc: Global, ty: MemoryType) -> Result<MemoryObject, OutOfMemory>
        ensures { IfOk result (λ made. made.memory ≡ new_memory ty) }
    {
        let length = ty.minimum() as usize * ty.page_size() as usize;
        let bytes = vec![in alloc; 0u8; length]?;
        Ok(MemoryObject { ty, bytes })
    }

    /// A memory of the minimum of `ty`, in pages, that begins with an image, which fits it, and is zero behind it.
    pub fn try_new_with(
        alloc: Global,
        ty: MemoryType,
        image: &[u8],
    ) -> Result<MemoryObject, OutOfMemory>
        requires fits { length image.now ≤ ty.minimum * page_size ty }
        ensures { IfOk result (λ made. made.memory ≡ imaged_memory ty image.now) }
    {
        let size = ty.minimum() as usize * ty.page_size() as usize;
        let mut bytes = Vec::with_capacity(alloc, size)?;
        bytes.extend_from_slice(image)?;
        let rest = size - image.len();
        lengthen(&mut bytes, rest, 0);
        Ok(MemoryObject { ty, bytes })
    }

    /// The type that it was made with.
    pub fn ty(&self) -> &MemoryType
        ensures { result.now ≡ self.now.memory.ty }
    {
        &self.ty
    }

    /// The bytes, lent.
    pub fn bytes(&self) -> &[u8]
        ensures { result.now ≡ self.now.memory.bytes }
    {
        self.bytes.as_slice()
    }

    /// The bytes, lent to be written. Once the loan ends, the memory holds what was left there.
    pub fn bytes_mut(&mut self) -> &mut [u8]
        ensures* lends { sem 𝓛 (LendsBytes self.entry result) }
        ensures value { result.now ≡ self.old.memory.bytes }
    {
        self.bytes.as_mut_slice()
    }

    /// Makes room for `extra` more bytes, without which `grow` may not be called.
    pub fn reserve(&mut self, extra: usize) -> Result<(), OutOfMemory>
        ensures room { OnOk result (extra ≤ self.new.spare) }
        ensures unchanged { self.new.memory ≡ self.old.memory }
    {
        self.bytes.reserve(extra)?;
        Ok(())
    }

    /// Appends `extra` zero bytes, for which there is room: whole pages. It takes no memory.
    pub fn grow(&mut self, extra: usize)
        requires room { extra ≤ self.old.spare }
        requires whole_pages { extra % page_size self.old.memory.ty ≡ 0 }
        ensures { self.new.memory ≡ longer_memory self.old.memory extra }
    {
        lengthen(&mut self.bytes, extra, 0);
    }

    /// Copies the bytes from the byte `at` on into all of `buffer`.
    ///
    /// `false` exactly where that range passes the end: then nothing is copied. The empty range is there at the
    /// end, and is not past it.
    pub fn read(&self, at: usize, buffer: &mut [u8]) -> bool
        ensures range { result ≡ is_range at (length buffer.old) self.now.memory.bytes }
        ensures copied { OnTrue result (buffer.new ≡ range_of at (length buffer.old) self.now.memory.bytes) }
        ensures refused { OnFalse result (buffer.new ≡ buffer.old) }
    {
        if !holds(&self.bytes, at, buffer.len()) {
            return false;
        }
        buffer.copy_from_slice(&self.bytes[at..at + buffer.len()]);
        true
    }

    /// Replaces the bytes from the byte `at` on by `piece`, and no other byte.
    ///
    /// `false` exactly where that range passes the end: then nothing changes. The empty range is there at the end,
    /// and is not past it.
    pub fn write(&mut self, at: usize, piece: &[u8]) -> bool
        ensures range { result ≡ is_range at (length piece.now) self.old.memory.bytes }
        ensures written { OnTrue result (self.new.memory ≡ memory self.old.memory.ty
            (with_range at piece.now self.old.memory.bytes)) }
        ensures refused { OnFalse result (self.new.memory ≡ self.old.memory) }
    {
        if !holds(&self.bytes, at, piece.len()) {
            return false;
        }
        self.bytes[at..at + piece.len()].copy_from_slice(piece);
        true
    }

    /// Makes `len` bytes from the byte `at` on all `byte`.
    ///
    /// `false` exactly where that range passes the end: then nothing changes.
    pub fn fill(&mut self, at: usize, byte: u8, len: usize) -> bool
        ensures range { result ≡ is_range at len self.old.memory.bytes }
        ensures filled { OnTrue result (self.new.memory ≡ memory self.old.memory.ty
            (with_range at (replicate len byte) self.old.memory.bytes)) }
        ensures refused { OnFalse result (self.new.memory ≡ self.old.memory) }
    {
        fill(&mut self.bytes, at, byte, len)
    }

    /// Replaces `len` bytes from the byte `dst` on by those from the byte `src` on, as they were before.
    ///
    /// `false` exactly where one of the two ranges passes the end: then nothing changes.
    pub fn copy_within(&mut self, dst: usize, src: usize, len: usize) -> bool
        ensures range { result ≡ (is_range dst len self.old.memory.bytes && is_range src len self.old.memory.bytes) }
        ensures copied { OnTrue result (self.new.memory ≡ memory self.old.memory.ty
            (with_range dst (range_of src len self.old.memory.bytes) self.old.memory.bytes)) }
        ensures refused { OnFalse result (self.new.memory ≡ self.old.memory) }
    {
        copy_within(&mut self.bytes, dst, src, len)
    }

    /// Replaces `len` bytes from the byte `dst` on by those of another memory from its byte `src` on.
    ///
    /// `false` exactly where one of the two ranges passes the end of its memory: then nothing changes.
    pub fn copy_from(&mut self, dst: usize, other: &MemoryObject, src: usize, len: usize) -> bool
        ensures range { result ≡
            (is_range dst len self.old.memory.bytes && is_range src len other.now.memory.bytes) }
        ensures copied { OnTrue result (self.new.memory ≡ memory self.old.memory.ty
            (with_range dst (range_of src len other.now.memory.bytes) self.old.memory.bytes)) }
        ensures refused { OnFalse result (self.new.memory ≡ self.old.memory) }
    {
        copy_from(&mut self.bytes, dst, &other.bytes, src, len)
    }

    /// Replaces `len` bytes from the byte `dst` on by those of a segment from its byte `src` on.
    ///
    /// `false` exactly where one of the two ranges passes its end: then nothing changes.
    pub fn init(&mut self, dst: usize, segment: &DataSegment, src: usize, len: usize) -> bool
        ensures range { result ≡ (is_range dst len self.old.memory.bytes && is_range src len segment.now) }
        ensures copied { OnTrue result (self.new.memory ≡ memory self.old.memory.ty
            (with_range dst (range_of src len segment.now) self.old.memory.bytes)) }
        ensures refused { OnFalse result (self.new.memory ≡ self.old.memory) }
    {
        copy_from(&mut self.bytes, dst, segment.items(), src, len)
    }
}
