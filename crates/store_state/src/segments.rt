ghost use Rattle.std.specs.Prelude.{◌≡◌, List, [], length, nat_lt, set, slice_get, option_map, OnOk};
ghost use Rattle.std.specs.Bool.{OnTrue, OnFalse};
ghost use Rattle.store_state.specs.Lists.{items_behind, bytes_behind};
ghost use Rattle.store_state.specs.Machine.{instances_of};
ghost use Rattle.store_state.specs.Parts.{Names, segment_parts};

use std::alloc::Global;
use std::marker::Model;
use wasm_objects::{DataSegment, ElemSegment};
use wasm_types::OutOfMemory;

/// The segments of an instance.
pub struct Segments {
    elements: Vec<ElemSegment>,
    datas: Vec<DataSegment>,
}

// Written out, so that the crates above do not prove it again of all that is in it.
impl Drop for Segments {
    fn drop(self) {
        let Segments {
            elements: _elements,
            datas: _datas,
        } = self;
    }
}

impl Model for Segments {
    ghost use Rattle.store_state.specs.Codes.{segments_code};
    ghost use Rattle.store_state.specs.Parts.{SegmentParts, segment_parts};

    ghost Value = { SegmentParts };

    ghost coded = { segments_code };

    ghost view = { λ s. segment_parts s.elements.items s.datas.items };
}

impl Segments {
    /// These segments.
    pub fn new(elements: Vec<ElemSegment>, datas: Vec<DataSegment>) -> Segments
        ensures { result ≡ segment_parts elements.items datas.items }
    {
        Segments { elements, datas }
    }

    pub(crate) fn elements(&self) -> &[ElemSegment]
        ensures { result.now ≡ self.now.elements }
    {
        self.elements.as_slice()
    }

    pub(crate) fn element(&self, index: usize) -> Option<&ElemSegment>
        ensures { option_map items_behind result ≡ slice_get self.now.elements index }
    {
        self.elements.get(index)
    }

    pub(crate) fn data(&self, index: usize) -> Option<&DataSegment>
        ensures { option_map bytes_behind result ≡ slice_get self.now.datas index }
    {
        self.datas.get(index)
    }

    /// Makes an element segment empty; `false` where there is none, and then nothing changes.
    pub(crate) fn drop_element(&mut self, index: usize) -> bool
        ensures there { result ≡ nat_lt index (length self.old.elements) }
        ensures dropped { OnTrue result
            (self.new ≡ segment_parts (set self.old.elements index []) self.old.datas) }
        ensures refused { OnFalse result (self.new ≡ self.old) }
    {
        if index >= self.elements.len() {
            return false;
        }
        self.elements[index].clear();
        true
    }

    /// Makes a data segment empty; `false` where there is none, and then nothing changes.
    pub(crate) fn drop_data(&mut self, index: usize) -> bool
        ensures there { result ≡ nat_lt index (length self.old.datas) }
        ensures dropped { OnTrue result
            (self.new ≡ segment_parts self.old.elements (set self.old.datas index [])) }
        ensures refused { OnFalse result (self.new ≡ self.old) }
    {
        if index >= self.datas.len() {
            return false;
        }
        self.datas[index].clear();
        true
    }
}

/// Makes a list of segments one of so many instances: an instance for which none are held has none from now on. It is
/// the same to so many instances, also where memory ran out.
pub(crate) fn fit(
    alloc: Global,
    list: &mut Vec<Segments>,
    instances: usize,
) -> Result<(), OutOfMemory>
    ensures same { (ns : List Names) → length ns ≡ instances →
        instances_of ns list.new.items ≡ instances_of ns list.old.items }
    ensures fitted { OnOk result (length list.new.items ≡ instances) }
{
    list.truncate(instances);
    'fit: while list.len() < instances {
        list.push(Segments::new(Vec::new(alloc), Vec::new(alloc)))?;
    }
    Ok(())
}
