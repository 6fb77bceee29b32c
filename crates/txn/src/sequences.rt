ghost use Rattle.std.specs.Prelude.{◌≡◌, ◌-◌, ◌<◌, ◌↔◌, List, [], ◌∷◌, ◌++◌, length, OnOk, OnErr, IfOk, IfErr, IsTrue, slice_set, slice_index_or, take};
ghost use Rattle.std.specs.Option.{option_to_list};

use std::alloc::{AllocError, AllocFailed, Global};
use std::marker::Model;

/// A list of values, kept in a `Vec`. Contracts see the list.
#[derive(Clone, Drop, Debug)]
pub struct Sequence<T> {
    items: Vec<T>,
}

impl<T> Model for Sequence<T> {
    ghost Value = { List T };

    ghost view = { λ s. s.items.items };
}

impl<T> Sequence<T> {
    pub fn new(items: Vec<T>) -> Self
        ensures { result ≡ items.items }
    {
        Self { items }
    }

    /// Where its memory comes from.
    pub fn allocator(&self) -> Global {
        *self.items.allocator()
    }

    /// Gives the items back, without taking memory.
    pub fn into_vec(self) -> Vec<T>
        ensures { result.items ≡ self }
    {
        let Sequence { items } = self;
        items
    }

    pub fn as_slice(&self) -> &[T]
        ensures { result.now ≡ self.now }
    {
        self.items.as_slice()
    }

    pub fn len(&self) -> usize
        ensures { result ≡ length self.now }
    {
        self.items.len()
    }

    pub fn is_empty(&self) -> bool
        ensures { IsTrue result ↔ (self.now ≡ []) }
    {
        self.items.is_empty()
    }

    /// Puts an item at the end, or hands it back where no memory is found.
    pub fn push(&mut self, item: T) -> Result<(), AllocFailed<T>>
        ensures ok { OnOk result (self.new ≡ self.old ++ item ∷ []) }
        ensures err { IfErr result (λ back. (back.value ≡ item) × (self.new ≡ self.old)) }
    {
        self.items.push(item)
    }

    /// Takes off the last item, where there is one.
    pub fn pop(&mut self) -> Option<T>
        ensures last { self.old ≡ self.new ++ option_to_list result }
        ensures rest { self.new ≡ take (length self.old - 1) self.old }
    {
        self.items.pop()
    }
}

impl<T: Drop> Sequence<T> {
    /// Puts the items of another list at the end, all of them or none.
    pub fn append(&mut self, more: Sequence<T>) -> Result<(), AllocError>
        ensures ok { OnOk result (self.new ≡ self.old ++ more) }
        ensures err { OnErr result (self.new ≡ self.old) }
    {
        let mut more = more.into_vec();
        self.items.append(&mut more)?;
        Ok(())
    }

    /// Puts another item in this place.
    pub fn set(&mut self, place: usize, item: T)
        requires { place < length self.old }
        ensures { self.new ≡ slice_set self.old place item }
    {
        let items = &mut self.items;
        items[place] = item;
    }
}

impl<T: Drop> Sequence<Sequence<T>> {
    /// Puts items at the end of one of the lists, all of them or none.
    pub fn append_at(&mut self, place: usize, more: Sequence<T>) -> Result<(), AllocError>
        requires { place < length self.old }
        ensures ok { OnOk result (self.new ≡ slice_set self.old place (slice_index_or self.old place [] ++ more)) }
        ensures err { OnErr result (self.new ≡ self.old) }
    {
        let items = &mut self.items;
        let list = &mut items[place];
        list.append(more)
    }

    /// Leaves so many of the first items of one of the lists.
    pub fn truncate_at(&mut self, place: usize, len: usize)
        requires { place < length self.old }
        ensures { self.new ≡ slice_set self.old place (take len (slice_index_or self.old place [])) }
    {
        let lists = &mut self.items;
        let list = &mut lists[place];
        list.items.truncate(len);
    }
}
