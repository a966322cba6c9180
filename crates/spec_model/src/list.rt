//! Lists that contracts compare by their items alone.

ghost use Rattle.std.specs.Prelude.{◌≡◌, ◌++◌, ◌∷◌, ◌↔◌, [], IfOk, IsTrue, List, OnErr, OnOk, length, option_to_list, replicate, slice_set, take};
ghost use Rattle.std.specs.Cmp.Lexicographic.{lists_equiv, lists_per, pointwise};
ghost use Rattle.std.specs.List.{concat};
ghost use Rattle.spec_model.specs.Config.{with_item_at};

use std::alloc::{AllocError, Global};
use std::marker::Model;

/// A vector that contracts see as the list of its items, so that two of them are equal where their items
/// are. Definition: own.
#[derive(Debug, Drop)]
pub struct List<T> {
    items: Vec<T>,
}

/// A text, as its bytes.
pub type Bytes = List<u8>;

impl<T> Model for List<T> {
    ghost use Rattle.std.specs.Prelude.{List};
    ghost use Rattle.std.specs.Coded.{coded_list};

    ghost Value = { List T };

    ghost coded = { coded_list T.code };

    ghost view = { λ list. list.items.items };
}

impl<T> List<T> {
    /// The list of no items. It takes no memory.
    pub fn new(alloc: Global) -> List<T>
        ensures { result ≡ [] }
    {
        List {
            items: Vec::new(alloc),
        }
    }

    /// The items of a vector, as they stand there. It takes no memory.
    pub fn from_vec(items: Vec<T>) -> List<T>
        ensures { result ≡ items.items }
    {
        List { items }
    }

    /// The items as a vector. It takes no memory.
    pub fn into_vec(self) -> Vec<T>
        ensures { result.items ≡ self }
    {
        let List { items } = self;
        items
    }

    /// The items as a slice.
    pub fn as_slice(&self) -> &[T]
        ensures { result.now ≡ self.now }
    {
        self.items.as_slice()
    }

    /// The number of items.
    pub fn len(&self) -> usize
        ensures { result ≡ length self.now }
    {
        self.items.len()
    }

    /// Whether there are no items.
    pub fn is_empty(&self) -> bool
        ensures { IsTrue result ↔ (self.now ≡ []) }
    {
        self.items.is_empty()
    }

    /// Puts an item at the end. After an error the list is as it was.
    pub fn push(&mut self, item: T) -> Result<(), AllocError>
    where
        T: Drop,
        ensures ok { OnOk result (self.new ≡ self.old ++ item ∷ []) }
        ensures err { OnErr result (self.new ≡ self.old) }
    {
        self.items.push(item)?;
        Ok(())
    }

    /// Puts the item at the end, where there is one. After an error the list is as it was.
    pub fn push_some(&mut self, item: Option<T>) -> Result<(), AllocError>
    where
        T: Drop,
        ensures ok { OnOk result (self.new ≡ self.old ++ option_to_list item) }
        ensures err { OnErr result (self.new ≡ self.old) }
    {
        match item {
            None => Ok(()),
            Some(item) => self.push(item),
        }
    }

    /// Puts the items of another list at the end, in order. After an error the list is as it was.
    pub fn append(&mut self, more: List<T>) -> Result<(), AllocError>
    where
        T: Drop,
        ensures ok { OnOk result (self.new ≡ self.old ++ more) }
        ensures err { OnErr result (self.new ≡ self.old) }
    {
        let mut more = more.into_vec();
        self.items.append(&mut more)
    }

    /// Puts an item in the place of that number, if there is one.
    pub fn set(&mut self, number: usize, item: T)
    where
        T: Drop,
        ensures { self.new ≡ slice_set self.old number item }
    {
        if let Some(place) = self.items.get_mut(number) {
            *place = item;
        }
    }

    /// Keeps the first items, at most so many.
    pub fn truncate(&mut self, count: usize)
    where
        T: Drop,
        ensures { self.new ≡ take count self.old }
    {
        self.items.truncate(count);
    }
}

impl<T: Copy> List<T> {
    /// The items of a slice.
    pub fn from_slice(alloc: Global, items: &[T]) -> Result<List<T>, AllocError>
        ensures { IfOk result (λ list. list ≡ items.now) }
    {
        let items = Vec::from_slice(alloc, items)?;
        Ok(List { items })
    }

    /// A list of the same items.
    pub fn copy(&self, alloc: Global) -> Result<List<T>, AllocError>
        ensures { IfOk result (λ list. list ≡ self.now) }
    {
        List::from_slice(alloc, self.as_slice())
    }
}

impl<T: PartialEq> PartialEq for List<T> {
    ghost eq = { pointwise T.eq };

    ghost laws = { lists_per T.laws };

    fn eq(&self, other: &List<T>) -> bool {
        self.as_slice() == other.as_slice()
    }
}

impl<T: Eq> Eq for List<T> {
    ghost laws = { lists_equiv T.Eq.laws };
}

/// So many empty lists.
pub fn empty_lists<T: Drop>(alloc: Global, count: u16) -> Result<List<List<T>>, AllocError>
    ensures { IfOk result (λ lists. lists ≡ replicate count []) }
{
    let mut lists = List::new(alloc);
    for _ in 0..count {
        lists.push(List::new(alloc))?;
    }
    Ok(lists)
}

/// Puts an item at the end of the list of that number, if there is one. After an error the lists are as they were.
pub fn push_at<T: Drop>(lists: &mut List<List<T>>, number: usize, item: T) -> Result<(), AllocError>
    ensures ok { OnOk result (lists.new ≡ with_item_at lists.old number item) }
    ensures err { OnErr result (lists.new ≡ lists.old) }
{
    match lists.items.get_mut(number) {
        None => Ok(()),
        Some(list) => list.push(item),
    }
}

/// The pieces joined.
pub fn joined(alloc: Global, pieces: &[Bytes]) -> Result<Bytes, AllocError>
    ensures { IfOk result (λ text. text ≡ concat pieces.now) }
{
    let mut text = Vec::new(alloc);
    for piece in pieces {
        text.extend_from_slice(piece.as_slice())?;
    }
    Ok(Bytes::from_vec(text))
}
