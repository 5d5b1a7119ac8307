//! A `Vec` that contracts see as the list of its elements.
//!
//! A clause that compares two values with a `Vec` inside would compare their capacities too. With an
//! [`Items`] in its place the two are equal exactly where their elements are.
#![tactic(auto)]

ghost use Rattle.std.specs.Prelude.{◌≡◌, [], ◌∷◌, ◌++◌, ◌↔◌, length, IsTrue, IfOk, OnOk, OnErr, MatchOption};

use std::alloc::{AllocError, Global};
use std::marker::Model;

/// A `Vec` that contracts see as the list of its elements.
#[derive(Debug, Drop)]
pub struct Items<T> {
    items: Vec<T>,
}

impl<T> Model for Items<T> {
    ghost use Rattle.std.specs.Prelude.{List};
    ghost use Rattle.std.specs.Coded.{coded_list};

    ghost Value = { List T };

    ghost coded = { coded_list T.code };

    ghost view = { λ it. it.items.items };
}

impl<T> Items<T> {
    /// Takes no memory until the first item comes.
    pub fn new(alloc: Global) -> Items<T>
        ensures { result ≡ [] }
    {
        Items {
            items: Vec::new(alloc),
        }
    }

    /// Moves nothing and takes no memory.
    pub fn from_vec(items: Vec<T>) -> Items<T>
        ensures { result ≡ items.items }
    {
        Items { items }
    }

    /// Moves nothing and takes no memory.
    pub fn into_vec(self) -> Vec<T>
        ensures { result.items ≡ self }
    {
        let Items { items } = self;
        items
    }

    pub fn as_slice(&self) -> &[T]
        ensures { result.now ≡ self.now }
    {
        self.items.as_slice()
    }

    pub fn len(&self) -> usize
        ensures { result ≡ length self.now }
    {
        self.items.len()
    }

    pub fn is_empty(&self) -> bool
        ensures { IsTrue result ↔ (self.now ≡ []) }
    {
        self.items.is_empty()
    }

    pub fn pop(&mut self) -> Option<T>
        ensures { MatchOption result ((self.old ≡ []) × (self.new ≡ [])) (λ last. self.old ≡ self.new ++ last ∷ []) }
    {
        self.items.pop()
    }
}

impl<T: Drop> Items<T> {
    pub fn push(&mut self, item: T) -> Result<(), AllocError>
        ensures ok { OnOk result (self.new ≡ self.old ++ item ∷ []) }
        ensures err { OnErr result (self.new ≡ self.old) }
    {
        self.items.push(item)?;
        Ok(())
    }
}

impl<T: Copy> Items<T> {
    /// One copy of the slice, in one allocation.
    pub fn from_slice(alloc: Global, items: &[T]) -> Result<Items<T>, AllocError>
        ensures { IfOk result (λ it. it ≡ items.now) }
    {
        let items = Vec::from_slice(alloc, items)?;
        Ok(Items { items })
    }
}

#[cfg(test)]
mod tests {
    use super::*;
    use std::test::Fail;

    #[test]
    fn a_vec_comes_back_with_what_was_pushed(rt: HostRuntime) -> Result<(), Fail> {
        let alloc = rt.alloc();
        let mut items = Items::from_vec(vec![in alloc; 3u8, 1]?);
        items.push(4)?;
        assert_eq!(rt; items.len(), 3);
        assert_eq!(rt; items.as_slice(), [3, 1, 4].as_slice());
        assert_eq!(rt; items.pop(), Some(4));
        assert_eq!(rt; items.into_vec().as_slice(), [3, 1].as_slice());
        Ok(())
    }

    #[test]
    fn a_copy_of_a_slice_is_the_slice(rt: HostRuntime) -> Result<(), Fail> {
        let items = Items::from_slice(rt.alloc(), &[1u16, 2])?;
        assert_eq!(rt; items.as_slice(), [1, 2].as_slice());
        assert!(rt; !items.is_empty());
        assert!(rt; Items::<u8>::new(rt.alloc()).is_empty());
        Ok(())
    }
}
