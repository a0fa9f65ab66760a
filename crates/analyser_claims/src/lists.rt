use std::alloc::{AllocError, Global};
use std::cell::Cell;

/// Where lists take their memory. It keeps whether that ran out, so that this is asked once.
#[derive(Drop)]
pub struct Memory {
    pub alloc: Global,
    refused: Cell<Option<AllocError>>,
}

impl Memory {
    pub(crate) fn of(alloc: Global) -> Memory {
        Memory {
            alloc,
            refused: Cell::new(None),
        }
    }

    /// An empty list.
    pub fn none<T>(&self) -> Vec<T> {
        Vec::new(self.alloc)
    }

    /// So many empty lists.
    pub fn rows<T: Drop>(&self, count: usize) -> Vec<Vec<T>> {
        self.list((0..count).map(|_| self.none()).collect(self.alloc))
    }

    /// So many of an item.
    pub fn filled<T: Copy>(&self, item: T, count: usize) -> Vec<T> {
        self.list(Vec::from_elem(self.alloc, item, count))
    }

    /// A list of these items.
    pub fn copy<T: Copy>(&self, items: &[T]) -> Vec<T> {
        self.list(Vec::from_slice(self.alloc, items))
    }

    /// Puts an item behind a list.
    pub fn push<T: Drop>(&self, list: &mut Vec<T>, item: T) {
        if let Err(error) = list.push(item) {
            self.refused.set(Some(error.into()));
        }
    }

    /// Something was put behind a list, if there was memory for it.
    pub fn put(&self, made: Result<(), AllocError>) {
        if let Err(error) = made {
            self.refused.set(Some(error));
        }
    }

    /// A list that was made, if there was memory for it.
    pub fn list<T: Drop>(&self, made: Result<Vec<T>, AllocError>) -> Vec<T> {
        match made {
            Ok(list) => list,
            Err(error) => {
                self.refused.set(Some(error));
                self.none()
            }
        }
    }

    /// Whether there was memory for all.
    pub fn finish(&self) -> Result<(), AllocError> {
        match self.refused.get() {
            Some(error) => Err(error),
            None => Ok(()),
        }
    }
}

/// The list of a number; an empty one where there is none.
pub fn row<T>(rows: &[Vec<T>], number: u32) -> &[T] {
    match rows.get(number as usize) {
        None => &[],
        Some(row) => row.as_slice(),
    }
}

/// The number of a place in a list. More than 32 bits hold fit no memory.
pub fn number_of(place: usize) -> u32 {
    u32::try_from(place).unwrap_or(u32::MAX)
}

/// Makes root numbers or block numbers ascend, each once.
pub fn settle(numbers: &mut Vec<u32>) {
    numbers.sort_unstable();
    numbers.dedup();
}
