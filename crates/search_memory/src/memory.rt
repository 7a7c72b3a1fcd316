use std::alloc::Global;
use std::cell::Cell;
use tso_ops::OutOfMemory;

/// Where lists get their memory. Where some is refused, the list goes without, and that is noted here: whoever makes lists looks
/// once, when they are made, and then nothing that was found counts.
#[derive(Drop)]
pub struct Memory {
    alloc: Global,
    is_refused: Cell<bool>,
}

impl Memory {
    /// Memory of which nothing was refused.
    pub fn new(alloc: Global) -> Memory {
        Memory {
            alloc,
            is_refused: Cell::new(false),
        }
    }

    /// Where it comes from.
    pub fn alloc(&self) -> Global {
        self.alloc
    }

    /// Whether some was refused.
    pub fn is_refused(&self) -> bool {
        self.is_refused.get()
    }

    /// Notes whether some was refused.
    #[inline]
    pub fn note(&self, is_refused: bool) {
        if is_refused {
            self.is_refused.set(true);
        }
    }

    /// Pushes an item to a list.
    #[inline]
    pub fn push<T: Drop>(&self, items: &mut Vec<T>, item: T) {
        self.note(items.push(item).is_err());
    }

    /// The list that was made, or an empty one where its memory was refused.
    pub fn list<T: Drop, E: Drop>(&self, made: Result<Vec<T>, E>) -> Vec<T> {
        match made {
            Ok(items) => items,
            Err(_) => {
                self.note(true);
                Vec::new(self.alloc)
            }
        }
    }

    /// A list with this item, so many times.
    pub fn filled<T: Copy>(&self, item: T, count: usize) -> Vec<T> {
        self.list(vec![in self.alloc; item; count])
    }

    /// A list of these items.
    pub fn copied<T: Copy>(&self, items: &[T]) -> Vec<T> {
        self.list(Vec::from_slice(self.alloc, items))
    }

    /// An empty list with room for so many items.
    pub fn room<T: Drop>(&self, count: usize) -> Vec<T> {
        self.list(Vec::with_capacity(self.alloc, count))
    }

    /// What was made, unless some memory was refused.
    pub fn whole<T: Drop>(&self, made: T) -> Result<T, OutOfMemory> {
        if self.is_refused() {
            Err(OutOfMemory)
        } else {
            Ok(made)
        }
    }
}
