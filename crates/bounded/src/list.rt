// A list of at most N items, in memory that is reserved when it is made: adding to it needs none.
ghost use Rattle.std.specs.Prelude.{◌≡◌, ◌<◌, ◌≤◌, ◌==◌, [], ◌∷◌, ◌++◌, Ok, Err, length, remove, IfOk, if◌then◌else◌, nat_lt, slice_index_or, vec_capacity, vec_len};
ghost use Rattle.std.specs.Borrow.{sem};

use std::alloc::{AllocError, Global};
use std::marker::Model;

#[derive(Drop)]
pub struct Bounded<T, const N: usize> {
    items: Vec<T>,
}

impl<T, const N: usize> Model for Bounded<T, N> {
    ghost use Rattle.std.specs.Prelude.{◌≤◌, List, vec_len, vec_capacity};

    ghost Value = { List T };

    ghost view = { λ b. b.items.items };

    ghost invariant = { λ b. (vec_len b.items ≤ N) × (N ≤ vec_capacity b.items) };
}

// The item that a full list did not take.
#[derive(Clone, Copy, Debug, Drop, Eq, PartialEq)]
pub struct Full<T>(pub T);

impl<T, const N: usize> Bounded<T, N> {
    ghost use Rattle.bounded.specs.Lends.{lends_slice};

    // An empty list, with memory for N items.
    pub fn new(heap: Global) -> Result<Self, AllocError>
        ensures { IfOk result (λ list. list ≡ []) }
    {
        let items = Vec::with_capacity(heap, N)?;
        Ok(Bounded { items })
    }

    // A list over a vector that has its memory.
    pub fn over(memory: Vec<T>) -> Self
        requires few { vec_len memory ≤ N }
        requires reserved { N ≤ vec_capacity memory }
        ensures { result ≡ memory.items }
    {
        Bounded { items: memory }
    }

    pub fn len(&self) -> usize
        ensures value { result ≡ length self.now }
        ensures few { result ≤ N }
    {
        self.items.len()
    }

    pub fn is_full(&self) -> bool
        ensures value { result ≡ (length self.now == N) }
        ensures few { length self.now ≤ N }
    {
        self.len() == N
    }

    pub fn as_slice(&self) -> &[T]
        ensures value { result.now ≡ self.now }
        ensures few { length result.now ≤ N }
    {
        self.items.as_slice()
    }

    // The items, for writing.
    pub fn as_mut_slice(&mut self) -> &mut [T]
        ensures* writes_back { sem 𝓛 (lends_slice T.row N.row self.entry result) }
        ensures value { result.now ≡ self.old }
        ensures few { length result.now ≤ N }
    {
        self.items.as_mut_slice()
    }

    // One item more, behind the others; a full list gives it back and stays as it is.
    pub fn push(&mut self, item: T) -> Result<(), Full<T>>
        ensures answer { result ≡ (if nat_lt (length self.old) N then Ok tt else Err (record { 0 = item })) }
        ensures after { self.new ≡ (if nat_lt (length self.old) N then self.old ++ item ∷ [] else self.old) }
    {
        if self.is_full() {
            return Err(Full(item));
        }
        self.push_reserved(item);
        Ok(())
    }

    // A push that cannot fail, since there is room.
    pub fn push_reserved(&mut self, item: T)
        requires { length self.old < N }
        ensures { self.new ≡ self.old ++ item ∷ [] }
    {
        self.items.push_reserved(item);
    }

    // Takes out the item at a place; those behind it move up.
    pub fn remove(&mut self, place: usize) -> T
        requires { place < length self.old }
        ensures value { result ≡ slice_index_or self.old place result }
        ensures after { self.new ≡ remove self.old place }
    {
        self.items.remove(place)
    }

    pub fn clear(&mut self)
    where
        T: Drop,
        ensures { self.new ≡ [] }
    {
        self.items.clear();
    }
}
