// The entries of a list that are still to be given: where they stand in a message, or in a slice.
use crate::form::Form;
use elements::faults::EntryFault;
use elements::reader::Reader;
use std::marker::PhantomData;

// What the entries of a list in a message share: the discriminator in the list's heading, where it has one, and the
// fault of a broken entry.
#[derive(Clone, Copy, PartialEq, Eq, Debug)]
pub struct ListHead {
    pub form: Option<Form>,
    pub broken: EntryFault,
}

// Entries in a message: a reader at the next one, of octets up to the list's end, and how many are left. No Eq,
// as for all that hold such entries: two views of the same entries may lie in different octets.
#[derive_where(Clone, Copy)]
pub struct EntryView<'a, E> {
    pub reader: Reader<'a>,
    pub head: ListHead,
    pub left: usize,
    pub kind: PhantomData<E>,
}

#[derive_where(Clone, Copy)]
pub enum Entries<'a, E> {
    Read(EntryView<'a, E>),
    Given(&'a [E]),
}
