// The records of a recorded file, one after the other.

ghost use Rattle.std.specs.Prelude.{◌≡◌, ◌<◌, length, OnSome};
ghost use Rattle.std.specs.Iterator.{at_most};

use crate::rest::Rest;
use std::marker::PhantomData;

// A kind of record.
pub trait Record<'a>: Sized {
    // The record at the front, if the file holds all of it.
    fn read(rest: &mut Rest<'a>) -> Option<Self>
        ensures { OnSome result (length rest.new.left.now < length rest.old.left.now) };
}

// The records that are left, up to the first that the file does not hold all of.
#[derive(Drop)]
pub struct Records<'a, T> {
    rest: Rest<'a>,
    kind: PhantomData<T>,
}

impl<'a, T> From<Rest<'a>> for Records<'a, T> {
    ghost from_gives = { λ rest r. r.rest ≡ rest };

    fn from(rest: Rest<'a>) -> Records<'a, T> {
        Records {
            rest,
            kind: PhantomData,
        }
    }
}

// Not `iter::from_fn`, which does not say that it ends.
impl<'a, T: Record<'a>> Iterator for Records<'a, T> {
    type Item = T;

    ghost remaining = { λ s. at_most (length s.rest.left.now) };

    fn next(&mut self) -> Option<T> {
        T::read(&mut self.rest)
    }
}
