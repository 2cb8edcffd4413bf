ghost use base.Fml.{ftrue};

use std::marker::{Model, PhantomData};

/// A name of a value, for contracts alone: it has no bytes, and its ghost `value` is what it names.
/// Unlike the value it can be copied at no cost, by [`Tag::copy`].
pub struct Tag<T> {
    marker: PhantomData<T>,
    pub ghost value: { T },
}

impl<T> Model for Tag<T> {
    ghost also_owns = { λ _. ftrue };
}

impl<T> Tag<T> {
    ghost use Rattle.std.specs.Prelude.{◌≡◌};

    /// The name of the value.
    pub fn of(value: &T) -> Tag<T>
        ensures { result.value ≡ value.now }
    {
        let _ = value;
        Tag {
            marker: PhantomData,
        }
    }

    /// The same name again.
    pub fn copy(&self) -> Tag<T>
        ensures { result.value ≡ self.now.value }
    {
        let _ = self;
        Tag {
            marker: PhantomData,
        }
    }
}

impl<T> Drop for Tag<T> {
    fn drop(self) {
        let Self { marker: _ } = self;
    }
}

unsafe impl<T> Send for Tag<T> {}

unsafe impl<T> Sync for Tag<T> {}
