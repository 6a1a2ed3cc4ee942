ghost use Rattle.std.specs.Prelude.{◌≡◌};

use std::marker::Model;

/// A list that a step leaves. Contracts see it as its list.
#[derive(Drop)]
pub struct Batch<T> {
    items: Vec<T>,
}

impl<T> Model for Batch<T> {
    ghost use Rattle.std.specs.Prelude.{List};

    ghost Value = { List T };

    ghost view = { λ b. b.items.items };
}

impl<T> Batch<T> {
    /// The list of these.
    pub fn new(items: Vec<T>) -> Self
        ensures { result ≡ items.items }
    {
        Batch { items }
    }

    pub fn as_slice(&self) -> &[T]
        ensures { result.now ≡ self.now }
    {
        self.items.as_slice()
    }

    /// The vector in which the list lies.
    pub(crate) fn into_vec(self) -> Vec<T>
        ensures { result.items ≡ self }
    {
        self.items
    }
}
