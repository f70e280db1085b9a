// Lists of things of a volume.
ghost use Rattle.std.specs.Prelude.{◌≡◌};

use std::marker::Model;

/// Items in their order.
#[derive(Debug, Drop)]
pub struct Items<T> {
    items: Vec<T>,
}

impl<T> Model for Items<T> {
    ghost use Rattle.std.specs.Prelude.{List};

    ghost Value = { List T };

    ghost view = { λ list. list.items.items };
}

impl<T> Items<T> {
    /// The items where they stand.
    pub fn as_slice(&self) -> &[T]
        ensures { result.now ≡ self.now }
    {
        &self.items
    }

    /// The vector that the list was made from, so that no memory is taken.
    pub fn into_vec(self) -> Vec<T>
        ensures { result.items ≡ self }
    {
        self.items
    }
}

/// A list takes its vector as it is.
impl<T> From<Vec<T>> for Items<T> {
    ghost from_gives = { λ items list. list ≡ items.items };

    fn from(items: Vec<T>) -> Self {
        Items { items }
    }
}

/// Bytes of a file, of a name or of an attribute.
pub type Bytes = Items<u8>;
