//! Lists that contracts see as their items.
ghost use Rattle.std.specs.Prelude.{◌≡◌};

use std::marker::Model;

/// A list, seen by a contract as its items.
#[derive(Drop)]
pub struct Items<T> {
    items: Vec<T>,
}

impl<T> Model for Items<T> {
    ghost use Rattle.std.specs.Prelude.{List};

    ghost Value = { List T };

    ghost view = { λ l. l.items.items };
}

impl<T> Items<T> {
    /// The items of a vector.
    pub fn of(items: Vec<T>) -> Items<T>
        ensures { result ≡ items.items }
    {
        Items { items }
    }

    /// The items, borrowed.
    pub fn as_slice(&self) -> &[T]
        ensures { result.now ≡ self.now }
    {
        self.items.as_slice()
    }
}
