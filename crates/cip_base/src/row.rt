//! A list in reserved room, from whose front items go without a move of the others.
ghost use Rattle.std.specs.Prelude.{◌≡◌, ◌<◌, ◌≤◌, [], length, drop, IfOk};
ghost use Rattle.std.specs.List.{insert, remove};
ghost use Rattle.std.specs.Vec.{vec_capacity};

use std::alloc::{AllocError, Global};
use std::marker::Model;

/// Items in reserved room. Where the first goes, the others stay where they stand: they move up
/// once in as many times as there is room for.
#[derive(Drop)]
pub struct Row<T> {
    room: usize,
    // So many from the front on are gone, and lie there until the others move up.
    gone: usize,
    items: Vec<T>,
}

impl<T> Model for Row<T> {
    ghost use Rattle.cip_base.specs.Rows.{Row as Kept, row_code};

    ghost Value = { Kept T };

    ghost coded = { row_code T.code };

    ghost use Rattle.cip_base.specs.Behind.{IsRow, row};

    ghost view = { row };

    ghost invariant = { IsRow };
}

impl<T: Copy> Row<T> {
    /// An empty row with room for so many items.
    pub fn with_room(alloc: Global, room: usize) -> Result<Row<T>, AllocError>
        ensures { IfOk result (λ row. row ≡ record { room = room; items = [] }) }
    {
        // The rest is for those that are gone.
        let items = Vec::with_capacity(alloc, room.saturating_mul(2))?;
        Ok(Row {
            room,
            gone: 0,
            items,
        })
    }

    /// The items.
    pub fn as_slice(&self) -> &[T]
        ensures { result.now ≡ self.now.items }
    {
        &self.items[self.gone..]
    }

    /// Puts an item in before the one at this place, or at the end.
    pub fn insert(&mut self, at: usize, item: T)
        requires within { at ≤ length self.old.items }
        requires room { length self.old.items < self.old.room }
        ensures { self.new ≡ record {
          room = self.old.room;
          items = insert self.old.items at item;
        } }
    {
        if self.items.len() == self.items.capacity() {
            move_up(&mut self.items, self.gone);
            self.gone = 0;
        }
        let Ok(()) = self.items.insert(self.gone + at, item) else {
            unreachable!()
        };
    }

    /// Takes the item at this place out.
    pub fn remove(&mut self, at: usize)
        requires { at < length self.old.items }
        ensures { self.new ≡ record {
          room = self.old.room;
          items = remove self.old.items at;
        } }
    {
        if at == 0 {
            self.gone += 1;
        } else {
            self.items.remove(self.gone + at);
        }
    }

    /// Takes all items out. The room stays reserved.
    pub fn clear(&mut self)
        ensures { self.new ≡ record { room = self.old.room; items = [] } }
    {
        self.items.clear();
        self.gone = 0;
    }
}

// So many from the front on make place for those behind them.
#[inline(never)]
fn move_up<T: Copy>(items: &mut Vec<T>, gone: usize)
    requires { gone ≤ length items.old.items }
    ensures items { items.new.items ≡ drop gone items.old.items }
    ensures capacity { vec_capacity items.new ≡ vec_capacity items.old }
{
    let left = items.len() - gone;
    items.rotate_left(gone);
    items.truncate(left);
}
