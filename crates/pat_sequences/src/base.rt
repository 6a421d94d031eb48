// A stack whose top is about to be exchanged.
ghost use Rattle.std.specs.Prelude.{◌≡◌, ◌+◌, ◌≤◌, ◌++◌, drop, length, vec_len, vec_capacity, IfOk, IfErr};

use crate::Stack;
use std::alloc::AllocError;
use std::marker::Model;

/// A stack with room for further items. Contracts see its items, the top one first, and for how many more there is room.
#[derive(Drop)]
pub struct Base<T> {
    items: Vec<T>,
    room: usize,
}

impl<T> Model for Base<T> {
    ghost use Rattle.std.specs.Prelude.{List, ℕ, ◌+◌, ◌≤◌, reverse, vec_len, vec_capacity};

    ghost Value = { List T × ℕ };

    ghost view = { λ b. (reverse b.items.items, b.room) };

    ghost invariant = { λ b. vec_len b.items + b.room ≤ vec_capacity b.items };
}

impl<T: Drop> Base<T> {
    /// The stack, with room for so many more items. An error hands it back.
    pub fn new(stack: Stack<T>, room: usize) -> Result<Base<T>, Stack<T>>
        ensures ok { IfOk result (λ base. base ≡ (stack, room)) }
        ensures err { IfErr result (λ own. own ≡ stack) }
    {
        let mut items = stack.items;
        match items.reserve(room) {
            Ok(()) => Ok(Base { items, room }),
            Err(AllocError) => Err(Stack { items }),
        }
    }

    /// The stack as it was.
    pub fn into_stack(self) -> Stack<T>
        ensures { result ≡ self.0 }
    {
        Stack { items: self.items }
    }

    /// The stack with so many items fewer, those on top, and with those of another one instead. It takes no memory.
    pub fn cover(self, gone: usize, top: Stack<T>) -> Stack<T>
        requires { length top ≤ self.1 }
        ensures { result ≡ top ++ drop gone self.0 }
    {
        let mut items = self.items;
        items.truncate(items.len().saturating_sub(gone));
        append(&mut items, top.items);
        Stack { items }
    }
}

// Appends items for which there is room.
fn append<T: Drop>(items: &mut Vec<T>, more: Vec<T>)
    requires { vec_len items.old + vec_len more ≤ vec_capacity items.old }
    ensures { items.new.items ≡ items.old.items ++ more.items }
{
    for item in more {
        items.push_reserved(item);
    }
}
