// Values.
ghost use Rattle.std.specs.Prelude.{◌≡◌, IfOk};
ghost use Rattle.pat_primitives.specs.Configs.{is_mailbox};
ghost use Rattle.pat_reduce_values.specs.ValueViews.{value_view, reference_view};

use pat_sequences::Text;
use std::alloc::{AllocError, Global};

/// A value: a base value, or a mailbox by its number.
#[derive(Drop)]
pub enum Value {
    Unit,
    Bool(bool),
    Int(i64),
    /// A string, by its bytes.
    Str(Text),
    Mailbox(u32),
}

/// A value whose text, if it is one, stands elsewhere.
#[derive(Clone, Copy, Drop)]
pub enum ValueRef<'a> {
    Unit,
    Bool(bool),
    Int(i64),
    Str(&'a Text),
    Mailbox(u32),
}

impl Value {
    /// The value, with its text where it stands.
    pub fn borrow(&self) -> ValueRef<'_>
        ensures { reference_view result ≡ value_view self.now }
    {
        match self {
            Value::Unit => ValueRef::Unit,
            Value::Bool(b) => ValueRef::Bool(*b),
            Value::Int(n) => ValueRef::Int(*n),
            Value::Str(text) => ValueRef::Str(text),
            Value::Mailbox(mailbox) => ValueRef::Mailbox(*mailbox),
        }
    }

    /// A second value, the same.
    pub fn copy(&self, alloc: Global) -> Result<Value, AllocError>
        ensures { IfOk result (λ v. value_view v ≡ value_view self.now) }
    {
        self.borrow().to_value(alloc)
    }

    /// Whether it is this mailbox.
    pub fn is_mailbox(&self, mailbox: u32) -> bool
        ensures { result ≡ is_mailbox mailbox (value_view self.now) }
    {
        match self {
            Value::Mailbox(own) => mailbox == *own,
            _ => false,
        }
    }
}

impl ValueRef<'_> {
    /// The value with a text of its own.
    pub fn to_value(self, alloc: Global) -> Result<Value, AllocError>
        ensures { IfOk result (λ v. value_view v ≡ reference_view self.entry) }
    {
        Ok(match self {
            ValueRef::Unit => Value::Unit,
            ValueRef::Bool(b) => Value::Bool(b),
            ValueRef::Int(n) => Value::Int(n),
            ValueRef::Str(text) => Value::Str(text.copy(alloc)?),
            ValueRef::Mailbox(mailbox) => Value::Mailbox(mailbox),
        })
    }
}
