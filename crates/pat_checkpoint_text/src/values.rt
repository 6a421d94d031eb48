// Values, and the values of variables.
ghost use Rattle.std.specs.Prelude.{◌≡◌, option_map, map};
ghost use Rattle.pat_reduce_values.specs.ValueViews.{value_view, env_view};
ghost use Rattle.pat_checkpoint_spec.specs.text.Outside as outside;
ghost use Rattle.pat_checkpoint_spec.specs.text.ValueReading as reading;
ghost use Rattle.pat_texts_spec.specs.Joined.{read_each, then_read};
ghost use Rattle.pat_derivation_lines.specs.patterns.Answers.{Gives};
ghost use Rattle.pat_checkpoint_text.specs.Places.{pieces_left, named_view};

use crate::integers::read_integer;
use crate::outside::first_piece;
use crate::strings::read_string;
use pat_derivation_lines::{Unread, number_of, room_for};
use pat_reduce::Value;
use pat_sequences::Sequence;
use pat_texts::{behind, cut};
use std::alloc::Global;

/// A word or an integer.
fn read_word(text: &[u8]) -> Option<Value>
    ensures { option_map value_view result ≡ reading.read_word text.now }
{
    if text == b"unit".as_slice() {
        Some(Value::Unit)
    } else if text == b"true".as_slice() {
        Some(Value::Bool(true))
    } else if text == b"false".as_slice() {
        Some(Value::Bool(false))
    } else {
        match read_integer(text) {
            Some(number) => Some(Value::Int(number)),
            None => None,
        }
    }
}

/// A value.
pub fn read_value(alloc: Global, text: &[u8]) -> Result<Value, Unread>
    ensures { Gives value_view (reading.read_value text.now) result }
{
    match text {
        [] => Err(Unread::NotSpelled),
        [b'"', more @ ..] => read_string(alloc, more),
        [b'#', more @ ..] => {
            let mailbox = number_of(more)?;
            Ok(Value::Mailbox(mailbox))
        }
        _ => match read_word(text) {
            Some(value) => Ok(value),
            None => Err(Unread::NotSpelled),
        },
    }
}

/// A value behind a space.
fn read_next_value(alloc: Global, text: &[u8]) -> Result<Value, Unread>
    ensures { Gives value_view (outside.read_spaced reading.read_value text.now) result }
{
    match behind(text, b" ") {
        Some(more) => read_value(alloc, more),
        None => Err(Unread::NotSpelled),
    }
}

/// The others, each behind a space.
fn read_other_values(
    alloc: Global,
    others: Option<&[u8]>,
    values: Sequence<Value>,
) -> Result<Sequence<Value>, Unread>
    ensures { Gives (map value_view) (then_read (map value_view values)
        (read_each (outside.read_spaced reading.read_value) (pieces_left 44 others.entry))) result }
{
    let mut values = values;
    let mut rest = others;
    while let Some(more) = rest {
        let (own, others) = first_piece(more, b',');
        let value = read_next_value(alloc, own)?;
        values.push(value)?;
        rest = others;
    }
    values.items.shrink_to_fit();
    Ok(values)
}

/// Values with a comma and a space between.
pub fn read_values(alloc: Global, text: &[u8]) -> Result<Sequence<Value>, Unread>
    ensures { Gives (map value_view) (reading.read_values text.now) result }
{
    if text.is_empty() {
        return Ok(Sequence::new(alloc));
    }
    let mut values = room_for(alloc, text, b',')?;
    let (first, others) = first_piece(text, b',');
    let value = read_value(alloc, first)?;
    values.push(value)?;
    read_other_values(alloc, others, values)
}

/// A variable and its value.
fn read_named(alloc: Global, text: &[u8]) -> Result<(u32, Value), Unread>
    ensures { Gives named_view (reading.read_named text.now) result }
{
    match behind(text, b"v") {
        Some(more) => match cut(more, b'=') {
            Some((own, of)) => {
                let variable = number_of(own)?;
                let value = read_value(alloc, of)?;
                Ok((variable, value))
            }
            None => Err(Unread::NotSpelled),
        },
        None => Err(Unread::NotSpelled),
    }
}

/// A variable and its value behind a space.
fn read_next_named(alloc: Global, text: &[u8]) -> Result<(u32, Value), Unread>
    ensures { Gives named_view (outside.read_spaced reading.read_named text.now) result }
{
    match behind(text, b" ") {
        Some(more) => read_named(alloc, more),
        None => Err(Unread::NotSpelled),
    }
}

/// The others, each behind a space.
fn read_other_named(
    alloc: Global,
    others: Option<&[u8]>,
    env: Sequence<(u32, Value)>,
) -> Result<Sequence<(u32, Value)>, Unread>
    ensures { Gives env_view (then_read (env_view env)
        (read_each (outside.read_spaced reading.read_named) (pieces_left 44 others.entry))) result }
{
    let mut env = env;
    let mut rest = others;
    while let Some(more) = rest {
        let (own, others) = first_piece(more, b',');
        let named = read_next_named(alloc, own)?;
        env.push(named)?;
        rest = others;
    }
    env.items.shrink_to_fit();
    Ok(env)
}

/// Variables and their values, in whatever order.
fn read_all_named(alloc: Global, text: &[u8]) -> Result<Sequence<(u32, Value)>, Unread>
    ensures { Gives env_view (outside.read_listed reading.read_named text.now) result }
{
    if text.is_empty() {
        return Ok(Sequence::new(alloc));
    }
    let mut env = room_for(alloc, text, b',')?;
    let (first, others) = first_piece(text, b',');
    let named = read_named(alloc, first)?;
    env.push(named)?;
    read_other_named(alloc, others, env)
}

/// Whether the variables are in ascending order.
fn ascends(env: &[(u32, Value)]) -> bool
    ensures { result ≡ reading.ascends_from 0 (env_view env.now) }
{
    let mut least: u64 = 0;
    for (variable, _) in env {
        if least > *variable as u64 {
            return false;
        }
        least = *variable as u64 + 1;
    }
    true
}

/// The values of variables, in ascending order of variable.
pub fn read_env(alloc: Global, text: &[u8]) -> Result<Sequence<(u32, Value)>, Unread>
    ensures { Gives env_view (reading.read_env text.now) result }
{
    let env = read_all_named(alloc, text)?;
    if ascends(env.as_slice()) {
        Ok(env)
    } else {
        Err(Unread::NotSpelled)
    }
}
