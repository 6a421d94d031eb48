// Values, and the values of variables.
ghost use Rattle.std.specs.Prelude.{◌≡◌, ◌++◌, ◌∷◌, ◌&&◌, [], OnOk, IsTrue, map};
ghost use Rattle.std.specs.List.{flat_map};
ghost use Rattle.std.specs.Fmt.{decimal};
ghost use Rattle.pat_reduce_values.specs.ValueViews.{value_view, env_view};
ghost use Rattle.pat_checkpoint_spec.specs.text.ValueText.{value_text, values_text, named_text, env_text};
ghost use Rattle.pat_texts_spec.specs.Numbers.{is_number};
ghost use Rattle.pat_checkpoint_print.specs.Ranges.{value_in_range, values_in_range, named_in_range, env_in_range};

use crate::atoms::{put, put_behind, put_integer, put_number, put_string};
use pat_reduce_values::Value;
use std::alloc::{AllocError, Global};

/// A value.
pub fn put_value(alloc: Global, out: &mut Vec<u8>, value: &Value) -> Result<(), AllocError>
    ensures text { OnOk result (out.new.items ≡ out.old.items ++ value_text (value_view value.now)) }
    ensures range { OnOk result (IsTrue (value_in_range (value_view value.now))) }
{
    match value {
        Value::Unit => put(out, b"unit"),
        Value::Bool(true) => put(out, b"true"),
        Value::Bool(false) => put(out, b"false"),
        Value::Int(n) => put_integer(alloc, out, *n),
        Value::Str(text) => put_string(out, text),
        Value::Mailbox(mailbox) => put_behind(out, b'#', *mailbox),
    }
}

/// Values, each behind a comma and a space.
fn put_more_values(alloc: Global, out: &mut Vec<u8>, values: &[Value]) -> Result<(), AllocError>
    ensures text { OnOk result (out.new.items ≡ out.old.items
        ++ flat_map (λ y. 44 ∷ y) (map (λ v. 32 ∷ value_text v) (map value_view values.now))) }
    ensures range { OnOk result (IsTrue (values_in_range (map value_view values.now))) }
{
    for value in values {
        put(out, b", ")?;
        put_value(alloc, out, value)?;
    }
    Ok(())
}

/// Values with a comma and a space between.
pub fn put_values(alloc: Global, out: &mut Vec<u8>, values: &[Value]) -> Result<(), AllocError>
    ensures text { OnOk result (out.new.items ≡ out.old.items ++ values_text (map value_view values.now)) }
    ensures range { OnOk result (IsTrue (values_in_range (map value_view values.now))) }
{
    match values {
        [] => Ok(()),
        [first, more @ ..] => {
            put_value(alloc, out, first)?;
            put_more_values(alloc, out, more)
        }
    }
}

/// A variable and its value.
fn put_named(
    alloc: Global,
    out: &mut Vec<u8>,
    variable: u32,
    value: &Value,
) -> Result<(), AllocError>
    ensures text { OnOk result (out.new.items ≡ out.old.items ++ named_text (variable, value_view value.now)) }
    ensures range { OnOk result (IsTrue (named_in_range (variable, value_view value.now))) }
{
    put_behind(out, b'v', variable)?;
    out.push(b'=')?;
    put_value(alloc, out, value)
}

/// Variables and their values, each behind a comma and a space.
fn put_more_named(alloc: Global, out: &mut Vec<u8>, env: &[(u32, Value)]) -> Result<(), AllocError>
    ensures text { OnOk result (out.new.items ≡ out.old.items ++ flat_map (λ y. 44 ∷ y) (map (λ e. 32 ∷ named_text e) (env_view env.now))) }
    ensures range { OnOk result (IsTrue (env_in_range (env_view env.now))) }
{
    for (variable, value) in env {
        put(out, b", ")?;
        put_named(alloc, out, *variable, value)?;
    }
    Ok(())
}

/// Variables and their values with a comma and a space between.
fn put_env(alloc: Global, out: &mut Vec<u8>, env: &[(u32, Value)]) -> Result<(), AllocError>
    ensures text { OnOk result (out.new.items ≡ out.old.items ++ env_text (env_view env.now)) }
    ensures range { OnOk result (IsTrue (env_in_range (env_view env.now))) }
{
    match env {
        [] => Ok(()),
        [(variable, value), more @ ..] => {
            put_named(alloc, out, *variable, value)?;
            put_more_named(alloc, out, more)
        }
    }
}

/// A node, and the values of variables in curly brackets.
pub fn put_bound(
    alloc: Global,
    out: &mut Vec<u8>,
    node: u32,
    env: &[(u32, Value)],
) -> Result<(), AllocError>
    ensures text { OnOk result (out.new.items ≡ out.old.items ++ (decimal node ++ 32 ∷ 123 ∷ (env_text (env_view env.now) ++ 125 ∷ []))) }
    ensures range { OnOk result (IsTrue (is_number node && env_in_range (env_view env.now))) }
{
    put_number(out, node)?;
    put(out, b" {")?;
    put_env(alloc, out, env)?;
    put(out, b"}")
}
