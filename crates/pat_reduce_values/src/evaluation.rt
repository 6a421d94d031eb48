// The values of expressions.
ghost use Rattle.std.specs.Prelude.{◌≡◌, ◌++◌, Some, map, option_map, is_some, OnOk};
ghost use Rattle.pat_primitives.specs.Values.{Const, eval, eval_all, value_at, apply, apply_values, IntConst, TextConst};
ghost use Rattle.pat_primitives.specs.Views.{op_view};
ghost use Rattle.pat_core.specs.Views.{expr_view};
ghost use Rattle.pat_reduce_values.specs.ValueViews.{value_view, reference_view, env_view};
ghost use Rattle.pat_reduce_values.specs.Environments.{parameter, parameters_from};
ghost use Rattle.pat_reduce_values.specs.Results.{Gives};

use crate::environments::push_value;
use crate::lookups::{is_by_halves, value_in};
use crate::{StepError, Value, ValueRef};
use pat_core::Expr;
use pat_primitives::Op;
use pat_sequences::{Sequence, Text};
use std::alloc::{AllocError, Global};

/// The value of an expression, where its variables have values and its operators take them.
pub fn evaluate<'a>(e: &'a Expr, env: &'a [(u32, Value)]) -> Option<ValueRef<'a>>
    ensures { option_map reference_view result ≡ eval (env_view env.now) (expr_view e.now) }
{
    match e {
        Expr::Var(variable) => value_of(env, *variable),
        Expr::Unit => Some(ValueRef::Unit),
        Expr::Bool(b) => Some(ValueRef::Bool(*b)),
        Expr::Int(n) => Some(ValueRef::Int(*n)),
        Expr::Str(text) => Some(ValueRef::Str(text)),
        Expr::Op(op, left, right) => {
            // Most operands are variables and integers, which take no call.
            let left = match &**left {
                Expr::Var(variable) => value_of(env, *variable),
                Expr::Int(n) => Some(ValueRef::Int(*n)),
                left => evaluate(left, env),
            };
            let right = match &**right {
                Expr::Var(variable) => value_of(env, *variable),
                Expr::Int(n) => Some(ValueRef::Int(*n)),
                right => evaluate(right, env),
            };
            operate(*op, left, right)
        }
    }
}

/// The same of an argument: most are variables, which take no call.
pub fn argument<'a>(e: &'a Expr, env: &'a [(u32, Value)]) -> Option<ValueRef<'a>>
    ensures { option_map reference_view result ≡ eval (env_view env.now) (expr_view e.now) }
{
    match e {
        Expr::Var(variable) => value_of(env, *variable),
        e => evaluate(e, env),
    }
}

/// The value of a variable, if it has one.
pub fn value_of<'a>(env: &'a [(u32, Value)], variable: u32) -> Option<ValueRef<'a>>
    ensures { option_map reference_view result ≡ value_at (env_view env.now) variable }
{
    for (own, value) in env {
        if variable == *own {
            return Some(value.borrow());
        }
    }
    None
}

fn operate<'a>(
    op: Op,
    left: Option<ValueRef<'a>>,
    right: Option<ValueRef<'a>>,
) -> Option<ValueRef<'a>>
    ensures { option_map reference_view result
        ≡ apply_values (op_view op) (option_map reference_view left.entry) (option_map reference_view right.entry) }
{
    match (left, right) {
        (Some(ValueRef::Int(m)), Some(ValueRef::Int(n))) => Some(operate_on_integers(op, m, n)),
        (Some(ValueRef::Bool(b)), Some(ValueRef::Bool(c))) => match op {
            Op::Equal => Some(ValueRef::Bool(b == c)),
            _ => None,
        },
        (Some(ValueRef::Str(s)), Some(ValueRef::Str(t))) => match op {
            Op::Equal => Some(ValueRef::Bool(s.as_bytes() == t.as_bytes())),
            _ => None,
        },
        _ => None,
    }
}

// Sums, differences and products wrap at 64 bits.
fn operate_on_integers<'a>(op: Op, m: i64, n: i64) -> ValueRef<'a>
    ensures { Some (reference_view result) ≡ option_map Const (apply (op_view op) (IntConst m) (IntConst n)) }
{
    match op {
        Op::Add => ValueRef::Int(m.wrapping_add(n)),
        Op::Sub => ValueRef::Int(m.wrapping_sub(n)),
        Op::Mul => ValueRef::Int(m.wrapping_mul(n)),
        Op::Equal => ValueRef::Bool(m == n),
        Op::Less => ValueRef::Bool(m < n),
    }
}

/// Whether each of the expressions has a value.
pub fn have_values(args: &[Expr], env: &[(u32, Value)]) -> bool
    ensures { result ≡ is_some (eval_all (env_view env.now) (map expr_view args.now)) }
{
    for e in args {
        if argument(e, env).is_none() {
            return false;
        }
    }
    true
}

/// The values of the expressions, where each has one.
pub fn values_of(
    alloc: Global,
    args: &[Expr],
    env: &[(u32, Value)],
) -> Result<Sequence<Value>, StepError>
    ensures { Gives (map value_view) (eval_all (env_view env.now) (map expr_view args.now)) result }
{
    let by_halves = is_by_halves(args, env);
    let mut values = Sequence::new(alloc);
    for e in args {
        match value_in(e, env, by_halves) {
            Some(value) => values.push(value.to_value(alloc)?)?,
            None => return Err(StepError::Disabled),
        }
    }
    Ok(values)
}

/// The values of the expressions under the numbers from 0 on, where each has one. A value past the last 32-bit number
/// is left out, since no variable has its number.
pub fn parameters(
    alloc: Global,
    args: &[Expr],
    env: &[(u32, Value)],
) -> Result<Sequence<(u32, Value)>, StepError>
    ensures { Gives env_view (option_map (parameters_from 0) (eval_all (env_view env.now) (map expr_view args.now))) result }
{
    let by_halves = is_by_halves(args, env);
    let mut values = Sequence::new(alloc);
    values.items.reserve(args.len())?;
    for (number, e) in args.iter().enumerate() {
        match value_in(e, env, by_halves) {
            Some(value) => push_parameter(alloc, &mut values, number, value)?,
            None => return Err(StepError::Disabled),
        }
    }
    Ok(values)
}

#[inline(always)]
fn push_parameter(
    alloc: Global,
    values: &mut Sequence<(u32, Value)>,
    number: usize,
    value: ValueRef<'_>,
) -> Result<(), AllocError>
    ensures { OnOk result (env_view values.new ≡ env_view values.old ++ parameter number (reference_view value.entry)) }
{
    match u32::try_from(number) {
        Ok(variable) => push_value(alloc, values, variable, value),
        Err(_) => Ok(()),
    }
}

/// The value of an expression, where it has one.
#[inline(always)]
pub fn value_for(alloc: Global, e: &Expr, env: &[(u32, Value)]) -> Result<Value, StepError>
    ensures { Gives value_view (eval (env_view env.now) (expr_view e.now)) result }
{
    match argument(e, env) {
        Some(value) => Ok(value.to_value(alloc)?),
        None => Err(StepError::Disabled),
    }
}
