// What arguments and payloads need.
ghost use Rattle.std.specs.Prelude.{◌≡◌, ◌||◌, map, option_map, is_some, IfOk, OnOk};
ghost use Rattle.pat_type_system_spec.specs.Typings.{mailbox_args};
ghost use Rattle.pat_type_schemes_spec.specs.NodeTypes.{need_of};
ghost use Rattle.pat_infer_spec.specs.Needs.{args_needs as needs_of_args, put as put_need};
ghost use Rattle.pat_infer_spec.specs.Walk.{has_twice};
ghost use Rattle.pat_core.specs.Views.{expr_view};
ghost use Rattle.pat_types.specs.Views.{type_view, needs_view};
ghost use Rattle.pat_infer_environments.specs.Types.{types_at, with_argument, twice_with};

use crate::needs::{find, put};
use pat_core::Expr;
use pat_sequences::Sequence;
use pat_types::MailboxType;
use std::alloc::{AllocError, Global};

/// What arguments need, and whether a mailbox variable stands twice among them.
#[derive(Drop)]
pub struct Arguments {
    pub needs: Sequence<(u32, MailboxType)>,
    pub has_twice: bool,
}

/// What arguments at places of these types need.
pub fn args_needs(
    alloc: Global,
    types: &[Option<MailboxType>],
    args: &[Expr],
) -> Result<Arguments, AllocError>
    ensures needs { IfOk result (λ r. needs_view r.needs
        ≡ needs_of_args (types_at (map (option_map type_view) types.now)) 0 (map expr_view args.now)) }
    ensures twice { IfOk result (λ r. r.has_twice
        ≡ has_twice (mailbox_args (types_at (map (option_map type_view) types.now)) 0 (map expr_view args.now))) }
{
    let mut all = Arguments {
        needs: Sequence::new(alloc),
        has_twice: false,
    };
    let mut place = args.len();
    while place > 0 {
        place -= 1;
        let of = type_at(types, place);
        add_argument(of, &args[place], &mut all)?;
    }
    Ok(all)
}

/// The type at a place, if there is one.
pub fn type_at(types: &[Option<MailboxType>], place: usize) -> Option<&MailboxType>
    ensures { option_map (λ a. type_view a.now) result ≡ types_at (map (option_map type_view) types.now) place }
{
    match types.get(place) {
        Some(Some(of)) => Some(of),
        _ => None,
    }
}

/// Adds what an argument needs, before what those behind it need.
fn add_argument(of: Option<&MailboxType>, arg: &Expr, all: &mut Arguments) -> Result<(), AllocError>
    ensures needs { OnOk result (needs_view all.new.needs
        ≡ with_argument (option_map (λ a. type_view a.now) of.entry) (expr_view arg.now) (needs_view all.old.needs)) }
    ensures twice { OnOk result (all.new.has_twice
        ≡ twice_with (option_map (λ a. type_view a.now) of.entry) (expr_view arg.now) (needs_view all.old.needs) all.old.has_twice) }
{
    match (of, arg) {
        (Some(of), Expr::Var(variable)) => add_variable(of, *variable, all),
        _ => Ok(()),
    }
}

fn add_variable(of: &MailboxType, variable: u32, all: &mut Arguments) -> Result<(), AllocError>
    ensures needs { OnOk result (needs_view all.new.needs ≡ put_need variable (type_view of.now) (needs_view all.old.needs)) }
    ensures twice { OnOk result (all.new.has_twice ≡ (is_some (need_of (needs_view all.old.needs) variable) || all.old.has_twice)) }
{
    let copy = of.copy()?;
    all.has_twice = find(all.needs.as_slice(), variable as usize).is_some() || all.has_twice;
    put(&mut all.needs, variable, copy)
}
