// Terms, and the clauses of guards.
ghost use Rattle.std.specs.Prelude.{◌≡◌, ◌++◌, true, map, option_map, OnOk};
ghost use Rattle.pat_parser_spec.specs.Trees.{PrintTerm, NewTerm, FreeTerm, SendTerm, CallTerm, listed};
ghost use Rattle.pat_print_spec.specs.Bare.{nowhere};
ghost use Rattle.pat_print_spec.specs.Canonical.{name_onto, braced, opens_simple, args_onto, expr_onto, term_onto, clause_onto, clauses_onto};
ghost use Rattle.pat_tree.specs.Views.{name_view, pattern_view, expr_view, term_view, clause_view};
ghost use Rattle.pat_print.specs.Parts.{bytes_of, binding_onto, test_onto, guarded_onto, names_onto, received_onto};

use crate::atoms::put_name;
use crate::expression::put_expression;
use crate::list::{Entry, put_list};
use crate::pattern::put_pattern;
use pat_sequences::Sequence;
use pat_tree::{Form, Name, Term, TreeClause, TreeExpr, TreePattern};
use std::alloc::{AllocError, Global};

/// Appends a term. Lets and sequences in a row are walked by a loop, since there may be thousands.
#[cycle(term)]
#[tactic(auto, using(crate::proofs::Lines::let_step, crate::proofs::Lines::if_is, crate::proofs::Lines::spawn_is, crate::proofs::Lines::guard_is))]
pub fn put_term(alloc: Global, out: &mut Vec<u8>, term: &Term) -> Result<(), AllocError>
    ensures { OnOk result (out.new.items ≡ out.old.items ++ bytes_of (term_onto (term_view term.now))) }
{
    let mut rest = term;
    loop {
        match &rest.form {
            Form::Let { name, bound, body } => {
                put_binding(alloc, out, name, bound)?;
                rest = body;
            }
            Form::If { test, yes, no } => {
                put_test(alloc, out, test)?;
                put_block(alloc, out, yes)?;
                out.extend_from_slice(b" else ")?;
                return put_block(alloc, out, no);
            }
            Form::Print(value) => return put_print(alloc, out, value),
            Form::New(name) => return put_new(out, name),
            Form::Spawn(body) => {
                out.extend_from_slice(b"spawn ")?;
                return put_block(alloc, out, body);
            }
            Form::Free(name) => return put_free(out, name),
            Form::Guard {
                name,
                pattern,
                clauses,
            } => {
                put_guarded(out, name, pattern)?;
                put_clauses(alloc, out, clauses)?;
                out.push(b'}')?;
                return Ok(());
            }
            Form::Send { target, tag, args } => return put_send(alloc, out, target, tag, args),
            Form::Call { name, args } => return put_call(alloc, out, name, args),
            Form::Value(value) => return put_expression(alloc, out, value),
        }
    }
}

/// Appends a term in braces.
#[cycle(term)]
#[tactic(auto, using(crate::proofs::Lines::block_is))]
pub fn put_block(alloc: Global, out: &mut Vec<u8>, term: &Term) -> Result<(), AllocError>
    ensures { OnOk result (out.new.items ≡ out.old.items ++ bytes_of (braced true (term_onto (term_view term.now)))) }
{
    out.extend_from_slice(b"{ ")?;
    put_term(alloc, out, term)?;
    out.extend_from_slice(b" }")
}

/// Appends a let or a sequence up to its body.
#[cycle(term)]
#[tactic(auto, using(crate::proofs::Lines::sequence_is, crate::proofs::Lines::binding_is))]
fn put_binding(
    alloc: Global,
    out: &mut Vec<u8>,
    name: &Option<Name>,
    bound: &Term,
) -> Result<(), AllocError>
    ensures { OnOk result (out.new.items ≡ out.old.items ++ bytes_of (binding_onto (option_map name_view name.now) (term_view bound.now))) }
{
    match name {
        None => {
            put_bound(alloc, out, bound)?;
            out.extend_from_slice(b"; ")
        }
        Some(name) => {
            out.extend_from_slice(b"let ")?;
            put_name(out, name)?;
            out.extend_from_slice(b" = ")?;
            put_bound(alloc, out, bound)?;
            out.extend_from_slice(b" in ")?;
            Ok(())
        }
    }
}

/// Appends a bound term, in braces where it is a let or a sequence itself.
#[cycle(term)]
fn put_bound(alloc: Global, out: &mut Vec<u8>, bound: &Term) -> Result<(), AllocError>
    ensures { OnOk result (out.new.items ≡ out.old.items
        ++ bytes_of (braced (opens_simple (term_view bound.now)) (term_onto (term_view bound.now)))) }
{
    if is_let(bound) {
        put_block(alloc, out, bound)
    } else {
        put_term(alloc, out, bound)
    }
}

/// Whether a term needs braces to be bound.
fn is_let(term: &Term) -> bool
    ensures { result ≡ opens_simple (term_view term.now) }
{
    matches!(term.form, Form::Let { .. })
}

/// Appends the test of a branch, up to the first block.
#[tactic(auto, using(crate::proofs::Lines::test_is))]
fn put_test(alloc: Global, out: &mut Vec<u8>, test: &TreeExpr) -> Result<(), AllocError>
    ensures { OnOk result (out.new.items ≡ out.old.items ++ bytes_of (test_onto (expr_view test.now))) }
{
    out.extend_from_slice(b"if ")?;
    put_expression(alloc, out, test)?;
    out.push(b' ')?;
    Ok(())
}

/// Appends a guard up to its first clause.
#[tactic(auto, using(crate::proofs::Lines::guarded_is))]
fn put_guarded(out: &mut Vec<u8>, name: &Name, pattern: &TreePattern) -> Result<(), AllocError>
    ensures { OnOk result (out.new.items ≡ out.old.items ++ bytes_of (guarded_onto (name_view name.now) (pattern_view pattern.now))) }
{
    out.extend_from_slice(b"guard ")?;
    put_name(out, name)?;
    out.extend_from_slice(b" : ")?;
    put_pattern(out, pattern)?;
    out.extend_from_slice(b" { ")?;
    Ok(())
}

/// Appends a receiving clause up to its body.
#[tactic(auto, using(crate::proofs::Lines::received_is))]
fn put_received(
    alloc: Global,
    out: &mut Vec<u8>,
    tag: &Name,
    names: &Sequence<Name>,
    from: &Name,
) -> Result<(), AllocError>
    ensures { OnOk result (out.new.items ≡ out.old.items
        ++ bytes_of (received_onto (name_view tag.now) (map name_view names.now) (name_view from.now))) }
{
    out.extend_from_slice(b"receive ")?;
    put_name(out, tag)?;
    put_names(alloc, out, names)?;
    out.extend_from_slice(b" from ")?;
    put_name(out, from)?;
    out.extend_from_slice(b" -> ")?;
    Ok(())
}

/// Appends names in brackets.
fn put_names(alloc: Global, out: &mut Vec<u8>, names: &Sequence<Name>) -> Result<(), AllocError>
    ensures { OnOk result (out.new.items ≡ out.old.items ++ bytes_of (names_onto (map name_view names.now))) }
{
    out.push(b'(')?;
    put_list(alloc, out, names.as_slice())?;
    out.push(b')')?;
    Ok(())
}

#[tactic(auto, using(crate::proofs::Lines::print_is))]
fn put_print(alloc: Global, out: &mut Vec<u8>, value: &TreeExpr) -> Result<(), AllocError>
    ensures { OnOk result (out.new.items ≡ out.old.items ++ bytes_of (term_onto (PrintTerm (expr_view value.now) nowhere))) }
{
    out.extend_from_slice(b"print(")?;
    put_expression(alloc, out, value)?;
    out.push(b')')?;
    Ok(())
}

#[tactic(auto, using(crate::proofs::Lines::new_is))]
fn put_new(out: &mut Vec<u8>, name: &Name) -> Result<(), AllocError>
    ensures { OnOk result (out.new.items ≡ out.old.items ++ bytes_of (term_onto (NewTerm (name_view name.now) nowhere))) }
{
    out.extend_from_slice(b"new[")?;
    put_name(out, name)?;
    out.push(b']')?;
    Ok(())
}

#[tactic(auto, using(crate::proofs::Lines::free_is))]
fn put_free(out: &mut Vec<u8>, name: &Name) -> Result<(), AllocError>
    ensures { OnOk result (out.new.items ≡ out.old.items ++ bytes_of (term_onto (FreeTerm (name_view name.now) nowhere))) }
{
    out.extend_from_slice(b"free(")?;
    put_name(out, name)?;
    out.push(b')')?;
    Ok(())
}

/// Appends clauses, with a space behind each.
#[cycle(term)]
#[tactic(auto, using(crate::proofs::Lines::clauses_more))]
fn put_clauses(alloc: Global, out: &mut Vec<u8>, clauses: &[TreeClause]) -> Result<(), AllocError>
    ensures { OnOk result (out.new.items ≡ out.old.items ++ bytes_of (clauses_onto (listed (map clause_view clauses.now)))) }
{
    for clause in clauses {
        put_clause(alloc, out, clause)?;
        out.push(b' ')?;
    }
    Ok(())
}

#[cycle(term)]
#[tactic(auto, using(crate::proofs::Lines::free_clause_is, crate::proofs::Lines::receive_is))]
fn put_clause(alloc: Global, out: &mut Vec<u8>, clause: &TreeClause) -> Result<(), AllocError>
    ensures { OnOk result (out.new.items ≡ out.old.items ++ bytes_of (clause_onto (clause_view clause.now))) }
{
    match clause {
        TreeClause::Fail(_) => out.extend_from_slice(b"fail"),
        TreeClause::Free(_, body) => {
            out.extend_from_slice(b"free -> ")?;
            put_term(alloc, out, body)
        }
        TreeClause::Receive {
            tag,
            names,
            from,
            body,
            ..
        } => {
            put_received(alloc, out, tag, names, from)?;
            put_term(alloc, out, body)?;
            Ok(())
        }
    }
}

#[tactic(auto, using(crate::proofs::Lines::send_is))]
fn put_send(
    alloc: Global,
    out: &mut Vec<u8>,
    target: &Name,
    tag: &Name,
    args: &Sequence<TreeExpr>,
) -> Result<(), AllocError>
    ensures { OnOk result (out.new.items ≡ out.old.items
        ++ bytes_of (term_onto (SendTerm (name_view target.now) (name_view tag.now) (map expr_view args.now) nowhere))) }
{
    put_name(out, target)?;
    out.extend_from_slice(b" ! ")?;
    put_name(out, tag)?;
    put_arguments(alloc, out, args)
}

#[tactic(auto, using(crate::proofs::Lines::call_is))]
fn put_call(
    alloc: Global,
    out: &mut Vec<u8>,
    name: &Name,
    args: &Sequence<TreeExpr>,
) -> Result<(), AllocError>
    ensures { OnOk result (out.new.items ≡ out.old.items
        ++ bytes_of (term_onto (CallTerm (name_view name.now) (map expr_view args.now) nowhere))) }
{
    put_name(out, name)?;
    put_arguments(alloc, out, args)
}

/// Appends arguments in brackets.
fn put_arguments(
    alloc: Global,
    out: &mut Vec<u8>,
    args: &Sequence<TreeExpr>,
) -> Result<(), AllocError>
    ensures { OnOk result (out.new.items ≡ out.old.items ++ bytes_of (args_onto (map expr_view args.now))) }
{
    out.push(b'(')?;
    put_list(alloc, out, args.as_slice())?;
    out.push(b')')?;
    Ok(())
}

impl Entry for TreeExpr {
    ghost text = { λ e. bytes_of (expr_onto (expr_view e)) };

    fn put(&self, alloc: Global, out: &mut Vec<u8>) -> Result<(), AllocError> {
        put_expression(alloc, out, self)
    }
}

impl Entry for Name {
    ghost text = { λ x. bytes_of (name_onto (name_view x)) };

    fn put(&self, _alloc: Global, out: &mut Vec<u8>) -> Result<(), AllocError> {
        put_name(out, self)
    }
}
