// Declarations.
ghost use Rattle.std.specs.Prelude.{◌≡◌, ◌++◌, map, OnOk};
ghost use Rattle.pat_print_spec.specs.Canonical.{list_onto, message_onto, param_onto, decl_onto};
ghost use Rattle.pat_tree.specs.Views.{name_view, type_view, term_view, message_view, param_view, decl_view};
ghost use Rattle.pat_parser_spec.specs.Trees.{InterfaceDecl, DefDecl};
ghost use Rattle.pat_print.specs.Parts.{bytes_of, params_onto, payloads_onto};

use crate::atoms::put_name;
use crate::list::{Entry, put_list};
use crate::pattern::put_type;
use crate::term::put_block;
use pat_sequences::Sequence;
use pat_tree::{Decl, Name, Param, Term, TreeMessage, TreeType};
use std::alloc::{AllocError, Global};

/// Appends a declaration, without the end of its line.
pub fn put_declaration(
    alloc: Global,
    out: &mut Vec<u8>,
    declaration: &Decl,
) -> Result<(), AllocError>
    ensures { OnOk result (out.new.items ≡ out.old.items ++ bytes_of (decl_onto (decl_view declaration.now))) }
{
    match declaration {
        Decl::Interface { name, messages } => put_interface(alloc, out, name, messages),
        Decl::Def {
            name,
            params,
            result,
            body,
        } => put_function(alloc, out, name, params, result, body),
    }
}

#[tactic(auto, using(crate::proofs::Lines::interface_is))]
fn put_interface(
    alloc: Global,
    out: &mut Vec<u8>,
    name: &Name,
    messages: &Sequence<TreeMessage>,
) -> Result<(), AllocError>
    ensures { OnOk result (out.new.items ≡ out.old.items
        ++ bytes_of (decl_onto (InterfaceDecl (name_view name.now) (map message_view messages.now)))) }
{
    out.extend_from_slice(b"interface ")?;
    put_name(out, name)?;
    out.extend_from_slice(b" { ")?;
    put_messages(alloc, out, messages)?;
    out.extend_from_slice(b" }")?;
    Ok(())
}

fn put_messages(
    alloc: Global,
    out: &mut Vec<u8>,
    messages: &Sequence<TreeMessage>,
) -> Result<(), AllocError>
    ensures { OnOk result (out.new.items ≡ out.old.items ++ bytes_of (list_onto message_onto (map message_view messages.now))) }
{
    put_list(alloc, out, messages.as_slice())?;
    Ok(())
}

#[tactic(auto, using(crate::proofs::Lines::function_is))]
fn put_function(
    alloc: Global,
    out: &mut Vec<u8>,
    name: &Name,
    params: &Sequence<Param>,
    of: &TreeType,
    body: &Term,
) -> Result<(), AllocError>
    ensures { OnOk result (out.new.items ≡ out.old.items
        ++ bytes_of (decl_onto (DefDecl (name_view name.now) (map param_view params.now) (type_view of.now) (term_view body.now)))) }
{
    out.extend_from_slice(b"def ")?;
    put_name(out, name)?;
    put_params(alloc, out, params)?;
    out.extend_from_slice(b": ")?;
    put_type(out, of)?;
    out.push(b' ')?;
    put_block(alloc, out, body)?;
    Ok(())
}

/// Appends parameters in brackets.
fn put_params(alloc: Global, out: &mut Vec<u8>, params: &Sequence<Param>) -> Result<(), AllocError>
    ensures { OnOk result (out.new.items ≡ out.old.items ++ bytes_of (params_onto (map param_view params.now))) }
{
    out.push(b'(')?;
    put_list(alloc, out, params.as_slice())?;
    out.push(b')')?;
    Ok(())
}

/// Appends the types of payloads in brackets.
fn put_payloads(
    alloc: Global,
    out: &mut Vec<u8>,
    payloads: &Sequence<TreeType>,
) -> Result<(), AllocError>
    ensures { OnOk result (out.new.items ≡ out.old.items ++ bytes_of (payloads_onto (map type_view payloads.now))) }
{
    out.push(b'(')?;
    put_list(alloc, out, payloads.as_slice())?;
    out.push(b')')?;
    Ok(())
}

impl Entry for TreeMessage {
    ghost text = { λ m. bytes_of (message_onto (message_view m)) };

    #[tactic(auto, using(crate::proofs::Lines::message_is))]
    fn put(&self, alloc: Global, out: &mut Vec<u8>) -> Result<(), AllocError> {
        put_name(out, &self.name)?;
        put_payloads(alloc, out, &self.payloads)
    }
}

impl Entry for Param {
    ghost text = { λ p. bytes_of (param_onto (param_view p)) };

    #[tactic(auto, using(crate::proofs::Lines::param_is))]
    fn put(&self, _alloc: Global, out: &mut Vec<u8>) -> Result<(), AllocError> {
        put_name(out, &self.name)?;
        out.extend_from_slice(b": ")?;
        put_type(out, &self.of)
    }
}
