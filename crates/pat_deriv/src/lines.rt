// Lines.
ghost use Rattle.std.specs.Prelude.{◌≡◌, ◌++◌, ◌∷◌, [], OnOk, IfOk, map};
ghost use Rattle.std.specs.Fmt.{decimal};
ghost use Rattle.pat_core.specs.Views.{program_view};
ghost use Rattle.pat_derivations.specs.Views.{var_view, vars_view, line_view, lines_view, derivation_view};
ghost use Rattle.pat_derivation_text_spec.specs.DerivationText.{var_line, node_body, node_line, numbered, text_of_lines, derivation_text};

use crate::certificates::put_certs;
use crate::pieces::put;
use crate::types::{put_needs, put_type, put_var};
use pat_core::Program;
use pat_derivations::{Derivation, DerivedNode, VarValue};
use pat_texts::push_number;
use std::alloc::{AllocError, Global};

/// A word, and a number and a space behind it.
fn put_head(out: &mut Vec<u8>, word: &[u8], number: u64) -> Result<(), AllocError>
    ensures { OnOk result (out.new.items ≡ out.old.items ++ (word.now ++ (decimal number ++ 32 ∷ []))) }
{
    put(out, word)?;
    push_number(out, number)?;
    put(out, b" ")
}

/// The line of a variable.
fn put_var_line(
    alloc: Global,
    out: &mut Vec<u8>,
    program: &Program,
    number: u64,
    interface: u32,
    value: &VarValue,
) -> Result<(), AllocError>
    ensures { OnOk result (out.new.items ≡ out.old.items
        ++ (var_line (program_view program.now) number (var_view (interface, value.now)) ++ 10 ∷ [])) }
{
    put_head(out, b"var ", number)?;
    put_var(alloc, out, program, interface, value)?;
    put(out, b"\n")
}

/// What stands behind a node's number.
fn put_node(
    alloc: Global,
    out: &mut Vec<u8>,
    program: &Program,
    node: &DerivedNode,
) -> Result<(), AllocError>
    ensures { OnOk result (out.new.items ≡ out.old.items ++ node_body (program_view program.now) (line_view node.now)) }
{
    put_type(alloc, out, program, &node.of.result)?;
    put(out, b" {")?;
    put_needs(alloc, out, program, node.of.env.as_slice())?;
    put(out, b"}")?;
    put_certs(out, node.certs.as_slice())
}

/// The line of a node.
fn put_node_line(
    alloc: Global,
    out: &mut Vec<u8>,
    program: &Program,
    number: u64,
    node: &DerivedNode,
) -> Result<(), AllocError>
    ensures { OnOk result (out.new.items ≡ out.old.items ++ (node_line (program_view program.now) number (line_view node.now) ++ 10 ∷ [])) }
{
    put_head(out, b"node ", number)?;
    put_node(alloc, out, program, node)?;
    put(out, b"\n")
}

/// The lines of variables, numbered from 1.
fn put_vars(
    alloc: Global,
    out: &mut Vec<u8>,
    program: &Program,
    vars: &[(u32, VarValue)],
) -> Result<(), AllocError>
    ensures { OnOk result (out.new.items ≡ out.old.items
        ++ text_of_lines (numbered (var_line (program_view program.now)) 1 (vars_view vars.now))) }
{
    let mut number: u64 = 1;
    for (interface, value) in vars {
        put_var_line(alloc, out, program, number, *interface, value)?;
        number += 1;
    }
    Ok(())
}

/// The lines of nodes, numbered from 0.
fn put_nodes(
    alloc: Global,
    out: &mut Vec<u8>,
    program: &Program,
    nodes: &[DerivedNode],
) -> Result<(), AllocError>
    ensures { OnOk result (out.new.items ≡ out.old.items
        ++ text_of_lines (numbered (node_line (program_view program.now)) 0 (lines_view nodes.now))) }
{
    let mut number: u64 = 0;
    for node in nodes {
        put_node_line(alloc, out, program, number, node)?;
        number += 1;
    }
    Ok(())
}

/// The text of a derivation of the program: a first line, a line for each pattern variable, and a line for each node. A name that
/// the program doesn't have is left out.
pub fn write(alloc: Global, program: &Program, d: &Derivation) -> Result<Vec<u8>, AllocError>
    ensures { IfOk result (λ text. text.items ≡ derivation_text (program_view program.now) (derivation_view d.now)) }
{
    let mut text = b"%%derivation\n".to_vec(alloc)?;
    put_vars(alloc, &mut text, program, d.vars.as_slice())?;
    put_nodes(alloc, &mut text, program, d.nodes.as_slice())?;
    Ok(text)
}
