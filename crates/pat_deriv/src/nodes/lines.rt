// Lines.
ghost use Rattle.std.specs.Prelude.{◌≡◌, suc};
ghost use Rattle.pat_core.specs.Views.{program_view};
ghost use Rattle.pat_types.specs.Views.{result_view};
ghost use Rattle.pat_derivations.specs.Views.{var_view, vars_view, line_view, lines_view, derivation_view};
ghost use Rattle.pat_derivation_text_spec.specs.LineReading as reading;
ghost use Rattle.pat_derivation_lines.specs.patterns.Answers.{Gives, Leaves};
ghost use Rattle.pat_derivation_lines.specs.patterns.Views.{names_of};
ghost use Rattle.pat_texts.specs.Pieces.{seen};

use crate::nodes::values::read_value;
use pat_core::Interface;
use pat_derivation_lines::{InterfaceNames, Unread, read_certs, read_needs, read_type};
use pat_derivations::{Derivation, DerivedNode, VarValue};
use pat_texts::{before, behind, cut, read_number};
use pat_types::{NodeType, TypeOf};
use std::alloc::Global;

/// What stands behind the number, if it is the one that is wanted.
fn behind_number(text: &[u8], wanted: usize) -> Option<&[u8]>
    ensures { seen result ≡ reading.behind_number wanted text.now }
{
    match cut(text, b' ') {
        Some((own, more)) => match read_number(own) {
            Some(number) if number as usize == wanted => Some(more),
            _ => None,
        },
        None => None,
    }
}

/// What stands behind the number, if it is one above the count.
fn behind_next(text: &[u8], count: usize) -> Option<&[u8]>
    ensures { seen result ≡ reading.behind_number (suc count) text.now }
{
    match cut(text, b' ') {
        Some((own, more)) => match read_number(own) {
            Some(number) if number > 0 && (number - 1) as usize == count => Some(more),
            _ => None,
        },
        None => None,
    }
}

/// A variable of an interface, from the text of its value.
fn var_in(
    alloc: Global,
    interface: u32,
    declared: &Interface,
    text: &[u8],
) -> Result<(u32, VarValue), Unread>
    ensures { Gives var_view (reading.var_in text.now (interface, names_of declared.now.tags)) result }
{
    let value = read_value(alloc, declared.tags.as_slice(), text)?;
    Ok((interface, value))
}

/// A variable's interface and value.
fn var_named(
    alloc: Global,
    names: &InterfaceNames,
    name: &[u8],
    text: &[u8],
) -> Result<(u32, VarValue), Unread>
    ensures { Gives var_view (reading.var_named (program_view names.now.program.now) (name.now, text.now)) result }
{
    match names.find(name) {
        Some((interface, declared)) => var_in(alloc, interface, declared, text),
        None => Err(Unread::NotSpelled),
    }
}

/// A variable behind so many others, from what stands behind `var `.
fn read_var(
    alloc: Global,
    names: &InterfaceNames,
    count: usize,
    text: &[u8],
) -> Result<(u32, VarValue), Unread>
    ensures { Gives var_view (reading.read_var (program_view names.now.program.now) (suc count) text.now) result }
{
    match behind_next(text, count) {
        Some(more) => match cut(more, b' ') {
            Some((name, value)) => var_named(alloc, names, name, value),
            None => Err(Unread::NotSpelled),
        },
        None => Err(Unread::NotSpelled),
    }
}

/// A node of this type, from the texts of its environment and of its certificates.
fn node_with(
    alloc: Global,
    names: &InterfaceNames,
    of: TypeOf,
    needs: &[u8],
    certs: &[u8],
) -> Result<DerivedNode, Unread>
    ensures { Gives line_view (reading.node_with (program_view names.now.program.now) (result_view of) (needs.now, certs.now)) result }
{
    let env = read_needs(alloc, names, needs)?;
    let certs = read_certs(alloc, certs)?;
    Ok(DerivedNode {
        of: NodeType { result: of, env },
        certs,
    })
}

/// A node, from the text of its type and the rest of its line.
fn node_of(
    alloc: Global,
    names: &InterfaceNames,
    front: &[u8],
    text: &[u8],
) -> Result<DerivedNode, Unread>
    ensures { Gives line_view (reading.node_of (program_view names.now.program.now) (front.now, text.now)) result }
{
    match before(front, b" ") {
        Some(own) => match cut(text, b'}') {
            Some((needs, certs)) => {
                let of = read_type(alloc, names, own)?;
                node_with(alloc, names, of, needs, certs)
            }
            None => Err(Unread::NotSpelled),
        },
        None => Err(Unread::NotSpelled),
    }
}

/// A node, from what stands behind `node `.
fn read_node(
    alloc: Global,
    names: &InterfaceNames,
    number: usize,
    text: &[u8],
) -> Result<DerivedNode, Unread>
    ensures { Gives line_view (reading.read_node (program_view names.now.program.now) number text.now) result }
{
    match behind_number(text, number) {
        Some(more) => match cut(more, b'{') {
            Some((front, rest)) => node_of(alloc, names, front, rest),
            None => Err(Unread::NotSpelled),
        },
        None => Err(Unread::NotSpelled),
    }
}

/// A variable more.
fn add_var(
    alloc: Global,
    names: &InterfaceNames,
    d: &mut Derivation,
    text: &[u8],
) -> Result<(), Unread>
    ensures { Leaves (reading.with_var (program_view names.now.program.now) (derivation_view d.old) text.now) (derivation_view d.new) result }
{
    if !d.nodes.is_empty() {
        return Err(Unread::NotSpelled);
    }
    let var = read_var(alloc, names, d.vars.len(), text)?;
    d.vars.push(var)?;
    Ok(())
}

/// A node more.
fn add_node(
    alloc: Global,
    names: &InterfaceNames,
    d: &mut Derivation,
    text: &[u8],
) -> Result<(), Unread>
    ensures { Leaves (reading.with_node (program_view names.now.program.now) (derivation_view d.old) text.now) (derivation_view d.new) result }
{
    let node = read_node(alloc, names, d.nodes.len(), text)?;
    d.nodes.push(node)?;
    Ok(())
}

/// The derivation with a line more, behind the first line: a variable, as long as there is no node, or a node, with the next number.
pub fn read_line(
    alloc: Global,
    names: &InterfaceNames,
    d: &mut Derivation,
    line: &[u8],
) -> Result<(), Unread>
    ensures { Leaves (reading.with_line (program_view names.now.program.now) (derivation_view d.old) line.now) (derivation_view d.new) result }
{
    match behind(line, b"var ") {
        Some(more) => add_var(alloc, names, d, more),
        None => match behind(line, b"node ") {
            Some(more) => add_node(alloc, names, d, more),
            None => Err(Unread::NotSpelled),
        },
    }
}
