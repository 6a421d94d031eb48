// The names of all interfaces and their tags: types may name interfaces that are declared further down.
ghost use Rattle.std.specs.Prelude.{◌≡◌, ◌<◌, ◌≤◌, ◌+◌, ◌^◌, ◌∷◌, ◌++◌, [], ℕ, length, map, IfOk, OnOk};
ghost use Rattle.pat_resolver_spec.specs.Heads.{interface_names};
ghost use Rattle.pat_tree.specs.Views.{message_view, decl_view};
ghost use Rattle.pat_resolver_heads.specs.Names.{names_view, table_view};

use crate::names::{InterfaceTable, Names};
use crate::tables::NameTable;
use pat_sequences::Sequence;
use pat_tree::{Decl, Name, TreeMessage};
use std::alloc::{AllocError, Global};

/// The interfaces that are declared, in order, with the names of their tags.
pub fn gather_names<'a>(alloc: Global, decls: &'a [Decl]) -> Result<Names<'a>, AllocError>
    requires { length decls.now < 2 ^ 32 }
    ensures { IfOk result (λ n. names_view n ≡ interface_names (map decl_view decls.now)) }
{
    let mut table = NameTable::new(alloc);
    let mut interfaces = Sequence::new(alloc);
    for decl in decls {
        gather_decl(alloc, &mut table, &mut interfaces, decl)?;
    }
    Ok(Names { interfaces, table })
}

/// Puts the interface that a declaration declares, if it does, behind the others.
fn gather_decl<'a>(
    alloc: Global,
    table: &mut NameTable<'a>,
    interfaces: &mut Sequence<InterfaceTable<'a>>,
    decl: &'a Decl,
) -> Result<(), AllocError>
    ensures tied { OnOk result (table.old ≡ map (λ i. i.name.now) interfaces.old → table.new ≡ map (λ i. i.name.now) interfaces.new) }
    ensures few { OnOk result (length interfaces.new ≤ length interfaces.old + 1) }
    ensures all { OnOk result (map table_view interfaces.new ≡ map table_view interfaces.old ++ interface_names (decl_view decl.now ∷ [])) }
{
    match decl {
        Decl::Interface { name, messages } => {
            let own = table_of(alloc, name, messages.as_slice())?;
            table.push(&name.text)?;
            interfaces.push(own)
        }
        Decl::Def { .. } => Ok(()),
    }
}

/// The name of an interface and those of its tags.
fn table_of<'a>(
    alloc: Global,
    name: &'a Name,
    messages: &'a [TreeMessage],
) -> Result<InterfaceTable<'a>, AllocError>
    ensures name { IfOk result (λ t. t.name.now ≡ name.now.text) }
    ensures tags { IfOk result (λ t. t.tags ≡ map (λ m. m.name.text) (map message_view messages.now)) }
{
    let mut tags = NameTable::new(alloc);
    for message in messages {
        tags.push(&message.name.text)?;
    }
    Ok(InterfaceTable {
        name: &name.text,
        tags,
    })
}
