// The heads of a tree's declarations, examined and numbered.
ghost use Rattle.std.specs.Prelude.{◌≡◌, ◌<◌, ◌≤◌, ◌^◌, [], map, length, All, IfOk};
ghost use Rattle.pat_resolver_spec.specs.Heads.{interface_names, heads_of, definitions_of};
ghost use Rattle.pat_resolver_spec.specs.Findings.{heads_findings};
ghost use Rattle.pat_resolver_spec.specs.Places.{payload_places};
ghost use Rattle.pat_parser_laws.specs.Counts.{tree_size};
ghost use Rattle.pat_tree.specs.Views.{tree_view, decl_view};
ghost use Rattle.pat_resolver_heads.specs.Names.{names_view};
ghost use Rattle.pat_resolver_heads.specs.results.Results.{Meets};
ghost use Rattle.pat_resolver_heads.specs.Views.{heads_view};
ghost use Rattle.pat_resolver_heads.specs.HeadPlaces.{interface_places, param_places, result_place, written_params, written_result};

use crate::check::check_heads;
use crate::gather::gather_names;
use crate::heads::{Heads, Signature};
use crate::names::Names;
use crate::number::{number_interfaces, number_signatures};
use crate::results::ResolveError;
use crate::tables::NameTable;
use pat_tree::{Decl, Tree};
use std::alloc::{AllocError, Global};

/// Examines the heads of a tree's declarations in order, and numbers them.
pub fn read_heads<'a>(alloc: Global, tree: &'a Tree) -> Result<Heads<'a>, ResolveError>
    requires { tree_size (tree_view tree.now) < 2 ^ 32 }
    ensures found { Meets result (heads_findings (interface_names (tree_view tree.now)) [] [] (tree_view tree.now)) }
    ensures names { IfOk result (λ h. names_view h.names ≡ interface_names (tree_view tree.now)) }
    ensures heads { IfOk result (λ h. heads_view h ≡ heads_of (tree_view tree.now)) }
    ensures payloads { IfOk result (λ h. map interface_places h.interfaces ≡ payload_places (tree_view tree.now)) }
    ensures params { IfOk result (λ h. map param_places h.signatures ≡ map written_params (definitions_of (tree_view tree.now))) }
    ensures results { IfOk result (λ h. map result_place h.signatures ≡ map written_result (definitions_of (tree_view tree.now))) }
{
    let decls = tree.decls.as_slice();
    let names = gather_names(alloc, decls)?;
    check_heads(alloc, &names, decls)?;
    let heads = number_heads(alloc, names, decls)?;
    Ok(heads)
}

/// Numbers the heads of declarations of which no interface has more than 32 tags.
fn number_heads<'a>(
    alloc: Global,
    names: Names<'a>,
    decls: &'a [Decl],
) -> Result<Heads<'a>, AllocError>
    requires named { names_view names ≡ interface_names (map decl_view decls.now) }
    requires few { length decls.now < 2 ^ 32 }
    requires few_tags { All (λ t. length t.tags ≤ 32) names.interfaces }
    ensures names { IfOk result (λ h. names_view h.names ≡ interface_names (map decl_view decls.now)) }
    ensures heads { IfOk result (λ h. heads_view h ≡ heads_of (map decl_view decls.now)) }
    ensures payloads { IfOk result (λ h. map interface_places h.interfaces ≡ payload_places (map decl_view decls.now)) }
    ensures params { IfOk result (λ h. map param_places h.signatures ≡ map written_params (definitions_of (map decl_view decls.now))) }
    ensures results { IfOk result (λ h. map result_place h.signatures ≡ map written_result (definitions_of (map decl_view decls.now))) }
{
    let interfaces = number_interfaces(alloc, &names, decls)?;
    let signatures = number_signatures(alloc, &names, decls)?;
    let functions = table_of_functions(alloc, signatures.as_slice())?;
    Ok(Heads {
        interfaces,
        signatures,
        names,
        functions,
        no_tags: NameTable::new(alloc),
    })
}

/// The names of functions, in order.
fn table_of_functions<'a>(
    alloc: Global,
    signatures: &[Signature<'a>],
) -> Result<NameTable<'a>, AllocError>
    ensures { IfOk result (λ t. t ≡ map (λ s. s.name.now) signatures.now) }
{
    let mut functions = NameTable::new(alloc);
    for signature in signatures {
        functions.push(signature.name)?;
    }
    Ok(functions)
}
