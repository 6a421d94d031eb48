// Whole trees.
ghost use Rattle.std.specs.Prelude.{◌≡◌, ◌<◌, ◌++◌, [], map, OnOk, IfOk, IfErr};
ghost use Rattle.pat_resolver_spec.specs.Scopes.{number_found};
ghost use Rattle.pat_resolver_spec.specs.Heads.{interface_names, heads_of};
ghost use Rattle.pat_resolver_spec.specs.Findings.{heads_findings, main_findings, main_of, findings};
ghost use Rattle.pat_resolver_spec.specs.Numbering.{numbered};
ghost use Rattle.pat_resolver_spec.specs.Places.{payload_places, places};
ghost use Rattle.pat_resolver_spec.specs.Claims.{Resolves, IsWritten};
ghost use Rattle.pat_resolver_spec.specs.Resolved.{IsResolved};
ghost use Rattle.pat_parser_laws.specs.Counts.{tree_size};
ghost use Rattle.pat_core.specs.Views.{program_view};
ghost use Rattle.pat_tree.specs.Views.{tree_view};
ghost use Rattle.pat_resolver_heads.specs.results.Results.{Meets};
ghost use Rattle.pat_resolver_heads.specs.results.Views.{places_view};
ghost use Rattle.pat_resolver_heads.specs.Names.{names_view};
ghost use Rattle.pat_resolver_heads.specs.Views.{heads_view};
ghost use Rattle.pat_resolver_heads.specs.HeadPlaces.{interface_places};
ghost use Rattle.pat_resolver.specs.Answers.{Explains};
ghost use Rattle.pat_limits.specs.Limits.{most_number};

use crate::entry::find_main;
use crate::functions::{Resolution, check_functions, resolve_functions};
use pat_core::Program;
use pat_resolver_heads::{Heads, ResolveError, read_heads};
use pat_tree::Tree;
use std::alloc::Global;

/// The program of a tree whose text ends at `end`, with the places of its parts, or the first rule that the tree breaks, with
/// its place. Interfaces, functions and nodes are numbered in the order of the text. Want of memory claims nothing.
pub fn resolve(alloc: Global, tree: &Tree, end: u32) -> Result<Program, ResolveError>
    requires small { tree_size (tree_view tree.now) < most_number }
    // Nothing is found in a tree that has a program; else what is found first is answered.
    ensures found { Meets result (findings end (tree_view tree.now)) }
    ensures program { IfOk result (λ p. program_view p ≡ numbered (tree_view tree.now)) }
    ensures places { IfOk result (λ p. places_view p ≡ places (tree_view tree.now)) }
    // The same in other words.
    ensures resolved { IfOk result (λ p. Resolves end (tree_view tree.now) (program_view p)) }
    ensures refused { IfErr result (Explains end (tree_view tree.now)) }
    // Of a tree that is written as the grammar has it: all that later calls ask of a program.
    ensures is_resolved { IsWritten (tree_view tree.now) → IfOk result (λ p. IsResolved (program_view p) (places_view p)) }
{
    whole_tree(alloc, tree, end)
}

/// Whether a tree whose text ends at `end` has a program: Ok exactly where nothing is found in it, else the first rule that it
/// breaks, with its place. No program is made. Want of memory claims nothing.
pub fn examine(alloc: Global, tree: &Tree, end: u32) -> Result<(), ResolveError>
    requires small { tree_size (tree_view tree.now) < most_number }
    ensures found { Meets result (findings end (tree_view tree.now)) }
    // The same in other words.
    ensures resolved { OnOk result (Resolves end (tree_view tree.now) (numbered (tree_view tree.now))) }
    ensures refused { IfErr result (Explains end (tree_view tree.now)) }
{
    sound_tree(alloc, tree, end)
}

fn sound_tree(alloc: Global, tree: &Tree, end: u32) -> Result<(), ResolveError>
    requires { tree_size (tree_view tree.now) < most_number }
    ensures { Meets result (findings end (tree_view tree.now)) }
{
    let (heads, _main) = heads_and_main(alloc, tree, end)?;
    check_functions(alloc, &heads, tree.decls.as_slice())
}

fn whole_tree(alloc: Global, tree: &Tree, end: u32) -> Result<Program, ResolveError>
    requires small { tree_size (tree_view tree.now) < most_number }
    ensures found { Meets result (findings end (tree_view tree.now)) }
    ensures program { IfOk result (λ p. program_view p ≡ numbered (tree_view tree.now)) }
    ensures places { IfOk result (λ p. places_view p ≡ places (tree_view tree.now)) }
{
    let (heads, main) = heads_and_main(alloc, tree, end)?;
    let made = resolve_functions(alloc, &heads, tree.decls.as_slice())?;
    Ok(assembled(heads, main, made))
}

// The heads of a tree's declarations, and the number of its main.
fn heads_and_main<'a>(
    alloc: Global,
    tree: &'a Tree,
    end: u32,
) -> Result<(Heads<'a>, u32), ResolveError>
    requires { tree_size (tree_view tree.now) < most_number }
    ensures found { Meets result (heads_findings (interface_names (tree_view tree.now)) [] [] (tree_view tree.now)
        ++ main_findings end (main_of (tree_view tree.now))) }
    ensures names { IfOk result (λ r. names_view r.0.names ≡ interface_names (tree_view tree.now)) }
    ensures heads { IfOk result (λ r. heads_view r.0 ≡ heads_of (tree_view tree.now)) }
    ensures payloads { IfOk result (λ r. map interface_places r.0.interfaces ≡ payload_places (tree_view tree.now)) }
    ensures main { IfOk result (λ r. r.1 ≡ number_found (main_of (tree_view tree.now))) }
{
    let heads = read_heads(alloc, tree)?;
    let main = find_main(tree.decls.as_slice(), end)?;
    Ok((heads, main))
}

// The parts of a program put together.
fn assembled(heads: Heads, main: u32, made: Resolution) -> Program
    ensures { result ≡ record {
      interfaces = heads.entry.interfaces;
      functions = made.entry.functions;
      main = main;
      nodes
          = made.entry.numbering.nodes;
    } }
{
    Program {
        interfaces: heads.interfaces,
        functions: made.functions,
        main,
        nodes: made.numbering.nodes,
    }
}
