// What numbering a body goes by, and what it has made so far.
ghost use Rattle.std.specs.Prelude.{◌≡◌, ◌+◌, ◌<◌, ◌∷◌, ◌++◌, [], length, slice_set, OnOk};
ghost use Rattle.pat_core.specs.Views.{core_view, kind_view};
ghost use Rattle.pat_semantics_spec.specs.Programs.{Val};
ghost use Rattle.pat_semantics_spec.specs.Values.{Literal, UnitConst};
ghost use Rattle.pat_resolver_spec.specs.Numbering.{node};
ghost use Rattle.pat_resolver.specs.numbering.Progress.{Adds};
ghost use Rattle.pat_tree.specs.Views.{span_view};

use pat_core::{Core, Expr, Kind, Node};
use pat_resolver_heads::{Heads, ScopeTable};
use pat_sequences::Sequence;
use pat_syntax::Span;
use std::alloc::AllocError;

/// The function whose body is numbered: its number, and the kinds of its variables by number.
#[derive(Drop)]
pub struct Context<'a> {
    pub heads: &'a Heads<'a>,
    pub function: u32,
    pub kinds: &'a [Kind],
}

/// The nodes so far, the variables in scope, and the number of the next variable.
#[derive(Drop)]
pub struct Numbering<'a> {
    pub nodes: Sequence<Node>,
    pub scope: ScopeTable<'a>,
    pub next: u32,
}

/// A term's kind and its place in the text.
#[derive(Clone, Copy)]
pub struct Spot {
    pub kind: Kind,
    pub span: Span,
}

impl<'a> Numbering<'a> {
    /// Appends a node without parts.
    pub(crate) fn append(
        &mut self,
        context: &Context,
        spot: Spot,
        core: Core,
    ) -> Result<(), AllocError>
        ensures { OnOk result (Adds (node context.now.function (kind_view spot.kind) (core_view core) ∷ [])
            (span_view spot.span ∷ []) 0 [] self.old self.new) }
    {
        self.nodes.push(Node {
            core,
            kind: spot.kind,
            function: context.function,
            span: spot.span,
        })
    }

    /// Appends a node whose parts are yet to come.
    pub(crate) fn reserve(&mut self, context: &Context, spot: Spot) -> Result<(), AllocError>
        ensures { OnOk result (Adds (node context.now.function (kind_view spot.kind) (Val (Literal UnitConst)) ∷ [])
            (span_view spot.span ∷ []) 0 [] self.old self.new) }
    {
        self.append(context, spot, Core::Value(Expr::Unit))
    }

    /// Puts a node in the place that was kept for it.
    pub(crate) fn fill(&mut self, context: &Context, spot: Spot, place: usize, core: Core)
        requires { place < length self.old.nodes }
        ensures { self.new ≡ record self.old {
          nodes
              = slice_set self.old.nodes place (record {
                core = core;
                kind = spot.kind;
                function = context.now.function;
                span
                    = spot.span;
              });
        } }
    {
        let kept = self.nodes.replace(
            place,
            Node {
                core,
                kind: spot.kind,
                function: context.function,
                span: spot.span,
            },
        );
        discard(kept);
    }
}

/// Drops a value by a call of its own.
fn discard<T: Drop>(_value: T) {}
