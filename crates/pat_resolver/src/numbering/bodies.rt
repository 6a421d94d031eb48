// The nodes of a whole body.
ghost use Rattle.std.specs.Prelude.{◌≡◌, ◌+◌, ◌<◌, ◌++◌, [], length, map, OnOk};
ghost use Rattle.pat_core.specs.Views.{kind_view, node_view};
ghost use Rattle.pat_resolver_heads.specs.Views.{heads_view};
ghost use Rattle.pat_resolver_spec.specs.Findings.{binders_in};
ghost use Rattle.pat_resolver_spec.specs.Numbering.{nodes_in, nodes_of, vars_of};
ghost use Rattle.pat_resolver_spec.specs.Places.{node_places};
ghost use Rattle.pat_resolver.specs.numbering.Kinds.{HasAt};
ghost use Rattle.pat_resolver_heads.specs.tables.Views.{scope_view};
ghost use Rattle.pat_tree.specs.Views.{span_view, term_view};
ghost use Rattle.pat_limits.specs.Limits.{number_count};

use crate::numbering::state::{Context, Numbering};
use pat_core::Kind;
use pat_resolver_heads::ScopeTable;
use pat_sequences::Sequence;
use pat_tree::Term;
use std::alloc::{AllocError, Global};

impl<'a> Numbering<'a> {
    /// No node, no variable in scope, and the first variable to come has the number 0. It takes no memory.
    pub fn new(alloc: Global) -> Self
        ensures { result ≡ record { nodes = []; scope = []; next = 0 } }
    {
        Numbering {
            nodes: Sequence::new(alloc),
            scope: ScopeTable::new(alloc),
            next: 0,
        }
    }

    /// Appends the nodes of a body of which a kind is needed, each before its parts. The names that the body binds get the next
    /// numbers in order. `context.kinds` has the kind that each of them has, by its number. An error is want of memory, and
    /// leaves nodes and scope in any state.
    pub fn number_body(
        &mut self,
        alloc: Global,
        context: &Context,
        kind: Kind,
        body: &'a Term,
    ) -> Result<(), AllocError>
        requires room { length self.old.nodes + nodes_in (term_view body.now) < number_count }
        requires names { self.old.next + binders_in (term_view body.now) < number_count }
        requires kinds { HasAt (map kind_view context.now.kinds.now) self.old.next
            (vars_of (heads_view context.now.heads.now) (scope_view self.old.scope) self.old.next (term_view body.now)) }
        ensures nodes { OnOk result (map node_view self.new.nodes
            ≡ map node_view self.old.nodes
            ++ nodes_of (heads_view context.now.heads.now) context.now.function (scope_view self.old.scope)
            (length self.old.nodes) self.old.next (kind_view kind) (term_view body.now)) }
        ensures places { OnOk result (map (λ d. span_view d.span) self.new.nodes
            ≡ map (λ d. span_view d.span) self.old.nodes ++ node_places (term_view body.now)) }
        ensures next { OnOk result (self.new.next ≡ self.old.next + binders_in (term_view body.now)) }
        ensures scope { OnOk result (self.new.scope ≡ self.old.scope) }
    {
        self.number_term(alloc, context, kind, body)
    }
}
