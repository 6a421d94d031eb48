// Guards and their clauses.
ghost use Rattle.std.specs.Prelude.{◌≡◌, ◌+◌, ◌≤◌, ◌<◌, ◌∷◌, ◌++◌, [], List, length, map, drop, OnOk, IfOk};
ghost use Rattle.pat_core.specs.Views.{clause_view as core_clause_view, kind_view};
ghost use Rattle.pat_parser_spec.specs.Trees.{GuardTerm, ReceiveClause, listed, with_clause, no_clauses};
ghost use Rattle.pat_resolver_spec.specs.Scopes.{bind_names};
ghost use Rattle.pat_resolver_spec.specs.Numbering.{numbers_from};
ghost use Rattle.pat_resolver.specs.numbering.Progress.{kinds_of, no_bodies, receive_of, AddsTerm, AddsClauses, AddsReceive, ClausesFit, Notes, ReceiveFits, TermFits};
ghost use Rattle.pat_resolver_heads.specs.tables.Views.{scope_view};
ghost use Rattle.pat_tree.specs.Views.{clause_view, name_view, pattern_view, span_view, term_view};
ghost use Rattle.pat_limits.specs.Limits.{number_count};

use crate::numbering::lookups::{guarded_interface, tag_number, variable_number};
use crate::numbering::state::{Context, Numbering, Spot};
use pat_core::{Clause, Core, Kind};
use pat_sequences::Sequence;
use pat_tree::{Name, Term, TreeClause, TreePattern};
use std::alloc::{AllocError, Global};

/// The bodies of a guard's clauses: that of the free clause, and the receive clauses in order.
#[derive(Drop)]
pub struct Bodies {
    pub free: Option<u32>,
    pub receives: Sequence<Clause>,
}

impl<'a> Numbering<'a> {
    #[cycle(numbering)]
    pub(crate) fn number_guard(
        &mut self,
        alloc: Global,
        context: &Context,
        spot: Spot,
        name: &Name,
        clauses: &'a Vec<TreeClause>,
        pattern: &TreePattern,
    ) -> Result<(), AllocError>
        requires { TermFits context.now self.old
            (GuardTerm (name_view name.now) (pattern_view pattern.now) (listed (map clause_view clauses.now.items)) (span_view spot.span)) }
        ensures { OnOk result (AddsTerm context.now (kind_view spot.kind)
            (GuardTerm (name_view name.now) (pattern_view pattern.now) (listed (map clause_view clauses.now.items))
            (span_view spot.span)) self.old self.new) }
    {
        let place = self.nodes.len();
        self.reserve(context, spot)?;
        let interface = guarded_interface(&self.scope, &name.text);
        let bodies = self.number_clauses(alloc, context, spot.kind, interface, clauses.as_slice())?;
        let pattern = context.heads.number_pattern(alloc, interface, pattern)?;
        let core = Core::Guard {
            var: variable_number(&self.scope, &name.text),
            pattern,
            free: bodies.free,
            receives: bodies.receives,
        };
        self.fill(context, spot, place, core);
        Ok(())
    }

    /// The nodes of the clauses' bodies, in order.
    #[cycle(numbering)]
    fn number_clauses(
        &mut self,
        alloc: Global,
        context: &Context,
        kind: Kind,
        interface: u32,
        clauses: &'a [TreeClause],
    ) -> Result<Bodies, AllocError>
        requires { ClausesFit context.now interface self.old (listed (map clause_view clauses.now)) }
        ensures added { IfOk result (λ b. AddsClauses context.now interface (kind_view kind)
            (listed (map clause_view clauses.now)) self.old self.new) }
        ensures noted { IfOk result (λ b. Notes context.now interface (listed (map clause_view clauses.now)) self.old no_bodies b) }
    {
        let mut bodies = Bodies {
            free: None,
            receives: Sequence::new(alloc),
        };
        for clause in clauses {
            self.number_clause(alloc, context, kind, interface, clause, &mut bodies)?;
        }
        Ok(bodies)
    }

    /// The nodes of a clause's body. A fail clause has none.
    #[cycle(numbering)]
    fn number_clause(
        &mut self,
        alloc: Global,
        context: &Context,
        kind: Kind,
        interface: u32,
        clause: &'a TreeClause,
        bodies: &mut Bodies,
    ) -> Result<(), AllocError>
        requires { ClausesFit context.now interface self.old (with_clause (clause_view clause.now) no_clauses) }
        ensures added { OnOk result (AddsClauses context.now interface (kind_view kind)
            (with_clause (clause_view clause.now) no_clauses) self.old self.new) }
        ensures noted { OnOk result (Notes context.now interface
            (with_clause (clause_view clause.now) no_clauses) self.old bodies.old bodies.new) }
    {
        match clause {
            TreeClause::Fail(_) => Ok(()),
            TreeClause::Free(_, body) => {
                let first = self.nodes.len() as u32;
                bodies.free = bodies.free.or(Some(first));
                self.number_term(alloc, context, kind, body)
            }
            TreeClause::Receive {
                tag,
                names,
                from,
                body,
                ..
            } => {
                let received = self.number_receive(
                    alloc, context, kind, interface, tag, names, from, body,
                )?;
                bodies.receives.push(received)
            }
        }
    }

    /// A receive clause binds the names of the payloads, and then the name of what is left of the mailbox.
    #[cycle(numbering)]
    fn number_receive(
        &mut self,
        alloc: Global,
        context: &Context,
        kind: Kind,
        interface: u32,
        tag: &Name,
        names: &'a Sequence<Name>,
        from: &'a Name,
        body: &'a Term,
    ) -> Result<Clause, AllocError>
        requires { ReceiveFits context.now interface self.old (name_view tag.now) (map name_view names.now) (name_view from.now)
            (term_view body.now) }
        ensures added { IfOk result (λ r. AddsReceive context.now interface (kind_view kind) (name_view tag.now) (map name_view names.now)
            (name_view from.now) (term_view body.now) self.old self.new) }
        ensures noted { IfOk result (λ r. core_clause_view r
            ≡ receive_of context.now interface self.old (name_view tag.now) (map name_view names.now)) }
    {
        let outer = self.scope.len();
        let tag = tag_number(context.heads, interface, &tag.text);
        let vars = self.bind_names(alloc, context, names)?;
        let own = self.next;
        self.scope.push(&from.text, own, Kind::Mailbox(interface))?;
        self.next += 1;
        let first = self.nodes.len() as u32;
        self.number_term(alloc, context, kind, body)?;
        let inner = self.scope.len() - outer;
        self.scope.pop(inner);
        Ok(Clause {
            tag,
            vars,
            from: own,
            body: first,
        })
    }

    /// Brings names into scope, with the next numbers.
    fn bind_names(
        &mut self,
        alloc: Global,
        context: &Context,
        names: &'a Sequence<Name>,
    ) -> Result<Sequence<u32>, AllocError>
        requires kinds { self.old.next + length names.now ≤ length context.now.kinds.now }
        requires room { self.old.next + length names.now < number_count }
        ensures numbers { IfOk result (λ ns. ns ≡ numbers_from self.old.next (map name_view names.now)) }
        ensures next { IfOk result (λ ns. self.new.next ≡ self.old.next + length names.now) }
        ensures nodes { IfOk result (λ ns. self.new.nodes ≡ self.old.nodes) }
        ensures scope { IfOk result (λ ns. scope_view self.new.scope
            ≡ bind_names self.old.next (map name_view names.now) (drop self.old.next (kinds_of context.now)) (scope_view self.old.scope)) }
        ensures outer { IfOk result (λ ns. (length self.new.scope ≡ length names.now + length self.old.scope)
            × (drop (length names.now) self.new.scope ≡ self.old.scope)) }
    {
        let mut numbers = Sequence::new(alloc);
        for name in names.as_slice() {
            let own = self.next;
            self.scope
                .push(&name.text, own, context.kinds[own as usize])?;
            numbers.push(own)?;
            self.next += 1;
        }
        Ok(numbers)
    }
}
