// Terms.
ghost use Rattle.std.specs.Prelude.{◌≡◌, ◌+◌, ◌<◌, length, map, option_map, OnOk};
ghost use Rattle.pat_core.specs.Views.{kind_view};
ghost use Rattle.pat_parser_spec.specs.Trees.{SpawnTerm};
ghost use Rattle.pat_core.specs.declared.program.Node.{Node};
ghost use Rattle.pat_resolver.specs.numbering.Progress.{AddsTerm, AddsLet, FillsIf, IsLast, LetFits, TermFits};
ghost use Rattle.pat_tree.specs.Views.{expr_view, name_view, span_view, term_view};
ghost use Rattle.pat_limits.specs.Limits.{number_count};

use crate::numbering::expressions::number_expr;
use crate::numbering::state::{Context, Numbering, Spot};
use pat_core::{Core, Kind};
use pat_tree::{Form, Name, Term, TreeExpr};
use std::alloc::{AllocError, Global};

impl<'a> Numbering<'a> {
    /// The nodes of a term, which may be a long chain of lets and sequences. At its end its names are out of scope.
    #[cycle(numbering)]
    pub(crate) fn number_term(
        &mut self,
        alloc: Global,
        context: &Context,
        kind: Kind,
        term: &'a Term,
    ) -> Result<(), AllocError>
        requires { TermFits context.now self.old (term_view term.now) }
        ensures { OnOk result (AddsTerm context.now (kind_view kind) (term_view term.now) self.old self.new) }
    {
        let outer = self.scope.len();
        let mut rest = term;
        while let Form::Let { name, bound, body } = &rest.form {
            let spot = Spot {
                kind,
                span: rest.span,
            };
            self.number_let(alloc, context, spot, name, bound)?;
            rest = body;
        }
        self.number_last(alloc, context, kind, rest)?;
        let inner = self.scope.len() - outer;
        self.scope.pop(inner);
        Ok(())
    }

    /// The node of a let, and those of its bound term. Then its name is in scope.
    #[cycle(numbering)]
    fn number_let(
        &mut self,
        alloc: Global,
        context: &Context,
        spot: Spot,
        name: &'a Option<Name>,
        bound: &'a Term,
    ) -> Result<(), AllocError>
        requires { LetFits context.now self.old (option_map name_view name.now) (term_view bound.now) }
        ensures { OnOk result (AddsLet context.now (kind_view spot.kind) (span_view spot.span) (option_map name_view name.now)
            (term_view bound.now) self.old self.new) }
    {
        match name {
            None => self.number_sequence(alloc, context, spot, bound),
            Some(name) => self.number_named(alloc, context, spot, name, bound),
        }
    }

    /// A sequence binds nothing.
    #[cycle(numbering)]
    fn number_sequence(
        &mut self,
        alloc: Global,
        context: &Context,
        spot: Spot,
        bound: &'a Term,
    ) -> Result<(), AllocError>
        requires { LetFits context.now self.old None (term_view bound.now) }
        ensures { OnOk result (AddsLet context.now (kind_view spot.kind) (span_view spot.span) None
            (term_view bound.now) self.old self.new) }
    {
        let place = self.nodes.len();
        self.reserve(context, spot)?;
        self.number_term(alloc, context, Kind::Unit, bound)?;
        let core = Core::Let {
            var: None,
            bound: place as u32 + 1,
            body: self.nodes.len() as u32,
        };
        self.fill(context, spot, place, core);
        Ok(())
    }

    /// The variable of a let has the next number, before those of its bound term.
    #[cycle(numbering)]
    fn number_named(
        &mut self,
        alloc: Global,
        context: &Context,
        spot: Spot,
        name: &'a Name,
        bound: &'a Term,
    ) -> Result<(), AllocError>
        requires { LetFits context.now self.old (Some (name_view name.now)) (term_view bound.now) }
        ensures { OnOk result (AddsLet context.now (kind_view spot.kind) (span_view spot.span) (Some (name_view name.now))
            (term_view bound.now) self.old self.new) }
    {
        let place = self.nodes.len();
        let own = self.next;
        let kind = context.kinds[own as usize];
        self.reserve(context, spot)?;
        self.next += 1;
        self.number_term(alloc, context, kind, bound)?;
        let core = Core::Let {
            var: Some(own),
            bound: place as u32 + 1,
            body: self.nodes.len() as u32,
        };
        self.fill(context, spot, place, core);
        self.scope.push(&name.text, own, kind)
    }

    /// A term that is no let.
    #[cycle(numbering)]
    fn number_last(
        &mut self,
        alloc: Global,
        context: &Context,
        kind: Kind,
        term: &'a Term,
    ) -> Result<(), AllocError>
        requires fits { TermFits context.now self.old (term_view term.now) }
        requires last { IsLast (term_view term.now) }
        ensures { OnOk result (AddsTerm context.now (kind_view kind) (term_view term.now) self.old self.new) }
    {
        let spot = Spot {
            kind,
            span: term.span,
        };
        match &term.form {
            Form::Let { .. } => unreachable!(),
            Form::If { test, yes, no } => {
                let place = self.nodes.len();
                self.reserve(context, spot)?;
                self.number_term(alloc, context, kind, yes)?;
                let other = self.nodes.len();
                self.number_term(alloc, context, kind, no)?;
                self.fill_if(alloc, context, spot, place, other, test)
            }
            Form::Print(value) => self.number_print(alloc, context, spot, value),
            Form::New(interface) => self.number_new(context, spot, interface),
            Form::Spawn(body) => self.number_spawn(alloc, context, spot, body),
            Form::Free(mailbox) => self.number_free(alloc, context, spot, mailbox),
            Form::Guard {
                name,
                pattern,
                clauses,
            } => self.number_guard(alloc, context, spot, name, clauses, pattern),
            Form::Send { target, tag, args } => {
                self.number_send(alloc, context, spot, target, tag, args)
            }
            Form::Call { name, args } => self.number_call(alloc, context, spot, name, args),
            Form::Value(value) => self.number_value(alloc, context, spot, value),
        }
    }

    #[cycle(numbering)]
    fn number_spawn(
        &mut self,
        alloc: Global,
        context: &Context,
        spot: Spot,
        body: &'a Term,
    ) -> Result<(), AllocError>
        requires { TermFits context.now self.old (SpawnTerm (term_view body.now) (span_view spot.span)) }
        ensures { OnOk result (AddsTerm context.now (kind_view spot.kind)
            (SpawnTerm (term_view body.now) (span_view spot.span)) self.old self.new) }
    {
        let first = self.nodes.len() as u32 + 1;
        self.append(context, spot, Core::Spawn(first))?;
        self.number_term(alloc, context, Kind::Unit, body)
    }

    /// Puts an if in the place that was kept for it. Its first branch has the next number, the other branch the given one.
    fn fill_if(
        &mut self,
        alloc: Global,
        context: &Context,
        spot: Spot,
        place: usize,
        other: usize,
        test: &TreeExpr,
    ) -> Result<(), AllocError>
        requires there { place < length self.old.nodes }
        requires room { place + 1 < number_count }
        requires other { other < number_count }
        ensures { OnOk result ((d : Node) × FillsIf context.now (kind_view spot.kind) (span_view spot.span)
            (expr_view test.now) place other d self.old self.new) }
    {
        let test = number_expr(alloc, &self.scope, test)?;
        let core = Core::If {
            test,
            yes: place as u32 + 1,
            no: other as u32,
        };
        self.fill(context, spot, place, core);
        Ok(())
    }
}
