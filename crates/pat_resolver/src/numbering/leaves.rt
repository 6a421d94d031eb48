// Terms without parts.
ghost use Rattle.std.specs.Prelude.{◌≡◌, ◌+◌, ◌<◌, length, map, OnOk};
ghost use Rattle.pat_core.specs.Views.{kind_view};
ghost use Rattle.pat_parser_spec.specs.Trees.{PrintTerm, NewTerm, FreeTerm, SendTerm, CallTerm, ValueTerm};
ghost use Rattle.pat_resolver.specs.numbering.Progress.{AddsTerm};
ghost use Rattle.pat_tree.specs.Views.{expr_view, name_view, span_view};
ghost use Rattle.pat_limits.specs.Limits.{number_count};

use crate::numbering::expressions::{number_args, number_expr};
use crate::numbering::lookups::{
    function_number, guarded_interface, interface_number, tag_number, variable_number,
};
use crate::numbering::state::{Context, Numbering, Spot};
use pat_core::{Core, Expr};
use pat_patterns::Pattern;
use pat_sequences::Sequence;
use pat_tree::{Name, TreeExpr};
use std::alloc::{AllocError, Global};

impl<'a> Numbering<'a> {
    pub(crate) fn number_value(
        &mut self,
        alloc: Global,
        context: &Context,
        spot: Spot,
        value: &TreeExpr,
    ) -> Result<(), AllocError>
        ensures { OnOk result (AddsTerm context.now (kind_view spot.kind)
            (ValueTerm (expr_view value.now) (span_view spot.span)) self.old self.new) }
    {
        let value = number_expr(alloc, &self.scope, value)?;
        self.append(context, spot, Core::Value(value))
    }

    pub(crate) fn number_print(
        &mut self,
        alloc: Global,
        context: &Context,
        spot: Spot,
        value: &TreeExpr,
    ) -> Result<(), AllocError>
        ensures { OnOk result (AddsTerm context.now (kind_view spot.kind)
            (PrintTerm (expr_view value.now) (span_view spot.span)) self.old self.new) }
    {
        let value = number_expr(alloc, &self.scope, value)?;
        self.append(context, spot, Core::Print(value))
    }

    pub(crate) fn number_new(
        &mut self,
        context: &Context,
        spot: Spot,
        interface: &Name,
    ) -> Result<(), AllocError>
        ensures { OnOk result (AddsTerm context.now (kind_view spot.kind)
            (NewTerm (name_view interface.now) (span_view spot.span)) self.old self.new) }
    {
        let interface = interface_number(context.heads, &interface.text);
        self.append(context, spot, Core::New(interface))
    }

    pub(crate) fn number_call(
        &mut self,
        alloc: Global,
        context: &Context,
        spot: Spot,
        name: &Name,
        args: &Sequence<TreeExpr>,
    ) -> Result<(), AllocError>
        ensures { OnOk result (AddsTerm context.now (kind_view spot.kind)
            (CallTerm (name_view name.now) (map expr_view args.now) (span_view spot.span)) self.old self.new) }
    {
        let function = function_number(context.heads, &name.text);
        let args = number_args(alloc, &self.scope, args)?;
        self.append(context, spot, Core::Call { function, args })
    }

    pub(crate) fn number_send(
        &mut self,
        alloc: Global,
        context: &Context,
        spot: Spot,
        target: &Name,
        tag: &Name,
        args: &Sequence<TreeExpr>,
    ) -> Result<(), AllocError>
        ensures { OnOk result (AddsTerm context.now (kind_view spot.kind)
            (SendTerm (name_view target.now) (name_view tag.now) (map expr_view args.now) (span_view spot.span)) self.old self.new) }
    {
        let interface = guarded_interface(&self.scope, &target.text);
        let tag = tag_number(context.heads, interface, &tag.text);
        let target = variable_number(&self.scope, &target.text);
        let args = number_args(alloc, &self.scope, args)?;
        self.append(context, spot, Core::Send { target, tag, args })
    }

    /// A guard for the empty mailbox alone, and the value of its clause.
    pub(crate) fn number_free(
        &mut self,
        alloc: Global,
        context: &Context,
        spot: Spot,
        mailbox: &Name,
    ) -> Result<(), AllocError>
        requires { length self.old.nodes + 2 < number_count }
        ensures { OnOk result (AddsTerm context.now (kind_view spot.kind)
            (FreeTerm (name_view mailbox.now) (span_view spot.span)) self.old self.new) }
    {
        let var = variable_number(&self.scope, &mailbox.text);
        let body = self.nodes.len() as u32 + 1;
        self.append(
            context,
            spot,
            Core::Guard {
                var,
                pattern: Pattern::One,
                free: Some(body),
                receives: Sequence::new(alloc),
            },
        )?;
        self.append(context, spot, Core::Value(Expr::Unit))
    }
}
