// Copies of programs.
ghost use Rattle.std.specs.Prelude.{◌≡◌, map, option_map, IfOk};
ghost use Rattle.pat_core.specs.Views.{expr_view, sort_view, tag_view, interface_view, function_view, clause_view, core_view, node_view, program_view};
ghost use Rattle.pat_patterns.specs.Views.{pattern_view};
ghost use Rattle.pat_core.specs.Spans.{sort_spans, tag_spans, interface_spans, function_spans, node_span, program_spans};

use crate::{
    Clause, Core, Expr, Function, Interface, Kind, MailboxSort, Node, Program, Sort, TagDecl,
};
use pat_patterns::Pattern;
use pat_sequences::Sequence;
use pat_syntax::Span;
use std::alloc::{AllocError, Global};

impl Program {
    /// A second program, the same, with the same places in the text.
    pub fn copy(&self, alloc: Global) -> Result<Program, AllocError>
        ensures same { IfOk result (λ p. program_view p ≡ program_view self.now) }
        ensures spans { IfOk result (λ p. program_spans p ≡ program_spans self.now) }
    {
        Ok(Program {
            interfaces: copy_interfaces(alloc, &self.interfaces)?,
            functions: copy_functions(alloc, &self.functions)?,
            main: self.main,
            nodes: copy_nodes(alloc, &self.nodes)?,
        })
    }
}

impl Expr {
    /// A second expression, the same.
    pub fn copy(&self, alloc: Global) -> Result<Expr, AllocError>
        ensures { IfOk result (λ e. expr_view e ≡ expr_view self.now) }
    {
        Ok(match self {
            Expr::Var(variable) => Expr::Var(*variable),
            Expr::Unit => Expr::Unit,
            Expr::Bool(value) => Expr::Bool(*value),
            Expr::Int(value) => Expr::Int(*value),
            Expr::Str(text) => Expr::Str(text.copy(alloc)?),
            Expr::Op(op, left, right) => {
                let left = Box::new(alloc, left.copy(alloc)?)?;
                let right = Box::new(alloc, right.copy(alloc)?)?;
                Expr::Op(*op, left, right)
            }
        })
    }
}

fn copy_pattern(pattern: &Option<Pattern>) -> Result<Option<Pattern>, AllocError>
    ensures { IfOk result (λ p. option_map pattern_view p ≡ option_map pattern_view pattern.now) }
{
    Ok(match pattern {
        None => None,
        Some(pattern) => Some(pattern.copy()?),
    })
}

fn copy_sort(sort: &Sort) -> Result<Sort, AllocError>
    ensures same { IfOk result (λ s. sort_view s ≡ sort_view sort.now) }
    ensures spans { IfOk result (λ s. sort_spans s ≡ sort_spans sort.now) }
{
    Ok(match sort {
        Sort::Base(base) => Sort::Base(*base),
        Sort::Mailbox(mailbox) => Sort::Mailbox(MailboxSort {
            interface: mailbox.interface,
            polarity: mailbox.polarity,
            pattern: copy_pattern(&mailbox.pattern)?,
            span: mailbox.span,
        }),
    })
}

fn copy_sorts(alloc: Global, sorts: &Sequence<Sort>) -> Result<Sequence<Sort>, AllocError>
    ensures same { IfOk result (λ s. map sort_view s ≡ map sort_view sorts.now) }
    ensures spans { IfOk result (λ s. map sort_spans s ≡ map sort_spans sorts.now) }
{
    let mut copied = Sequence::new(alloc);
    for sort in sorts.as_slice() {
        copied.push(copy_sort(sort)?)?;
    }
    Ok(copied)
}

fn copy_tags(alloc: Global, tags: &Sequence<TagDecl>) -> Result<Sequence<TagDecl>, AllocError>
    ensures same { IfOk result (λ t. map tag_view t ≡ map tag_view tags.now) }
    ensures spans { IfOk result (λ t. map tag_spans t ≡ map tag_spans tags.now) }
{
    let mut copied = Sequence::new(alloc);
    for tag in tags.as_slice() {
        copied.push(TagDecl {
            name: tag.name.copy(alloc)?,
            payloads: copy_sorts(alloc, &tag.payloads)?,
        })?;
    }
    Ok(copied)
}

fn copy_interfaces(
    alloc: Global,
    interfaces: &Sequence<Interface>,
) -> Result<Sequence<Interface>, AllocError>
    ensures same { IfOk result (λ i. map interface_view i ≡ map interface_view interfaces.now) }
    ensures spans { IfOk result (λ i. map interface_spans i ≡ map interface_spans interfaces.now) }
{
    let mut copied = Sequence::new(alloc);
    for interface in interfaces.as_slice() {
        copied.push(Interface {
            name: interface.name.copy(alloc)?,
            tags: copy_tags(alloc, &interface.tags)?,
        })?;
    }
    Ok(copied)
}

fn copy_function(alloc: Global, function: &Function) -> Result<Function, AllocError>
    ensures same { IfOk result (λ f. function_view f ≡ function_view function.now) }
    ensures spans { IfOk result (λ f. function_spans f ≡ function_spans function.now) }
{
    Ok(Function {
        name: function.name.copy(alloc)?,
        params: copy_sorts(alloc, &function.params)?,
        result: copy_sort(&function.result)?,
        vars: copy_kinds(alloc, &function.vars)?,
        spans: copy_spans(alloc, &function.spans)?,
        body: function.body,
    })
}

fn copy_kinds(alloc: Global, items: &Sequence<Kind>) -> Result<Sequence<Kind>, AllocError>
    ensures { IfOk result (λ copied. copied ≡ items.now) }
{
    Ok(Sequence::from_vec(items.as_slice().to_vec(alloc)?))
}

fn copy_spans(alloc: Global, items: &Sequence<Span>) -> Result<Sequence<Span>, AllocError>
    ensures { IfOk result (λ copied. copied ≡ items.now) }
{
    Ok(Sequence::from_vec(items.as_slice().to_vec(alloc)?))
}

fn copy_numbers(alloc: Global, items: &Sequence<u32>) -> Result<Sequence<u32>, AllocError>
    ensures { IfOk result (λ copied. copied ≡ items.now) }
{
    Ok(Sequence::from_vec(items.as_slice().to_vec(alloc)?))
}

fn copy_functions(
    alloc: Global,
    functions: &Sequence<Function>,
) -> Result<Sequence<Function>, AllocError>
    ensures same { IfOk result (λ f. map function_view f ≡ map function_view functions.now) }
    ensures spans { IfOk result (λ f. map function_spans f ≡ map function_spans functions.now) }
{
    let mut copied = Sequence::new(alloc);
    for function in functions.as_slice() {
        copied.push(copy_function(alloc, function)?)?;
    }
    Ok(copied)
}

fn copy_expressions(alloc: Global, es: &Sequence<Expr>) -> Result<Sequence<Expr>, AllocError>
    ensures { IfOk result (λ copied. map expr_view copied ≡ map expr_view es.now) }
{
    let mut copied = Sequence::new(alloc);
    for e in es.as_slice() {
        copied.push(e.copy(alloc)?)?;
    }
    Ok(copied)
}

fn copy_clauses(alloc: Global, clauses: &Sequence<Clause>) -> Result<Sequence<Clause>, AllocError>
    ensures { IfOk result (λ copied. map clause_view copied ≡ map clause_view clauses.now) }
{
    let mut copied = Sequence::new(alloc);
    for clause in clauses.as_slice() {
        copied.push(copy_clause(alloc, clause)?)?;
    }
    Ok(copied)
}

fn copy_clause(alloc: Global, clause: &Clause) -> Result<Clause, AllocError>
    ensures { IfOk result (λ copied. clause_view copied ≡ clause_view clause.now) }
{
    Ok(Clause {
        tag: clause.tag,
        vars: copy_numbers(alloc, &clause.vars)?,
        from: clause.from,
        body: clause.body,
    })
}

fn copy_core(alloc: Global, core: &Core) -> Result<Core, AllocError>
    ensures { IfOk result (λ copied. core_view copied ≡ core_view core.now) }
{
    Ok(match core {
        Core::Value(e) => Core::Value(e.copy(alloc)?),
        Core::Let { var, bound, body } => Core::Let {
            var: *var,
            bound: *bound,
            body: *body,
        },
        Core::Call { function, args } => Core::Call {
            function: *function,
            args: copy_expressions(alloc, args)?,
        },
        Core::If { test, yes, no } => Core::If {
            test: test.copy(alloc)?,
            yes: *yes,
            no: *no,
        },
        Core::Print(e) => Core::Print(e.copy(alloc)?),
        Core::New(interface) => Core::New(*interface),
        Core::Send { target, tag, args } => Core::Send {
            target: *target,
            tag: *tag,
            args: copy_expressions(alloc, args)?,
        },
        Core::Spawn(body) => Core::Spawn(*body),
        Core::Guard {
            var,
            pattern,
            free,
            receives,
        } => {
            let receives = copy_clauses(alloc, receives)?;
            Core::Guard {
                var: *var,
                pattern: pattern.copy()?,
                free: *free,
                receives,
            }
        }
    })
}

fn copy_nodes(alloc: Global, nodes: &Sequence<Node>) -> Result<Sequence<Node>, AllocError>
    ensures same { IfOk result (λ copied. map node_view copied ≡ map node_view nodes.now) }
    ensures spans { IfOk result (λ copied. map node_span copied ≡ map node_span nodes.now) }
{
    let mut copied = Sequence::new(alloc);
    for node in nodes.as_slice() {
        copied.push(Node {
            core: copy_core(alloc, &node.core)?,
            kind: node.kind,
            function: node.function,
            span: node.span,
        })?;
    }
    Ok(copied)
}
