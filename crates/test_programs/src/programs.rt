// Programs built node by node, each the same as an example that is known to be typable.
ghost use Rattle.std.specs.Prelude.{◌≡◌, [], ◌∷◌, Some, None, IfOk, codes, map, option_map};
ghost use Rattle.pat_semantics_spec.specs.Programs.{Let, Call, Send, Guard, MailboxSort as MailboxSortOf};
ghost use Rattle.pat_core.specs.Views.{clause_view, core_view, expr_view, function_view, interface_view, kind_view, node_view, program_view, sort_view, tag_view};
ghost use Rattle.pat_semantics_spec.specs.Values.{MailboxOf, VarExpr};
ghost use Rattle.pat_primitives.specs.Views.{polarity_view};
ghost use Rattle.pat_words_spec.specs.Patterns.{One, Tag, Prod, Star};
ghost use Rattle.pat_patterns.specs.Views.{pattern_view};
ghost use Rattle.pat_examples.specs.safety.Build.{clause, function, tag, receiving, sending_as, unit_node, mailbox_node};
ghost use Rattle.pat_examples.specs.safety.Safe.{one_message, turned, crossed, pump};

use pat_core::{
    Clause, Core, Expr, Function, Interface, Kind, MailboxSort, Node, Program, Sort, TagDecl,
};
use pat_examples::safe_programs;
use pat_examples::safety::typable_programs;
use pat_patterns::Pattern;
use pat_primitives::{Base, Polarity};
use pat_sequences::{Sequence, Text};
use pat_syntax::Span;
use pat_typed_program::Accepted;
use std::alloc::{AllocError, Global};
use std::sync::Arc;

const NOWHERE: Span = Span { from: 0, to: 0 };

/// One of the programs.
#[derive(Clone, Copy)]
pub enum Example {
    OneMessage,
    Turned,
    Crossed,
    Pump,
}

/// The program.
pub fn accepted(alloc: Global, example: Example) -> Result<Accepted, AllocError> {
    match example {
        Example::OneMessage => one_message(alloc),
        Example::Turned => turned(alloc),
        Example::Crossed => crossed(alloc),
        Example::Pump => pump(alloc),
    }
}

/// A mailbox is made, sent a message, and received from.
pub fn one_message(alloc: Global) -> Result<Accepted, AllocError> {
    typable_programs();
    Ok(Accepted::of(one_message_program(alloc)?))
}

// Each program is put together in a function of its own, whose contract says which one it is.
fn one_message_program(alloc: Global) -> Result<Program, AllocError>
    ensures { IfOk result (λ p. program_view p ≡ one_message) }
{
    let interfaces = one_tag(alloc)?;
    let vars = vec![in alloc; Kind::Mailbox(0), Kind::Mailbox(0)]?;
    let functions = one_function(alloc, vars)?;
    let nodes = one_message_nodes(alloc)?;
    Ok(Program {
        interfaces,
        functions,
        main: 0,
        nodes,
    })
}

fn one_message_nodes(alloc: Global) -> Result<Sequence<Node>, AllocError>
    ensures { IfOk result (λ nodes. map node_view nodes ≡ one_message.nodes) }
{
    let first = receive(
        alloc,
        Pattern::Tag(0),
        Guarded {
            var: 0,
            tag: 0,
            from: 1,
            body: 5,
        },
    )?;
    let nodes = vec![in alloc;
        unit_node(0, binding(Some(0), 1, 2)),
        mailbox_node(0, Core::New(0)),
        unit_node(0, binding(None, 3, 4)),
        unit_node(0, send(alloc, 0, 0)),
        unit_node(0, first),
        unit_node(0, free(alloc, 1, 6)),
        unit_node(0, Core::Value(Expr::Unit)),
    ]?;
    Ok(Sequence::from_vec(nodes))
}

/// Two messages are sent in one order and received in the other.
pub fn turned(alloc: Global) -> Result<Accepted, AllocError> {
    typable_programs();
    Ok(Accepted::of(turned_program(alloc)?))
}

fn turned_program(alloc: Global) -> Result<Program, AllocError>
    ensures { IfOk result (λ p. program_view p ≡ turned) }
{
    let interfaces = two_tags(alloc)?;
    let vars = vec![in alloc; Kind::Mailbox(0), Kind::Mailbox(0), Kind::Mailbox(0)]?;
    let functions = one_function(alloc, vars)?;
    let nodes = turned_nodes(alloc)?;
    Ok(Program {
        interfaces,
        functions,
        main: 0,
        nodes,
    })
}

fn turned_nodes(alloc: Global) -> Result<Sequence<Node>, AllocError>
    ensures { IfOk result (λ nodes. map node_view nodes ≡ turned.nodes) }
{
    let first = receive(
        alloc,
        both(alloc)?,
        Guarded {
            var: 0,
            tag: 0,
            from: 1,
            body: 7,
        },
    )?;
    let second = receive(
        alloc,
        Pattern::Tag(1),
        Guarded {
            var: 1,
            tag: 1,
            from: 2,
            body: 8,
        },
    )?;
    let nodes = vec![in alloc;
        unit_node(0, binding(Some(0), 1, 2)),
        mailbox_node(0, Core::New(0)),
        unit_node(0, binding(None, 3, 4)),
        unit_node(0, send(alloc, 0, 1)),
        unit_node(0, binding(None, 5, 6)),
        unit_node(0, send(alloc, 0, 0)),
        unit_node(0, first),
        unit_node(0, second),
        unit_node(0, free(alloc, 2, 9)),
        unit_node(0, Core::Value(Expr::Unit)),
    ]?;
    Ok(Sequence::from_vec(nodes))
}

fn both(alloc: Global) -> Result<Pattern, AllocError>
    ensures { IfOk result (λ p. pattern_view p ≡ Prod (Tag 0) (Tag 1)) }
{
    let m = Arc::new(alloc, Pattern::Tag(0))?;
    let n = Arc::new(alloc, Pattern::Tag(1))?;
    Ok(Pattern::Prod(m, n))
}

/// Two threads wait for one another.
pub fn crossed(alloc: Global) -> Result<Accepted, AllocError> {
    typable_programs();
    Ok(Accepted::of(crossed_program(alloc)?))
}

fn crossed_program(alloc: Global) -> Result<Program, AllocError>
    ensures { IfOk result (λ p. program_view p ≡ crossed) }
{
    let interfaces = one_tag(alloc)?;
    let functions = two_functions(alloc)?;
    let nodes = crossed_nodes(alloc)?;
    Ok(Program {
        interfaces,
        functions,
        main: 1,
        nodes,
    })
}

fn crossed_nodes(alloc: Global) -> Result<Sequence<Node>, AllocError>
    ensures { IfOk result (λ nodes. map node_view nodes ≡ crossed.nodes) }
{
    let guard = receive(
        alloc,
        Pattern::Tag(0),
        Guarded {
            var: 0,
            tag: 0,
            from: 2,
            body: 1,
        },
    )?;
    let one = call(alloc, 0, 1)?;
    let other = call(alloc, 1, 0)?;
    let nodes = vec![in alloc;
        unit_node(0, guard),
        unit_node(0, binding(None, 2, 4)),
        unit_node(0, free(alloc, 2, 3)),
        unit_node(0, Core::Value(Expr::Unit)),
        unit_node(0, send(alloc, 1, 0)),
        unit_node(1, binding(Some(0), 6, 7)),
        mailbox_node(1, Core::New(0)),
        unit_node(1, binding(Some(1), 8, 9)),
        mailbox_node(1, Core::New(0)),
        unit_node(1, binding(None, 10, 12)),
        unit_node(1, Core::Spawn(11)),
        unit_node(1, one),
        unit_node(1, Core::Spawn(13)),
        unit_node(1, other),
    ]?;
    Ok(Sequence::from_vec(nodes))
}

fn two_functions(alloc: Global) -> Result<Sequence<Function>, AllocError>
    ensures { IfOk result (λ fs. map function_view fs ≡ crossed.functions) }
{
    let first = wait(alloc)?;
    let second = crossing(alloc)?;
    Ok(Sequence::from_vec(vec![in alloc; first, second]?))
}

fn wait(alloc: Global) -> Result<Function, AllocError>
    ensures { IfOk result (λ f. function_view f ≡ function (codes "wait") (receiving 0 ∷ sending_as 0 (Tag 0) ∷ []) (MailboxOf 0 ∷ MailboxOf 0 ∷ MailboxOf 0 ∷ []) 0) }
{
    let params = vec![in alloc;
        mailbox(Polarity::Receiving, None),
        mailbox(Polarity::Sending, Some(Pattern::Tag(0))),
    ]?;
    let vars = vec![in alloc; Kind::Mailbox(0), Kind::Mailbox(0), Kind::Mailbox(0)]?;
    Ok(function(alloc, Text::from_slice(alloc, b"wait")?, params, vars, 0))
}

fn crossing(alloc: Global) -> Result<Function, AllocError>
    ensures { IfOk result (λ f. function_view f ≡ function (codes "main") [] (MailboxOf 0 ∷ MailboxOf 0 ∷ []) 5) }
{
    let vars = vec![in alloc; Kind::Mailbox(0), Kind::Mailbox(0)]?;
    Ok(function(
        alloc,
        Text::from_slice(alloc, b"main")?,
        Vec::new(alloc),
        vars,
        5,
    ))
}

fn mailbox(polarity: Polarity, pattern: Option<Pattern>) -> Sort
    ensures { sort_view result ≡ MailboxSortOf 0 (polarity_view polarity) (option_map pattern_view pattern) }
{
    Sort::Mailbox(MailboxSort {
        interface: 0,
        polarity,
        pattern,
        span: NOWHERE,
    })
}

// A call of function 0 with two variables.
fn call(alloc: Global, first: u32, second: u32) -> Result<Core, AllocError>
    ensures { IfOk result (λ core. core_view core ≡ Call 0 (VarExpr first ∷ VarExpr second ∷ [])) }
{
    let args = Sequence::from_vec(vec![in alloc; Expr::Var(first), Expr::Var(second)]?);
    Ok(Core::Call { function: 0, args })
}

/// One thread sends without end what another one receives.
pub fn pump(alloc: Global) -> Result<Accepted, AllocError> {
    safe_programs();
    Ok(Accepted::of(pump_program(alloc)?))
}

fn pump_program(alloc: Global) -> Result<Program, AllocError>
    ensures { IfOk result (λ p. program_view p ≡ pump) }
{
    let interfaces = one_tag(alloc)?;
    let functions = three_functions(alloc)?;
    let nodes = pump_nodes(alloc)?;
    Ok(Program {
        interfaces,
        functions,
        main: 2,
        nodes,
    })
}

fn pump_nodes(alloc: Global) -> Result<Sequence<Node>, AllocError>
    ensures { IfOk result (λ nodes. map node_view nodes ≡ pump.nodes) }
{
    let drain = receive_or_free(alloc)?;
    let sender = call_with(alloc, 0, 0)?;
    let receiver = call_with(alloc, 1, 1)?;
    let spawned = call_with(alloc, 1, 0)?;
    let begun = call_with(alloc, 0, 0)?;
    let nodes = vec![in alloc;
        unit_node(0, binding(None, 1, 2)),
        unit_node(0, send(alloc, 0, 0)),
        unit_node(0, sender),
        unit_node(1, drain),
        unit_node(1, Core::Value(Expr::Unit)),
        unit_node(1, receiver),
        unit_node(2, binding(Some(0), 7, 8)),
        mailbox_node(2, Core::New(0)),
        unit_node(2, binding(None, 9, 11)),
        unit_node(2, Core::Spawn(10)),
        unit_node(2, spawned),
        unit_node(2, begun),
    ]?;
    Ok(Sequence::from_vec(nodes))
}

fn three_functions(alloc: Global) -> Result<Sequence<Function>, AllocError>
    ensures { IfOk result (λ fs. map function_view fs ≡ pump.functions) }
{
    let pump = pumping(alloc)?;
    let drain = draining(alloc)?;
    let vars = vec![in alloc; Kind::Mailbox(0)]?;
    let name = Text::from_slice(alloc, b"main")?;
    let main = function(alloc, name, Vec::new(alloc), vars, 6);
    Ok(Sequence::from_vec(vec![in alloc; pump, drain, main]?))
}

fn pumping(alloc: Global) -> Result<Function, AllocError>
    ensures { IfOk result (λ f. function_view f ≡ function (codes "pump") (sending_as 0 (Star (Tag 0)) ∷ []) (MailboxOf 0 ∷ []) 0) }
{
    let star = Pattern::Star(Arc::new(alloc, Pattern::Tag(0))?);
    let params = vec![in alloc; mailbox(Polarity::Sending, Some(star))]?;
    let vars = vec![in alloc; Kind::Mailbox(0)]?;
    Ok(function(alloc, Text::from_slice(alloc, b"pump")?, params, vars, 0))
}

fn draining(alloc: Global) -> Result<Function, AllocError>
    ensures { IfOk result (λ f. function_view f ≡ function (codes "drain") (receiving 0 ∷ []) (MailboxOf 0 ∷ MailboxOf 0 ∷ []) 3) }
{
    let params = vec![in alloc; mailbox(Polarity::Receiving, None)]?;
    let vars = vec![in alloc; Kind::Mailbox(0), Kind::Mailbox(0)]?;
    Ok(function(alloc, Text::from_slice(alloc, b"drain")?, params, vars, 3))
}

// A call of a function with one variable.
fn call_with(alloc: Global, function: u32, first: u32) -> Result<Core, AllocError>
    ensures { IfOk result (λ core. core_view core ≡ Call function (VarExpr first ∷ [])) }
{
    let args = Sequence::from_vec(vec![in alloc; Expr::Var(first)]?);
    Ok(Core::Call { function, args })
}

// A guard of any number of messages, which frees or receives.
fn receive_or_free(alloc: Global) -> Result<Core, AllocError>
    ensures { IfOk result (λ core. core_view core ≡ Guard 0 (Star (Tag 0)) (Some 4) (clause 0 [] 1 5 ∷ [])) }
{
    let pattern = Pattern::Star(Arc::new(alloc, Pattern::Tag(0))?);
    let clause = Clause {
        tag: 0,
        vars: Sequence::new(alloc),
        from: 1,
        body: 5,
    };
    Ok(Core::Guard {
        var: 0,
        pattern,
        free: Some(4),
        receives: Sequence::from_vec(vec![in alloc; clause]?),
    })
}

// The interface I with one tag, and with two.
fn one_tag(alloc: Global) -> Result<Sequence<Interface>, AllocError>
    ensures { IfOk result (λ is. map interface_view is ≡ one_message.interfaces) }
{
    let m = tag(alloc, b"m")?;
    let tags = vec![in alloc; m]?;
    interface(alloc, tags)
}

fn two_tags(alloc: Global) -> Result<Sequence<Interface>, AllocError>
    ensures { IfOk result (λ is. map interface_view is ≡ turned.interfaces) }
{
    let m = tag(alloc, b"m")?;
    let n = tag(alloc, b"n")?;
    let tags = vec![in alloc; m, n]?;
    interface(alloc, tags)
}

fn tag(alloc: Global, name: &[u8]) -> Result<TagDecl, AllocError>
    ensures { IfOk result (λ t. tag_view t ≡ tag name.now []) }
{
    Ok(TagDecl {
        name: Text::from_slice(alloc, name)?,
        payloads: Sequence::new(alloc),
    })
}

fn interface(alloc: Global, tags: Vec<TagDecl>) -> Result<Sequence<Interface>, AllocError>
    ensures { IfOk result (λ is. map interface_view is ≡ record { name = codes "I"; tags = map tag_view tags.items } ∷ []) }
{
    let interface = Interface {
        name: Text::from_slice(alloc, b"I")?,
        tags: Sequence::from_vec(tags),
    };
    Ok(Sequence::from_vec(vec![in alloc; interface]?))
}

// The function main with these variables.
fn one_function(alloc: Global, vars: Vec<Kind>) -> Result<Sequence<Function>, AllocError>
    ensures { IfOk result (λ fs. map function_view fs ≡ function (codes "main") [] (map kind_view vars.items) 0 ∷ []) }
{
    let name = Text::from_slice(alloc, b"main")?;
    let main = function(alloc, name, Vec::new(alloc), vars, 0);
    Ok(Sequence::from_vec(vec![in alloc; main]?))
}

// A function with result unit.
fn function(alloc: Global, name: Text, params: Vec<Sort>, vars: Vec<Kind>, body: u32) -> Function
    ensures { function_view result ≡ function name (map sort_view params.items) (map kind_view vars.items) body }
{
    Function {
        name,
        params: Sequence::from_vec(params),
        result: Sort::Base(Base::Unit),
        vars: Sequence::from_vec(vars),
        spans: Sequence::new(alloc),
        body,
    }
}

fn unit_node(function: u32, core: Core) -> Node
    ensures { node_view result ≡ unit_node function (core_view core) }
{
    Node {
        core,
        kind: Kind::Unit,
        function,
        span: NOWHERE,
    }
}

fn mailbox_node(function: u32, core: Core) -> Node
    ensures { node_view result ≡ mailbox_node function 0 (core_view core) }
{
    Node {
        core,
        kind: Kind::Mailbox(0),
        function,
        span: NOWHERE,
    }
}

fn binding(var: Option<u32>, bound: u32, body: u32) -> Core
    ensures { core_view result ≡ Let var bound body }
{
    Core::Let { var, bound, body }
}

fn send(alloc: Global, target: u32, tag: u8) -> Core
    ensures { core_view result ≡ Send target tag [] }
{
    Core::Send {
        target,
        tag,
        args: Sequence::new(alloc),
    }
}

#[derive(Clone, Copy)]
struct Guarded {
    var: u32,
    tag: u8,
    from: u32,
    body: u32,
}

// A guard with one clause, of a tag without payloads.
fn receive(alloc: Global, pattern: Pattern, guarded: Guarded) -> Result<Core, AllocError>
    ensures { IfOk result (λ core. core_view core ≡ Guard guarded.var (pattern_view pattern) None (clause guarded.tag [] guarded.from guarded.body ∷ [])) }
{
    let clause = Clause {
        tag: guarded.tag,
        vars: Sequence::new(alloc),
        from: guarded.from,
        body: guarded.body,
    };
    Ok(Core::Guard {
        var: guarded.var,
        pattern,
        free: None,
        receives: Sequence::from_vec(vec![in alloc; clause]?),
    })
}

// A guard that frees.
fn free(alloc: Global, var: u32, body: u32) -> Core
    ensures { core_view result ≡ Guard var One (Some body) [] }
{
    Core::Guard {
        var,
        pattern: Pattern::One,
        free: Some(body),
        receives: Sequence::new(alloc),
    }
}
