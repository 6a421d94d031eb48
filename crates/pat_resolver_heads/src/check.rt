// The rules of heads, declaration by declaration.
ghost use Rattle.std.specs.Prelude.{◌≡◌, ◌∷◌, ◌++◌, [], map, option_map, OnOk, true, false};
ghost use Rattle.std.specs.List.{flat_map};
ghost use Rattle.pat_words_spec.specs.Patterns.{is_inhabited};
ghost use Rattle.pat_resolver_spec.specs.Heads.{pattern_of};
ghost use Rattle.pat_resolver_spec.specs.Findings.{repeated, empty_sending, written_pattern_findings, type_findings, messages_findings, params_findings, heads_findings};
ghost use Rattle.pat_primitives.specs.Views.{polarity_view};
ghost use Rattle.pat_tree.specs.Views.{span_view, name_view, pattern_view, type_view, message_view, param_view, decl_view};
ghost use Rattle.pat_resolver_heads.specs.results.Results.{Meets};
ghost use Rattle.pat_resolver_heads.specs.Names.{names_view};
ghost use Rattle.pat_resolver_heads.specs.Examined.{message_findings, param_findings, decl_findings, interfaces_with, functions_with};

use crate::names::Names;
use crate::patterns::check_pattern;
use crate::results::{ResolveError, ResolveKind};
use crate::tables::{EarlierNames, NameTable};
use pat_primitives::Polarity;
use pat_syntax::Span;
use pat_tree::{Decl, Name, Param, TreeMessage, TreePattern, TreeType};
use std::alloc::Global;

/// Examines the heads of all declarations in order.
pub fn check_heads(alloc: Global, names: &Names, decls: &[Decl]) -> Result<(), ResolveError>
    ensures { Meets result (heads_findings (names_view names.now) [] [] (map decl_view decls.now)) }
{
    let mut interfaces = EarlierNames::new(alloc);
    let mut functions = EarlierNames::new(alloc);
    for decl in decls {
        check_decl(alloc, names, &mut interfaces, &mut functions, decl)?;
    }
    Ok(())
}

/// Examines the head of a declaration, behind interfaces and functions of the earlier names.
fn check_decl<'a>(
    alloc: Global,
    names: &Names,
    interfaces: &mut EarlierNames<'a>,
    functions: &mut EarlierNames<'a>,
    decl: &'a Decl,
) -> Result<(), ResolveError>
    ensures found { Meets result (decl_findings (names_view names.now) interfaces.old functions.old (decl_view decl.now)) }
    ensures interfaces { OnOk result (interfaces.new ≡ interfaces_with (decl_view decl.now) interfaces.old) }
    ensures functions { OnOk result (functions.new ≡ functions_with (decl_view decl.now) functions.old) }
{
    match decl {
        Decl::Interface { name, messages } => {
            check_new(interfaces, name)?;
            check_messages(alloc, names, messages.as_slice())
        }
        Decl::Def {
            name,
            params,
            result,
            ..
        } => {
            check_new(functions, name)?;
            check_params(alloc, names, params.as_slice())?;
            check_type(names, result)
        }
    }
}

/// Refuses a name that is one of the earlier ones, and otherwise puts it behind them.
fn check_new<'a>(earlier: &mut EarlierNames<'a>, name: &'a Name) -> Result<(), ResolveError>
    ensures found { Meets result (repeated earlier.old (name_view name.now)) }
    ensures grown { OnOk result (earlier.new ≡ name.now.text ∷ earlier.old) }
{
    if earlier.add(&name.text)? {
        Ok(())
    } else {
        Err(ResolveError::Broken {
            kind: ResolveKind::Twice,
            span: name.span,
        })
    }
}

/// Examines the messages of an interface in order.
fn check_messages(
    alloc: Global,
    names: &Names,
    messages: &[TreeMessage],
) -> Result<(), ResolveError>
    ensures { Meets result (messages_findings (names_view names.now) [] (map message_view messages.now)) }
{
    let mut earlier = EarlierNames::new(alloc);
    for message in messages {
        check_message(names, &mut earlier, message)?;
    }
    Ok(())
}

/// Examines a message, behind those of the earlier names.
fn check_message<'a>(
    names: &Names,
    earlier: &mut EarlierNames<'a>,
    message: &'a TreeMessage,
) -> Result<(), ResolveError>
    ensures found { Meets result (message_findings (names_view names.now) earlier.old (message_view message.now)) }
    ensures grown { OnOk result (earlier.new ≡ message.now.name.text ∷ earlier.old) }
{
    let count = earlier.len();
    check_new(earlier, &message.name)?;
    if count == 32 {
        return Err(ResolveError::Broken {
            kind: ResolveKind::TooManyTags,
            span: message.name.span,
        });
    }
    check_payloads(names, message.payloads.as_slice())
}

/// Examines the types of a message's payloads in order.
fn check_payloads(names: &Names, types: &[TreeType]) -> Result<(), ResolveError>
    ensures { Meets result (flat_map (type_findings (names_view names.now)) (map type_view types.now)) }
{
    for of in types {
        check_type(names, of)?;
    }
    Ok(())
}

/// Examines the parameters of a function in order.
fn check_params(alloc: Global, names: &Names, params: &[Param]) -> Result<(), ResolveError>
    ensures { Meets result (params_findings (names_view names.now) [] (map param_view params.now)) }
{
    let mut earlier = EarlierNames::new(alloc);
    for param in params {
        check_param(names, &mut earlier, param)?;
    }
    Ok(())
}

/// Examines a parameter, behind those of the earlier names.
fn check_param<'a>(
    names: &Names,
    earlier: &mut EarlierNames<'a>,
    param: &'a Param,
) -> Result<(), ResolveError>
    ensures found { Meets result (param_findings (names_view names.now) earlier.old (param_view param.now)) }
    ensures grown { OnOk result (earlier.new ≡ param.now.name.text ∷ earlier.old) }
{
    check_new(earlier, &param.name)?;
    check_type(names, &param.of)
}

/// Examines a written type, of a payload or in a function's head.
fn check_type(names: &Names, of: &TreeType) -> Result<(), ResolveError>
    ensures { Meets result (type_findings (names_view names.now) (type_view of.now)) }
{
    match of {
        TreeType::Base(_, _) => Ok(()),
        TreeType::Mailbox {
            name,
            polarity,
            pattern,
            span,
        } => match names.find(&name.text) {
            None => Err(ResolveError::Broken {
                kind: ResolveKind::UnknownName,
                span: name.span,
            }),
            Some((_, table)) => check_written(&table.tags, *polarity, pattern, *span),
        },
    }
}

/// Examines the pattern of a mailbox type, if it is written: its tags, and that a sending type has a word.
fn check_written(
    tags: &NameTable,
    polarity: Polarity,
    pattern: &Option<TreePattern>,
    span: Span,
) -> Result<(), ResolveError>
    ensures { Meets result (written_pattern_findings tags.now (polarity_view polarity) (option_map pattern_view pattern.now)
        (span_view span)) }
{
    match pattern {
        None => Ok(()),
        Some(pattern) => {
            check_pattern(tags, pattern)?;
            check_sending(tags, polarity, pattern, span)
        }
    }
}

/// Refuses a sending type whose pattern has no word.
fn check_sending(
    tags: &NameTable,
    polarity: Polarity,
    pattern: &TreePattern,
    span: Span,
) -> Result<(), ResolveError>
    ensures { Meets result (empty_sending (polarity_view polarity) (pattern_of tags.now (pattern_view pattern.now)) (span_view span)) }
{
    match polarity {
        Polarity::Receiving => Ok(()),
        Polarity::Sending => {
            if has_word(tags, pattern) {
                Ok(())
            } else {
                Err(ResolveError::Broken {
                    kind: ResolveKind::EmptySending,
                    span,
                })
            }
        }
    }
}

/// Whether a pattern has a word, whatever the numbers of its tags.
fn has_word(tags: &NameTable, pattern: &TreePattern) -> bool
    ensures { result ≡ is_inhabited (pattern_of tags.now (pattern_view pattern.now)) }
{
    match pattern {
        TreePattern::Zero(_) => false,
        TreePattern::One(_) | TreePattern::Tag(_) | TreePattern::Star(_) => true,
        TreePattern::Sum(left, right) => has_word(tags, left) || has_word(tags, right),
        TreePattern::Prod(left, right) => has_word(tags, left) && has_word(tags, right),
    }
}
