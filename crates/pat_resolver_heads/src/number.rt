// Heads by numbers: interfaces by their places, tags by their places in their interface.
ghost use Rattle.std.specs.Prelude.{◌≡◌, ◌≤◌, ◌+◌, ◌∷◌, ◌++◌, [], length, map, option_map, All, IfOk, OnOk};
ghost use Rattle.pat_resolver_spec.specs.Heads.{pattern_of, sort_of, tag_of, interfaces_of, signature_of, definitions_of};
ghost use Rattle.pat_resolver_spec.specs.Places.{type_place, payload_places};
ghost use Rattle.pat_core.specs.Views.{sort_view, tag_view, interface_view};
ghost use Rattle.pat_patterns.specs.Views.{pattern_view};
ghost use Rattle.pat_tree.specs.Views.{pattern_view as written_view, type_view, message_view, param_view, decl_view};
ghost use Rattle.pat_resolver_heads.specs.results.Views.{sort_place};
ghost use Rattle.pat_resolver_heads.specs.Names.{names_view};
ghost use Rattle.pat_resolver_heads.specs.HeadPlaces.{interface_places, param_places, result_place, written_params, written_result};
ghost use Rattle.pat_resolver_heads.specs.Signatures.{signature_view};

use crate::heads::Signature;
use crate::names::Names;
use crate::patterns::number_pattern;
use crate::tables::NameTable;
use pat_core::{Interface, MailboxSort, Sort, TagDecl};
use pat_patterns::Pattern;
use pat_sequences::Sequence;
use pat_tree::{Decl, Param, TreeMessage, TreePattern, TreeType};
use std::alloc::{AllocError, Global};

/// The interfaces that are declared, in order.
pub fn number_interfaces(
    alloc: Global,
    names: &Names,
    decls: &[Decl],
) -> Result<Sequence<Interface>, AllocError>
    requires { All (λ t. length t.tags ≤ 32) names.now.interfaces }
    ensures numbers { IfOk result (λ is. map interface_view is ≡ interfaces_of (names_view names.now) (map decl_view decls.now)) }
    ensures places { IfOk result (λ is. map interface_places is ≡ payload_places (map decl_view decls.now)) }
{
    let mut interfaces = Sequence::new(alloc);
    for decl in decls {
        number_interface(alloc, names, decl, &mut interfaces)?;
    }
    Ok(interfaces)
}

/// Puts the interface that a declaration declares, if it does, behind the others.
fn number_interface(
    alloc: Global,
    names: &Names,
    decl: &Decl,
    interfaces: &mut Sequence<Interface>,
) -> Result<(), AllocError>
    requires { All (λ t. length t.tags ≤ 32) names.now.interfaces }
    ensures numbers { OnOk result (map interface_view interfaces.new ≡ map interface_view interfaces.old
        ++ interfaces_of (names_view names.now) (decl_view decl.now ∷ [])) }
    ensures places { OnOk result (map interface_places interfaces.new ≡ map interface_places interfaces.old
        ++ payload_places (decl_view decl.now ∷ [])) }
{
    match decl {
        Decl::Interface { name, messages } => {
            let name = name.text.copy(alloc)?;
            let tags = number_tags(alloc, names, messages.as_slice())?;
            interfaces.push(Interface { name, tags })
        }
        Decl::Def { .. } => Ok(()),
    }
}

/// The tags of an interface, in order.
fn number_tags(
    alloc: Global,
    names: &Names,
    messages: &[TreeMessage],
) -> Result<Sequence<TagDecl>, AllocError>
    requires { All (λ t. length t.tags ≤ 32) names.now.interfaces }
    ensures numbers { IfOk result (λ ts. map tag_view ts ≡ map (tag_of (names_view names.now)) (map message_view messages.now)) }
    ensures places { IfOk result (λ ts. map (λ t. map sort_place t.payloads) ts
        ≡ map (λ m. map type_place m.payloads) (map message_view messages.now)) }
{
    let mut tags = Sequence::new(alloc);
    for message in messages {
        let name = message.name.text.copy(alloc)?;
        let payloads = number_types(alloc, names, message.payloads.as_slice())?;
        tags.push(TagDecl { name, payloads })?;
    }
    Ok(tags)
}

/// The functions that are declared, in order.
pub fn number_signatures<'a>(
    alloc: Global,
    names: &Names,
    decls: &'a [Decl],
) -> Result<Sequence<Signature<'a>>, AllocError>
    requires { All (λ t. length t.tags ≤ 32) names.now.interfaces }
    ensures numbers { IfOk result (λ ss. map signature_view ss
        ≡ map (signature_of (names_view names.now)) (definitions_of (map decl_view decls.now))) }
    ensures params { IfOk result (λ ss. map param_places ss ≡ map written_params (definitions_of (map decl_view decls.now))) }
    ensures results { IfOk result (λ ss. map result_place ss ≡ map written_result (definitions_of (map decl_view decls.now))) }
    ensures few { IfOk result (λ ss. length ss ≤ length decls.now) }
{
    let mut signatures = Sequence::new(alloc);
    for decl in decls {
        number_signature(alloc, names, decl, &mut signatures)?;
    }
    Ok(signatures)
}

/// Puts the function that a declaration declares, if it does, behind the others.
fn number_signature<'a>(
    alloc: Global,
    names: &Names,
    decl: &'a Decl,
    signatures: &mut Sequence<Signature<'a>>,
) -> Result<(), AllocError>
    requires { All (λ t. length t.tags ≤ 32) names.now.interfaces }
    ensures numbers { OnOk result (map signature_view signatures.new ≡ map signature_view signatures.old
        ++ map (signature_of (names_view names.now)) (definitions_of (decl_view decl.now ∷ []))) }
    ensures params { OnOk result (map param_places signatures.new ≡ map param_places signatures.old
        ++ map written_params (definitions_of (decl_view decl.now ∷ []))) }
    ensures results { OnOk result (map result_place signatures.new ≡ map result_place signatures.old
        ++ map written_result (definitions_of (decl_view decl.now ∷ []))) }
    ensures few { OnOk result (length signatures.new ≤ length signatures.old + 1) }
{
    match decl {
        Decl::Interface { .. } => Ok(()),
        Decl::Def {
            name,
            params,
            result,
            ..
        } => {
            let params = number_params(alloc, names, params.as_slice())?;
            let result = number_type(alloc, names, result)?;
            signatures.push(Signature {
                name: &name.text,
                params,
                result,
            })?;
            Ok(())
        }
    }
}

/// The types of parameters, in order.
pub fn number_params(
    alloc: Global,
    names: &Names,
    params: &[Param],
) -> Result<Sequence<Sort>, AllocError>
    requires { All (λ t. length t.tags ≤ 32) names.now.interfaces }
    ensures numbers { IfOk result (λ ss. map sort_view ss ≡ map (λ p. sort_of (names_view names.now) p.type) (map param_view params.now)) }
    ensures places { IfOk result (λ ss. map sort_place ss ≡ map (λ p. type_place p.type) (map param_view params.now)) }
{
    let mut sorts = Sequence::from_vec(Vec::with_capacity(alloc, params.len())?);
    for param in params {
        let sort = number_type(alloc, names, &param.of)?;
        sorts.push(sort)?;
    }
    Ok(sorts)
}

/// The types of payloads, in order.
fn number_types(
    alloc: Global,
    names: &Names,
    types: &[TreeType],
) -> Result<Sequence<Sort>, AllocError>
    requires { All (λ t. length t.tags ≤ 32) names.now.interfaces }
    ensures numbers { IfOk result (λ ss. map sort_view ss ≡ map (sort_of (names_view names.now)) (map type_view types.now)) }
    ensures places { IfOk result (λ ss. map sort_place ss ≡ map type_place (map type_view types.now)) }
{
    let mut sorts = Sequence::from_vec(Vec::with_capacity(alloc, types.len())?);
    for of in types {
        let sort = number_type(alloc, names, of)?;
        sorts.push(sort)?;
    }
    Ok(sorts)
}

/// A written type by numbers. Of an interface that isn't there it has the number 0 and no pattern.
pub fn number_type(alloc: Global, names: &Names, of: &TreeType) -> Result<Sort, AllocError>
    requires { All (λ t. length t.tags ≤ 32) names.now.interfaces }
    ensures number { IfOk result (λ s. sort_view s ≡ sort_of (names_view names.now) (type_view of.now)) }
    ensures place { IfOk result (λ s. sort_place s ≡ type_place (type_view of.now)) }
{
    match of {
        TreeType::Base(base, _) => Ok(Sort::Base(*base)),
        TreeType::Mailbox {
            name,
            polarity,
            pattern,
            span,
        } => match names.find(&name.text) {
            None => Ok(Sort::Mailbox(MailboxSort {
                interface: 0,
                polarity: *polarity,
                pattern: None,
                span: *span,
            })),
            Some((interface, table)) => {
                let pattern = number_written(alloc, &table.tags, pattern)?;
                Ok(Sort::Mailbox(MailboxSort {
                    interface,
                    polarity: *polarity,
                    pattern,
                    span: *span,
                }))
            }
        },
    }
}

/// The pattern of a mailbox type, if it is written.
fn number_written(
    alloc: Global,
    tags: &NameTable,
    pattern: &Option<TreePattern>,
) -> Result<Option<Pattern>, AllocError>
    requires { length tags.now ≤ 256 }
    ensures { IfOk result (λ o. option_map pattern_view o ≡ option_map (pattern_of tags.now) (option_map written_view pattern.now)) }
{
    match pattern {
        None => Ok(None),
        Some(pattern) => {
            let pattern = number_pattern(alloc, tags, pattern)?;
            Ok(Some(pattern))
        }
    }
}
