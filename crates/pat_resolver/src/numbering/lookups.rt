// The numbers of names. A name that stands for nothing has the number 0.
ghost use Rattle.std.specs.Prelude.{◌≡◌};
ghost use Rattle.pat_resolver_heads.specs.Views.{heads_view};
ghost use Rattle.pat_resolver_spec.specs.Findings.{guarded, interface_called};
ghost use Rattle.pat_core.specs.Views.{kind_view};
ghost use Rattle.pat_resolver_spec.specs.Heads.{function_named, interface_of_kind, tag_named};
ghost use Rattle.pat_resolver_spec.specs.Numbering.{number_of};
ghost use Rattle.pat_resolver_spec.specs.Scopes.{number_found};
ghost use Rattle.pat_resolver_heads.specs.tables.Views.{scope_view};

use pat_core::Kind;
use pat_resolver_heads::{Heads, ScopeTable};
use pat_sequences::Text;

/// The number of a variable in scope.
pub fn variable_number(scope: &ScopeTable, name: &Text) -> u32
    ensures { result ≡ number_of (scope_view scope.now) name.now }
{
    match scope.find(name) {
        None => 0,
        Some(variable) => variable.number,
    }
}

/// The interface of the mailbox that a variable is.
pub fn guarded_interface(scope: &ScopeTable, name: &Text) -> u32
    ensures { result ≡ guarded (scope_view scope.now) name.now }
{
    match scope.find(name) {
        None => 0,
        Some(variable) => kind_interface(variable.kind),
    }
}

/// The interface of a mailbox's kind.
fn kind_interface(kind: Kind) -> u32
    ensures { result ≡ interface_of_kind (kind_view kind) }
{
    match kind {
        Kind::Mailbox(interface) => interface,
        _ => 0,
    }
}

/// The number of an interface.
pub fn interface_number(heads: &Heads, name: &Text) -> u32
    ensures { result ≡ number_found (interface_called (heads_view heads.now) name.now) }
{
    heads.interface_called(name).unwrap_or(0)
}

/// The number of a function.
pub fn function_number(heads: &Heads, name: &Text) -> u32
    ensures { result ≡ number_found (function_named (heads_view heads.now) name.now) }
{
    match heads.function_named(name) {
        None => 0,
        Some((function, _)) => function,
    }
}

/// The number of a tag of an interface.
pub fn tag_number(heads: &Heads, interface: u32, name: &Text) -> u8
    ensures { result ≡ number_found (tag_named (heads_view heads.now) interface name.now) }
{
    match heads.tag_named(interface, name) {
        None => 0,
        Some((tag, _)) => tag,
    }
}
