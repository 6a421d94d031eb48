// Patterns laid out, along their postfix form: nothing recurses.
ghost use Rattle.std.specs.Prelude.{◌≡◌, ◌∷◌, [], ◌++◌, ◌<◌, length, OnOk, IfOk};
ghost use Rattle.pat_words_spec.specs.Tags.{tags_below};
ghost use Rattle.pat_patterns.specs.Views.{pattern_view, patterns_view};
ghost use Rattle.pat_inclusion_spec.specs.bounds.Layouts.{laid, laid_all, roots_all, last_of};
ghost use Rattle.pat_grid_points.specs.symbols.Views.{symbol_view, symbols_view, var_symbol};
ghost use Rattle.pat_grid_points.specs.symbols.Laying.{HasParts, Lays};

use crate::symbols::symbol::{Role, Symbol};
use pat_patterns::{Head, Pattern, postfix};
use pat_sequences::{Sequence, Stack};
use std::alloc::{AllocError, Global};

/// Whether the tags of the pattern are below `tags`.
pub fn has_tags(p: &Pattern, tags: u8) -> bool
    ensures { result ≡ tags_below tags (pattern_view p.now) }
{
    match p {
        Pattern::Zero | Pattern::One | Pattern::Var(_) => true,
        Pattern::Tag(tag) => *tag < tags,
        Pattern::Sum(left, right) | Pattern::Prod(left, right) => {
            has_tags(left, tags) && has_tags(right, tags)
        }
        Pattern::Star(part) => has_tags(part, tags),
    }
}

/// Appends the symbols of the pattern, parts before the whole, and gives the number of the pattern's own, which is the
/// last one.
pub fn lay_out(
    alloc: Global,
    p: &Pattern,
    role: Role,
    symbols: &mut Sequence<Symbol>,
) -> Result<usize, AllocError>
    ensures symbols { OnOk result (symbols_view symbols.new ≡ laid (var_symbol role) (symbols_view symbols.old) (pattern_view p.now)) }
    ensures last { IfOk result (λ number. number ≡ last_of (laid (var_symbol role) (symbols_view symbols.old) (pattern_view p.now))) }
{
    let mut heads = postfix(alloc, p)?;
    let mut numbers = Stack::new(alloc);
    while let Some(head) = heads.pop() {
        lay_head(head, role, symbols, &mut numbers)?;
    }
    Ok(take(&mut numbers))
}

/// The symbols of all patterns of a system, whose variables have them as lower bounds, and the number of each one's own.
pub fn lay_out_all(
    alloc: Global,
    system: &[Pattern],
    symbols: &mut Sequence<Symbol>,
    roots: &mut Sequence<usize>,
) -> Result<(), AllocError>
    requires { (symbols.old ≡ []) × (roots.old ≡ []) }
    ensures symbols { OnOk result (symbols_view symbols.new ≡ laid_all [] (patterns_view system.now)) }
    ensures roots { OnOk result (roots.new ≡ roots_all [] (patterns_view system.now)) }
{
    for p in system {
        let root = lay_out(alloc, p, Role::Lower, symbols)?;
        roots.push(root)?;
    }
    Ok(())
}

/// Appends the symbol of a head. The numbers of its parts, which are on top, give way to its own.
fn lay_head(
    head: Head,
    role: Role,
    symbols: &mut Sequence<Symbol>,
    numbers: &mut Stack<usize>,
) -> Result<(), AllocError>
    requires { HasParts head numbers.old }
    ensures { OnOk result (Lays (var_symbol role) head (symbols_view symbols.old) numbers.old (symbols_view symbols.new) numbers.new) }
{
    match head {
        Head::Zero => put(Symbol::Zero, symbols, numbers),
        Head::One => put(Symbol::One, symbols, numbers),
        Head::Tag(tag) => put(Symbol::Tag(tag), symbols, numbers),
        Head::Var(number) => put(variable(role, number), symbols, numbers),
        Head::Sum => {
            let right = take(numbers);
            let left = take(numbers);
            put(Symbol::Sum(left, right), symbols, numbers)
        }
        Head::Prod => {
            let right = take(numbers);
            let left = take(numbers);
            put(Symbol::Prod(left, right), symbols, numbers)
        }
        Head::Star => {
            let part = take(numbers);
            put(Symbol::Star(part), symbols, numbers)
        }
    }
}

/// The symbol of a variable.
fn variable(role: Role, number: u32) -> Symbol
    ensures { symbol_view result ≡ var_symbol role number }
{
    match role {
        Role::Lower => Symbol::Lower(number),
        Role::Given => Symbol::Given(number),
    }
}

/// Appends a symbol, and puts its number on top.
fn put(
    symbol: Symbol,
    symbols: &mut Sequence<Symbol>,
    numbers: &mut Stack<usize>,
) -> Result<(), AllocError>
    ensures symbols { OnOk result (symbols.new ≡ symbols.old ++ symbol ∷ []) }
    ensures numbers { OnOk result (numbers.new ≡ length symbols.old ∷ numbers.old) }
{
    let number = symbols.len();
    symbols.push(symbol)?;
    numbers.push(number)
}

/// Takes the number on top.
fn take(numbers: &mut Stack<usize>) -> usize
    requires { 0 < length numbers.old }
    ensures { numbers.old ≡ result ∷ numbers.new }
{
    match numbers.pop() {
        Some(number) => number,
        None => unreachable!(),
    }
}
