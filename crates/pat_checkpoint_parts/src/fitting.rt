// Parts: their values, and what they give to the next one.
ghost use Rattle.std.specs.Prelude.{◌≡◌, drop, map, reverse, option_map, option_copied, slice_get, IsTrue, IfOk};
ghost use Rattle.std.specs.List.{list_all};
ghost use Rattle.std.specs.Map.{keys_of};
ghost use Rattle.pat_semantics_spec.specs.WellFormed.{WellFormed};
ghost use Rattle.pat_derivation_spec.specs.Scopes.{function_of};
ghost use Rattle.pat_type_system_spec.specs.Types.{kind_of_type, BaseTerm, MailboxTerm};
ghost use Rattle.pat_words_spec.specs.Patterns.{Pat};
ghost use Rattle.pat_primitives.specs.Views.{base_view, polarity_view};
ghost use Rattle.pat_core.specs.Views.{kind_view, program_view};
ghost use Rattle.pat_types.specs.Views.{result_view};
ghost use Rattle.pat_reduce_values.specs.ValueViews.{value_view, env_view};
ghost use Rattle.pat_reduce.specs.Views.{threads_view};
ghost use Rattle.pat_reduce.specs.threads.ThreadViews.{control_view, frame_view, thread_view};
ghost use Rattle.pat_semantics_spec.specs.Programs.{is_among, option_list};
ghost use Rattle.pat_checkpoint_spec.specs.Numbers.{ascends, control_ascends, thread_ascends};
ghost use Rattle.pat_checkpoint_spec.specs.Kinds.{value_fits as value_fits_by, value_fits_some, part_fits as part_fits_by, types_agree as types_agree_by, control_fits as control_fits_by, frames_fit as frames_fit_by, thread_fits as thread_fits_by, has_name_of};
ghost use Rattle.pat_checkpoint_parts.specs.Lists.{numbers_at, all_but, are_same, is_first};
ghost use Rattle.pat_checkpoint_parts.specs.Tables.{type_or_unit, binding_view};
ghost use Rattle.pat_checkpoint_parts.specs.Typed.{program_in, typing_in};
ghost use Rattle.pat_checkpoint_parts.specs.Shown.{interfaces_in, frame_fits as frame_fits_by};

use crate::free::free_variables;
use crate::lets::Binding;
use crate::parts::Parts;
use crate::typing::Typing;
use pat_checkpoint_numbers::interface_of;
use pat_core::{Kind, Program};
use pat_derivations::Derivation;
use pat_primitives::{Base, Polarity};
use pat_reduce::{Control, Frame, ThreadState, Value};
use pat_types::TypeOf;
use std::alloc::{AllocError, Global};

impl<'a> Parts<'a> {
    /// Finds the lets and the free variables.
    pub fn new(
        alloc: Global,
        program: &'a Program,
        derivation: &'a Derivation,
        live: &'a [u32],
        interfaces: &'a [u32],
    ) -> Result<Self, AllocError>
        requires well { WellFormed (program_view program.now) }
        requires ascends { IsTrue (ascends 0 live.now) }
        ensures program { IfOk result (λ parts. parts.typing.program.now ≡ program.now) }
        ensures derivation { IfOk result (λ parts. parts.typing.derivation.now ≡ derivation.now) }
        ensures live { IfOk result (λ parts. parts.live.now ≡ live.now) }
        ensures interfaces { IfOk result (λ parts. parts.interfaces.now ≡ interfaces.now) }
    {
        let typing = Typing::new(alloc, program, derivation)?;
        let free = free_variables(alloc, program)?;
        Ok(Parts {
            typing,
            free,
            live,
            interfaces,
        })
    }

    /// Whether the value has the kind.
    fn value_fits(&self, value: &Value, kind: Kind) -> bool
        ensures { result ≡ value_fits_by (interfaces_in self.now) (value_view value.now) (kind_view kind) }
    {
        match value {
            Value::Unit => kind == Kind::Unit,
            Value::Bool(_) => kind == Kind::Bool,
            Value::Int(_) => kind == Kind::Int,
            Value::Str(_) => kind == Kind::Str,
            Value::Mailbox(mailbox) => match kind {
                Kind::Mailbox(interface) => {
                    interface_of(self.live, self.interfaces, *mailbox) == interface
                }
                _ => false,
            },
        }
    }

    /// Whether the value has the kind, if there is one.
    fn fits_some(&self, value: &Value, kind: Option<&Kind>) -> bool
        ensures { result ≡ value_fits_some (interfaces_in self.now) (value_view value.now)
            (option_map kind_view (option_copied kind.entry)) }
    {
        match kind {
            None => false,
            Some(kind) => self.value_fits(value, *kind),
        }
    }

    /// Whether each value has the kind of its variable.
    fn values_fit(&self, kinds: &[Kind], env: &[(u32, Value)]) -> bool
        ensures { result ≡ list_all (λ e. value_fits_some (interfaces_in self.now) e.1 (option_map kind_view (slice_get kinds.now e.0)))
            (env_view env.now) }
    {
        for (variable, value) in env {
            if !self.fits_some(value, kinds.get(*variable as usize)) {
                return false;
            }
        }
        true
    }

    /// The free variables of the node, in ascending order.
    fn free_of(&self, node: u32) -> &[u32]
        ensures { result.now ≡ numbers_at self.now.free node }
    {
        match self.free.as_slice().get(node as usize) {
            None => &[],
            Some(free) => free.as_slice(),
        }
    }

    /// The kinds of the variables of the node's function, if the node is there.
    fn variables_of(&self, node: u32) -> Option<&'a [Kind]>
        ensures { option_map (λ kinds. map kind_view kinds.now) result
            ≡ option_map (λ g. g.vars) (function_of (program_in self.now.typing) node) }
    {
        let program = self.typing.program;
        match program.nodes.as_slice().get(node as usize) {
            None => None,
            Some(own) => match program.functions.as_slice().get(own.function as usize) {
                None => None,
                Some(function) => Some(function.vars.as_slice()),
            },
        }
    }

    /// Whether a part at the node has values of the right kinds for just the free variables of the node but one.
    fn part_fits(&self, node: u32, but: Option<u32>, env: &[(u32, Value)]) -> bool
        requires { IsTrue (ascends 0 (keys_of (env_view env.now))) }
        ensures { result ≡ part_fits_by (program_in self.now.typing) (interfaces_in self.now) node (option_list but) (env_view env.now) }
    {
        let Some(kinds) = self.variables_of(node) else {
            return false;
        };
        has_just(self.free_of(node), but, env) && self.values_fit(kinds, env)
    }

    /// Whether each thread fits.
    pub fn threads_fit(&self, threads: &[(u32, ThreadState)]) -> bool
        requires { IsTrue (list_all (λ e. thread_ascends e.1) (threads_view threads.now)) }
        ensures { result ≡ list_all (λ e. thread_fits_by (program_in self.now.typing) (typing_in self.now.typing)
            (interfaces_in self.now) e.1) (threads_view threads.now) }
    {
        for (_, state) in threads {
            if !self.thread_fits(state) {
                return false;
            }
        }
        true
    }

    fn thread_fits(&self, state: &ThreadState) -> bool
        requires { IsTrue (thread_ascends (thread_view state.now)) }
        ensures { result ≡ thread_fits_by (program_in self.now.typing) (typing_in self.now.typing) (interfaces_in self.now)
            (thread_view state.now) }
    {
        let frames = state.frames.as_slice();
        self.control_fits(&state.control, frames) && self.frames_fit(frames)
    }

    /// Whether a control fits, where the frames below it stand from the last one up.
    fn control_fits(&self, control: &Control, frames: &[Frame]) -> bool
        requires { IsTrue (control_ascends (control_view control.now)) }
        ensures { result ≡ control_fits_by (program_in self.now.typing) (typing_in self.now.typing) (interfaces_in self.now)
            (control_view control.now) (map frame_view (reverse frames.now)) }
    {
        let wanted = self.typing.wanted(frames);
        match control {
            Control::Node { node, env } => {
                self.part_fits(*node, None, env.as_slice())
                    && types_agree(self.typing.type_of(*node), wanted)
            }
            Control::Returned(value) => self.value_fits(value, kind_of(wanted)),
        }
    }

    /// Whether frames that stand from the last one up fit.
    fn frames_fit(&self, frames: &[Frame]) -> bool
        requires { IsTrue (list_all (λ f. ascends 0 (keys_of f.env)) (map frame_view frames.now)) }
        ensures { result ≡ frames_fit_by (program_in self.now.typing) (typing_in self.now.typing) (interfaces_in self.now)
            (map frame_view (reverse frames.now)) }
    {
        let mut fit = true;
        for (place, frame) in frames.iter().enumerate() {
            fit = fit && self.frame_fits(frame, &frames[..place]);
        }
        fit
    }

    /// Whether a frame fits what those below it, from the last one up, want.
    fn frame_fits(&self, frame: &Frame, below: &[Frame]) -> bool
        requires { IsTrue (ascends 0 (keys_of (frame_view frame.now).env)) }
        ensures { result ≡ frame_fits_by (program_in self.now.typing) (typing_in self.now.typing) (interfaces_in self.now)
            (frame_view frame.now) (map frame_view (reverse below.now)) }
    {
        self.part_fits(frame.body, frame.var, frame.env.as_slice())
            && is_frame_of(frame, self.typing.let_of(frame.body))
            && types_agree(self.typing.type_of(frame.body), self.typing.wanted(below))
    }
}

/// Whether the environment has just these variables but one, in their order.
fn has_just(variables: &[u32], but: Option<u32>, env: &[(u32, Value)]) -> bool
    ensures { result ≡ are_same (all_but but variables.now) (keys_of (env_view env.now)) }
{
    let mut place = 0;
    for variable in variables {
        if !is_left_out(*variable, but) {
            if !stands_at(env, place, *variable) {
                return false;
            }
            place += 1;
        }
    }
    place == env.len()
}

fn is_left_out(variable: u32, but: Option<u32>) -> bool
    ensures { result ≡ is_among variable (option_list but) }
{
    but == Some(variable)
}

/// Whether the variable at the place is this one.
fn stands_at(env: &[(u32, Value)], place: usize, variable: u32) -> bool
    ensures { result ≡ is_first variable (keys_of (env_view (drop place env.now))) }
{
    match env.get(place) {
        None => false,
        Some(entry) => variable == entry.0,
    }
}

/// Whether the frame has the name of the `let`, if there is one.
fn is_frame_of(frame: &Frame, binding: Option<Binding>) -> bool
    ensures { result ≡ has_name_of (frame_view frame.now) (option_map binding_view binding) }
{
    match binding {
        None => false,
        Some(binding) => binding.var == frame.var,
    }
}

/// Whether both types are the same base type, or have the same interface and polarity.
fn types_agree(given: Option<&TypeOf>, wanted: Option<&TypeOf>) -> bool
    ensures { result ≡ types_agree_by (type_or_unit (option_copied given.entry)) (type_or_unit (option_copied wanted.entry)) }
{
    match given {
        None => is_base(Base::Unit, wanted),
        Some(given) => agrees(given, wanted),
    }
}

fn agrees(given: &TypeOf, wanted: Option<&TypeOf>) -> bool
    ensures { result ≡ types_agree_by (result_view given.now) (type_or_unit (option_copied wanted.entry)) }
{
    match given {
        TypeOf::Base(base) => is_base(*base, wanted),
        TypeOf::Mailbox {
            interface,
            polarity,
            ..
        } => is_of(*interface, *polarity, wanted),
    }
}

/// Whether the type is this base type.
fn is_base(base: Base, of: Option<&TypeOf>) -> bool
    ensures { result ≡ types_agree_by (BaseTerm (base_view base)) (type_or_unit (option_copied of.entry)) }
{
    match of {
        None => base == Base::Unit,
        Some(TypeOf::Base(own)) => base == *own,
        Some(TypeOf::Mailbox { .. }) => false,
    }
}

/// Whether the type is that of a mailbox of this interface and polarity.
fn is_of(interface: u32, polarity: Polarity, of: Option<&TypeOf>) -> bool
    ensures { (e : Pat) → result ≡ types_agree_by (MailboxTerm interface (polarity_view polarity) e)
        (type_or_unit (option_copied of.entry)) }
{
    match of {
        None => false,
        Some(TypeOf::Base(_)) => false,
        Some(
            TypeOf::Mailbox {
                interface: own,
                polarity: way,
                ..
            },
        ) => interface == *own && polarity == *way,
    }
}

/// The kind of the type.
fn kind_of(of: Option<&TypeOf>) -> Kind
    ensures { kind_view result ≡ kind_of_type (type_or_unit (option_copied of.entry)) }
{
    match of {
        None => Kind::Unit,
        Some(TypeOf::Base(base)) => kind_of_base(*base),
        Some(TypeOf::Mailbox { interface, .. }) => Kind::Mailbox(*interface),
    }
}

fn kind_of_base(base: Base) -> Kind
    ensures { kind_view result ≡ kind_of_type (BaseTerm (base_view base)) }
{
    match base {
        Base::Unit => Kind::Unit,
        Base::Bool => Kind::Bool,
        Base::Int => Kind::Int,
        Base::Str => Kind::Str,
    }
}
