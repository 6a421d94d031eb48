// Look-ups of many variables in one environment.
ghost use Rattle.std.specs.Prelude.{◌≡◌, ◌≤◌, ℕ, true, length, drop, option_map, option_copied, IfOk};
ghost use Rattle.pat_type_schemes_spec.specs.NodeTypes.{need_of};
ghost use Rattle.pat_types.specs.Views.{type_view, needs_view};
ghost use Rattle.pat_derivation_spec.specs.Derivations.{ascends_from};

use crate::environments::entries::find;
use pat_types::MailboxType;
use std::alloc::AllocError;

/// An environment in which many variables are looked up: by halving where they ascend, which all do but those that a clause puts in
/// front.
#[derive(Clone, Copy)]
pub struct LookUps<'a> {
    pub env: &'a [(u32, MailboxType)],
    rising: usize,
    pub ghost within: { rising ≤ length env.now },
    pub ghost ascends: { ascends_from 0 (needs_view (drop rising env.now)) ≡ true },
}

impl<'a> LookUps<'a> {
    /// For look-ups in this environment.
    pub fn new(env: &'a [(u32, MailboxType)]) -> Self
        ensures { result.env.now ≡ env.now }
    {
        let rising = rising_end(env);
        LookUps { env, rising }
    }

    /// The type of the variable, if it is named. Names are mostly looked up in their order, so it is first looked for at the place
    /// `near`, which then is the one behind.
    pub fn find(&self, near: &mut usize, variable: u32) -> Option<&'a MailboxType>
        ensures { option_map type_view (option_copied result) ≡ need_of (needs_view self.now.env.now) variable }
    {
        match find(&self.env[..self.rising], variable) {
            Some(of) => Some(of),
            None => find_near(&self.env[self.rising..], near, variable),
        }
    }

    /// A copy of the type of the variable, if it is named. It is first looked for at the place `near`, which then is the one behind.
    pub fn copy_of(
        &self,
        near: &mut usize,
        variable: u32,
    ) -> Result<Option<MailboxType>, AllocError>
        ensures { IfOk result (λ o. option_map type_view o ≡ need_of (needs_view self.now.env.now) variable) }
    {
        match self.find(near, variable) {
            None => Ok(None),
            Some(of) => Ok(Some(of.copy()?)),
        }
    }
}

/// The place behind which the variables ascend.
#[tactic(auto, using(crate::proofs::Halving::rises_now))]
fn rising_end(env: &[(u32, MailboxType)]) -> usize
    ensures within { result ≤ length env.now }
    ensures ascends { ascends_from 0 (needs_view (drop result env.now)) ≡ true }
{
    let mut next = u32::MAX as u64 + 1;
    let mut rising = env.len();
    while rising > 0 {
        let variable = env[rising - 1].0 as u64;
        if variable >= next {
            return rising;
        }
        next = variable;
        rising -= 1;
    }
    rising
}

/// The type of the variable, if it is named, where the variables ascend: at the place that is given, or found by halving.
fn find_near<'a>(
    env: &'a [(u32, MailboxType)],
    near: &mut usize,
    variable: u32,
) -> Option<&'a MailboxType>
    requires { ascends_from 0 (needs_view env.now) ≡ true }
    ensures { option_map type_view (option_copied result) ≡ need_of (needs_view env.now) variable }
{
    let place = *near;
    if place < env.len() && env[place].0 == variable {
        *near = place + 1;
        return Some(&env[place].1);
    }
    find_by_halves(env, near, variable)
}

/// The type of the variable, if it is named, where the variables ascend. The place is then the one behind.
fn find_by_halves<'a>(
    env: &'a [(u32, MailboxType)],
    near: &mut usize,
    variable: u32,
) -> Option<&'a MailboxType>
    requires { ascends_from 0 (needs_view env.now) ≡ true }
    ensures { option_map type_view (option_copied result) ≡ need_of (needs_view env.now) variable }
{
    match env.binary_search_by_key(&variable, |own| own.0) {
        Ok(place) => {
            *near = place + 1;
            Some(&env[place].1)
        }
        Err(place) => {
            *near = place;
            None
        }
    }
}
