// What of a problem belongs to each interface and to each variable.
ghost use Rattle.std.specs.Prelude.{◌≡◌, ◌<◌, ◌-◌, ◌^◌, [], ℕ, Some, length, get_or, replicate, nat_eq, IfOk, OnOk};
ghost use Rattle.pat_solve_bounds.specs.lower_bounds.Rows.{put_key, put_all};
ghost use Rattle.pat_solve_bounds.specs.lower_bounds.Indexes.{IsIndexOf, right_variable};

use crate::lower_bounds::rows::{no_rows, put};
use pat_infer_problems::{Constraint, Problem, VarDecl};
use pat_sequences::Sequence;
use pat_types::Right;
use std::alloc::{AllocError, Global};

/// What of a problem belongs to each interface and to each variable. Constraints are numbered from 0 and variables from 1; all numbers
/// ascend.
#[derive(Drop)]
pub struct Index {
    /// The constraints of each interface.
    pub constraints: Sequence<Sequence<usize>>,
    /// The variables of each interface.
    pub variables: Sequence<Sequence<u32>>,
    /// The constraints whose right side is the variable, at its number. No variable has the number 0.
    pub lefts: Sequence<Sequence<usize>>,
}

impl Index {
    /// The index of a problem with so many interfaces, made in one pass. Want of memory comes also where the problem has 2^32 - 1
    /// variables.
    pub fn of(alloc: Global, interfaces: usize, problem: &Problem) -> Result<Index, AllocError>
        ensures index { IfOk result (IsIndexOf problem.now) }
        ensures count { IfOk result (λ x. length x.constraints ≡ interfaces) }
    {
        let constraints = problem.constraints.as_slice();
        let vars = problem.vars.as_slice();
        if vars.len() >= u32::MAX as usize {
            return Err(AllocError);
        }
        let own = constraints_by_interface(alloc, interfaces, constraints)?;
        let variables = variables_by_interface(alloc, interfaces, vars)?;
        let lefts = lefts_by_variable(alloc, vars.len() + 1, constraints)?;
        Ok(Index {
            constraints: own,
            variables,
            lefts,
        })
    }

    /// The constraints of the interface.
    pub fn constraints_of(&self, interface: usize) -> &[usize]
        requires { interface < length self.now.constraints }
        ensures { result.now ≡ get_or self.now.constraints interface [] }
    {
        self.constraints.as_slice()[interface].as_slice()
    }

    /// The variables of the interface.
    pub fn variables_of(&self, interface: usize) -> &[u32]
        requires { interface < length self.now.variables }
        ensures { result.now ≡ get_or self.now.variables interface [] }
    {
        self.variables.as_slice()[interface].as_slice()
    }

    /// The constraints whose right side is the variable.
    pub fn lefts_of(&self, variable: u32) -> &[usize]
        requires { variable < length self.now.lefts }
        ensures { result.now ≡ get_or self.now.lefts variable [] }
    {
        self.lefts.as_slice()[variable as usize].as_slice()
    }
}

/// The numbers of the constraints, by interface.
fn constraints_by_interface(
    alloc: Global,
    interfaces: usize,
    constraints: &[Constraint],
) -> Result<Sequence<Sequence<usize>>, AllocError>
    ensures { IfOk result (λ rows. rows ≡ put_all (λ c. Some c.interface) 0 constraints.now (replicate interfaces [])) }
{
    let mut rows = no_rows(alloc, interfaces)?;
    let mut number = 0;
    for constraint in constraints {
        put(&mut rows, constraint.interface as usize, number)?;
        number += 1;
    }
    Ok(rows)
}

/// The numbers of the variables, by interface.
fn variables_by_interface(
    alloc: Global,
    interfaces: usize,
    vars: &[VarDecl],
) -> Result<Sequence<Sequence<u32>>, AllocError>
    requires { length vars.now < 2 ^ 32 - 1 }
    ensures { IfOk result (λ rows. rows ≡ put_all (λ v. Some v.interface) 1 vars.now (replicate interfaces [])) }
{
    let mut rows = no_rows(alloc, interfaces)?;
    let mut number = 1;
    for declared in vars {
        put(&mut rows, declared.interface as usize, number)?;
        number += 1;
    }
    Ok(rows)
}

/// The numbers of the constraints whose right side is a variable, by that variable.
fn lefts_by_variable(
    alloc: Global,
    count: usize,
    constraints: &[Constraint],
) -> Result<Sequence<Sequence<usize>>, AllocError>
    ensures { IfOk result (λ rows. rows ≡ put_all (λ c. right_variable c.right) 0 constraints.now (replicate count [])) }
{
    let mut rows = no_rows(alloc, count)?;
    let mut number = 0;
    for constraint in constraints {
        put_left(&mut rows, &constraint.right, number)?;
        number += 1;
    }
    Ok(rows)
}

/// Puts the number of a constraint into the row of the variable that its right side is, if it is one.
fn put_left(
    rows: &mut Sequence<Sequence<usize>>,
    right: &Right,
    number: usize,
) -> Result<(), AllocError>
    ensures { OnOk result (rows.new ≡ put_key rows.old (right_variable right.now) number) }
{
    match right {
        Right::Var(variable) => put(rows, *variable as usize, number),
        Right::Pattern(_) => Ok(()),
    }
}
