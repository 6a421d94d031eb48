// One commit, made as a worker makes it.
use crate::checking::check;
use pat_machine::{Machine, Receipt};
use pat_machine_threads::local_run;
use pat_reduce::{Act, Entry};
use pat_reduce_values::Executable;
use pat_typed_program::Accepted;
use std::alloc::Global;
use std::process::Abort;
use std::test::Fail;
use test_programs::one_message;

// The first job of a thread that makes a mailbox: the step into its `let`, and the mailbox.
pub fn one_job_is_committed(rt: &impl Abort, alloc: Global) -> Result<(), Fail> {
    let program = one_message(alloc)?.into_program();
    let code = Executable::new(alloc, program.copy(alloc)?)?;
    let mut machine = Machine::new(alloc, Accepted::of(program), 300, 1)?;
    let job = machine.take().expect(rt, "a job");
    let state = machine.state_of(&job).expect(rt, "memory");
    let run = local_run(alloc, &code, state, job.allowance).ok();
    let run = run.expect(rt, "memory");
    check(rt, run.steps == 1);
    let receipt = machine.commit(3, job, run).expect(rt, "memory");
    let entry = Entry {
        worker: 3,
        thread: 0,
        local: 1,
        shared: Some(Act::New),
    };
    let index = Some(0);
    check(rt, receipt == Receipt { index, entry });
    check(rt, machine.history() == [entry].as_slice());
    Ok(())
}
