// A machine that is driven to its outcome on one thread.
ghost use Rattle.std.specs.Prelude.{◌≡◌, List, IfOk, OnOk, OnErr};
ghost use Rattle.pat_machine.specs.declared.job.Receipt.{Receipt as ReceiptOf};
ghost use Rattle.pat_machine.specs.Parted.{shown, IsKept};
ghost use Rattle.pat_machine.specs.Gives.{IsLent, Committed, GivesBack};
ghost use Rattle.pat_machine.specs.Driving.{IsDriven, IsStopped};

use crate::job::{Job, Receipt};
use crate::parts::Parts;
use std::alloc::AllocError;

impl Parts {
    /// Takes all jobs back, and serves one job after another, up to the outcome.
    pub fn drive(&mut self, worker: u32) -> Result<Vec<Receipt>, AllocError>
        requires { IsKept self.old }
        ensures kept { IsKept self.new }
        ensures ok { IfOk result (λ rs. IsDriven (shown self.old) worker rs.items (shown self.new)) }
        ensures err { OnErr result (IsStopped (shown self.old) worker (shown self.new)) }
    {
        self.give_back_all();
        let mut receipts = Vec::new(self.alloc);
        while let Some(job) = self.take() {
            if receipts.reserve(1).is_err() {
                self.give_back(job);
                return Err(AllocError);
            }
            let receipt = self.serve(worker, job)?;
            receipts.push_reserved(receipt);
        }
        Ok(receipts)
    }

    /// Takes all jobs back, and serves one job after another, up to the outcome. Receipts aren't kept.
    pub fn run(&mut self, worker: u32) -> Result<(), AllocError>
        requires { IsKept self.old }
        ensures kept { IsKept self.new }
        ensures ok { OnOk result ((rs : List ReceiptOf) × IsDriven (shown self.old) worker rs (shown self.new)) }
        ensures err { OnErr result (IsStopped (shown self.old) worker (shown self.new)) }
    {
        self.give_back_all();
        while let Some(job) = self.take() {
            let _receipt = self.serve(worker, job)?;
        }
        Ok(())
    }

    /// Commits a job that is out, with its local steps taken inside; or takes it back.
    pub fn serve(&mut self, worker: u32, job: Job) -> Result<Receipt, AllocError>
        requires kept { IsKept self.old }
        requires lent { IsLent (shown self.old) job }
        ensures kept { IsKept self.new }
        ensures ok { IfOk result (λ r. Committed (shown self.old) worker job r (shown self.new)) }
        ensures err { OnErr result (GivesBack (shown self.old) job (shown self.new)) }
    {
        match self.commit_inside(worker, job) {
            Ok(receipt) => Ok(receipt),
            Err(AllocError) => {
                self.give_back(job);
                Err(AllocError)
            }
        }
    }
}
