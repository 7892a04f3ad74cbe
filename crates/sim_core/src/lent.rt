//! Lending runs, and taking them back with their marks.
ghost use Rattle.std.specs.Prelude.{◌≡◌, ◌<◌, true, false, length, slice_set, slice_index_or, IsNone, IfOk, IfSome, OnOk, OnErr};
ghost use Rattle.sim_core.specs.{ActsAll, MayRun, runs, design, IsOut, IsBurstOf, IsTaskOf, theory_of};

use crate::back::record_all;
use crate::beside::spread;
use crate::bodies::body_length;
use crate::machine::Core;
use crate::marks_room::make_room_for_marks;
use crate::post::{Wants, make_mail};
use crate::stretch::Member;
use crate::unread::{Inlets, keep_unread};
use crate::wiring::ports_of;
use flow_word::OutOfMemory;
use module_interp::ModuleRun;
use run_ahead::{Burst, Mail, Task};
use std::alloc::Global;
use std::mem;

impl Core {
    /// Lends a module's run with its mail, if a Run of the module is permitted and its run is not lent; else `None`.
    ///
    /// The mail has all that the core can tell the run: the outcomes of the step that waits, and for each channel that the module
    /// pops the values from its next pop on. Values that came back unread with the run are not copied again. `None` and
    /// `OutOfMemory` leave the core as it was. Where the Run is not permitted, it takes no memory.
    pub fn lend(&mut self, alloc: Global, owner: u32) -> Result<Option<Task>, OutOfMemory>
        requires { owner < length self.old.plan.design.modules }
        ensures task { IfOk result (λ lent. IfSome lent (λ task. IsTaskOf self.old.plan (theory_of self.old) owner task)) }
        ensures here { IfOk result (λ lent. IfSome lent (λ task. slice_index_or self.old.lent owner true ≡ false)) }
        ensures lent { IfOk result (λ lent. IfSome lent (λ task.
            self.new ≡ record self.old { lent = slice_set self.old.lent owner true })) }
        ensures none { IfOk result (λ lent. IsNone lent → MayRun (design self.old.plan) (theory_of self.old) owner
            → slice_index_or self.old.lent owner true ≡ true) }
        ensures unchanged { IfOk result (λ lent. IsNone lent → self.new ≡ self.old) }
        ensures no_memory { OnErr result (self.new ≡ self.old) }
    {
        if !self.may_run(owner) {
            self.rest(owner);
            return Ok(None);
        }
        let Some(run) = self.take_out(owner) else {
            return Ok(None);
        };
        match self.mail_of(alloc, owner, &run) {
            Ok(mail) => Ok(Some(Task { run, mail })),
            Err(full) => {
                self.put_back(owner, run);
                Err(full)
            }
        }
    }

    /// The mail for a module's run that is out of the core.
    fn mail_of(&mut self, alloc: Global, owner: u32, run: &ModuleRun) -> Result<Mail, OutOfMemory>
        requires out { IsOut self.old owner run.now }
        ensures unchanged { self.new ≡ self.old }
        ensures task { MayRun (design self.old.plan) (theory_of self.old) owner → IfOk result (λ mail.
            IsTaskOf self.old.plan (theory_of self.old) owner (record { run = run.now; mail = mail })) }
    {
        let spare = mem::replace(&mut self.scratch.mail, Mail::none(alloc));
        let inlets = Inlets {
            alloc,
            owner,
            readers: &self.wiring.readers,
        };
        let wants = Wants {
            run,
            first: run.queries(),
            accesses: run.waiting(),
        };
        make_mail(&self.engine, &mut self.unread, &inlets, &wants, spare)
    }

    /// Takes a module's run back, with the marks that it gave: they are as many Runs of the module, one after the other. What is
    /// left of its mail is kept for its next mail. After `OutOfMemory` all is as it was, and the run stays lent.
    pub fn take_back(&mut self, owner: u32, burst: Burst) -> Result<(), OutOfMemory>
        requires owner { owner < length self.old.plan.design.modules }
        requires lent { slice_index_or self.old.lent owner true ≡ true }
        requires burst { IsBurstOf self.old owner burst }
        ensures plan { self.new.plan ≡ self.old.plan }
        ensures lent { OnOk result (self.new.lent ≡ slice_set self.old.lent owner false) }
        ensures acts { OnOk result (ActsAll (design self.old.plan) self.old.plan.cycles (theory_of self.old)
            (runs (length burst.emitted) owner) (theory_of self.new)) }
        ensures no_memory { OnErr result (self.new ≡ self.old) }
    {
        let Burst {
            run,
            emitted,
            short: _,
            mut mail,
        } = burst;
        self.due.asking.add(owner);
        let beside = self.wiring.hints.beside(owner);
        spread(&mut self.due.running, beside, owner);
        let member = Member {
            number: owner,
            ports: ports_of(&self.wiring.ports, owner),
            body: body_length(&self.wiring.bodies, owner),
        };
        let marks = emitted.into_parts();
        make_room_for_marks(&mut self.engine, &member, &marks)?;
        record_all(&mut self.engine, owner, marks);
        let inlets = Inlets {
            alloc: *self.engine.credits.allocator(),
            owner,
            readers: &self.wiring.readers,
        };
        keep_unread(&mut self.unread, &inlets, &run, &mut mail);
        self.scratch.mail = mail;
        self.put_back(owner, run);
        Ok(())
    }
}
