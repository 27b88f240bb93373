// A run: steps until one cannot be taken or the budget is spent; and one step, which is a run of one.
ghost use Rattle.std.specs.Prelude.{◌≡◌, true, false, ◌+◌, ◌/◌, ◌≤◌, ◌<◌, length, Ok};
ghost use Rattle.machine.specs.declared.Phase.TheVariants.{Move};
ghost use Rattle.machine.specs.Step.{whole as whole_of, onward as onward_of, step as step_of};
ghost use Rattle.machine.specs.Run.{lent, back, lent_in, back_in, Held, serves, Runs, HasRun, Stepped};
ghost use Rattle.machine.specs.Helpers.Lending.{GoesOn, HaltsOn, AdvancesOn};
ghost use Rattle.machine.specs.Helpers.AtOnce.{moved_by};
ghost use Rattle.machine.specs.Helpers.Resume.{InMove, RunsIf, Ready, Seated, ready_of, stepped_in};

use crate::bursts::least;
use crate::moves::asked;
use crate::streams::Streams;
use crate::{Core, Loan, Machine, Phase, Progress, Ran, Reason, StepAnswer, Work};
use bus::Refusal;
use ledger::{append, has_room};
use regs::Mode;

// Where some steps led, and how many they were.
#[derive(Clone, Copy)]
struct Advanced {
    core: Core,
    steps: u32,
}

// Move: bytes moved at once, and one where none can be.
impl Core {
    // Where so many bytes of the work in hand lead, with these errors.
    fn moved(self, k: Work, n: usize, errors: u8) -> Advanced
        requires { k.moved + n ≤ 65535 }
        ensures { result ≡ record { core = onward_of self (moved_by k n errors); steps = n } }
    {
        let work = Work {
            errors,
            moved: k.moved + n as u16,
            ..k
        };
        Advanced {
            core: self.with_work(work),
            steps: n as u32,
        }
    }

    // Bytes of the work in hand, `left` at most, by the mode.
    fn move_many(self, k: Work, window: &mut [u8], streams: &mut Streams, left: u32) -> Advanced
        requires in_move { InMove self k (length window.old) }
        requires le_left { 1 ≤ left }
        ensures steps_le_left { result.steps ≤ left }
        ensures advances { AdvancesOn self window.old streams.old result.steps result.core window.new streams.new }
    {
        let mode = self.mode;
        let place = self.window;
        let most = least((asked(mode, k.length) - k.moved) as usize, left as usize);
        match mode {
            Mode::MemoryToMemory => {
                let n = k.copy_many(place, window, most);
                self.moved(k, n, k.errors)
            }
            Mode::MemoryToStream => {
                let n = k.send_many(place, window, streams, most);
                self.moved(k, n, k.errors)
            }
            Mode::StreamToMemory => {
                let a = k.receive_many(place, window, streams, most);
                self.moved(k, a.count, a.errors)
            }
        }
    }

    // At least one step of Move, and `left` at most, where one can be taken: those at once, or else one.
    fn move_on(self, k: Work, window: &mut [u8], streams: &mut Streams, left: u32) -> Advanced
        requires in_move { InMove self k (length window.old) }
        requires goes { GoesOn step_of self window.old streams.old }
        requires le_left { 1 ≤ left }
        ensures le_steps { (1 ≤ result.steps) × (result.steps ≤ left) }
        ensures advances { AdvancesOn self window.old streams.old result.steps result.core window.new streams.new }
    {
        let b = self.move_many(k, window, streams, left);
        if b.steps != 0 {
            return b;
        }
        let core = self.move_step(k, window, streams);
        Advanced { core, steps: 1 }
    }
}

impl Core {
    // Why a run ends here, if it does: what a step waits for, and else that the budget is spent.
    fn halts(self, streams: &Streams, ledger: &[u8], used: u32, spent: bool) -> Option<Reason>
        ensures { HaltsOn self streams.now ledger.now used spent result }
    {
        let room = has_room(ledger, used);
        let wait = self.wait(streams.more(), streams.room(), room);
        if let Some(_) = wait {
            return wait;
        }
        if spent {
            return Some(Reason::Budget);
        }
        None
    }
}

impl Machine {
    // A run that led to this machine, for this reason.
    fn ran(self, reason: Reason, steps: u32, taken: usize, made: usize, used: u32) -> Ran
        ensures { result ≡ record { machine = self; reason = reason; steps = steps; taken = taken; made = made; used = used } }
    {
        Ran {
            machine: self,
            reason,
            steps,
            taken,
            made,
            used,
        }
    }

    // A run of a machine that is served. Move sees the streams, WriteBack the ledger, Rest and Fetch the window alone, so that a match on the
    // phase is plainer than a table of steps.
    // What is lent is no `Loan` here: each turn of the loop would have to say of its slices too that they are still the same ones.
    fn run_on(
        self,
        window: &mut [u8],
        beats: &[u8],
        out: &mut [u8],
        ledger: &mut [u8],
        used: u32,
        budget: u32,
    ) -> Ran
        requires ready { Ready self.core (length window.old) }
        requires seated { Seated self.core self.slot }
        requires used_in_bounds { used ≤ length ledger.old / 12 }
        ensures { Runs serves self (lent window.old beats.now out.old ledger.old used)
            budget (Ok result) (back window.new out.new ledger.new) }
    {
        let run = self.run;
        let mut core = self.core;
        let mut slot = self.slot;
        let mut streams = Streams::new(beats, out);
        let mut filled: u32 = used;
        let mut steps: u32 = 0;
        let reason = loop {
            let halts = core.halts(&streams, ledger, filled, budget == steps);
            if let Some(why) = halts {
                break why;
            }
            let phase = core.phase;
            if let Phase::Move(k) = phase {
                let a = core.move_on(k, window, &mut streams, budget - steps);
                core = a.core;
                steps += a.steps;
            } else if let Phase::WriteBack(k) = phase {
                filled = append(ledger, filled, k.entry(run));
                core = core.write_back_step(k, window);
                steps += 1;
            } else {
                let f = core.begin_step(window, slot);
                core = f.core;
                slot = f.slot;
                steps += 1;
            }
        };
        Machine::of(core, slot, run).ran(reason, steps, streams.taken, streams.made, filled)
    }

    // A run of a machine that is good, or not. Its answer is the reason found where it ended. One that takes no step ends before the loop.
    fn run_if(self, good: bool, loan: &mut Loan, budget: u32) -> Result<Ran, Refusal>
        requires ready { good ≡ true → Ready self.core self.core.window.length }
        requires seated { good ≡ true → Seated self.core self.slot }
        ensures held { Held loan.old loan.new }
        ensures runs { RunsIf good self (lent_in loan.old) budget result (back_in loan.new) }
    {
        self.served(good, loan)?;
        let core = self.core;
        let slot = self.slot;
        let used = loan.used;
        let beats = loan.beats;
        let window = &mut *loan.window;
        let out = &mut *loan.out;
        let ledger = &mut *loan.ledger;
        let halts = core.halts(&Streams::new(beats, out), ledger, used, budget == 0);
        match halts {
            Some(why) => {
                let here = Machine::of(core, slot, self.run);
                Ok(here.ran(why, 0, 0, 0, used))
            }
            None => Ok(self.run_on(window, beats, out, ledger, used, budget)),
        }
    }

    // A run of any machine: 8 for one that breaks a rule. It and `resume` are two calls, since their promises differ (HasRun, Resumed).
    pub fn run(self, loan: &mut Loan, budget: u32) -> Result<Ran, Refusal>
        ensures held { Held loan.old loan.new }
        ensures runs { HasRun self (lent_in loan.old) budget result (back_in loan.new) }
    {
        self.run_if(self.keeps(), loan, budget)
    }

    // One step, or why it cannot be taken: a run of one.
    pub fn step(self, loan: &mut Loan) -> Result<StepAnswer, Refusal>
        ensures held { Held loan.old loan.new }
        ensures stepped { Stepped self (lent_in loan.old) result (back_in loan.new) }
    {
        let ran = self.run(loan, 1)?;
        Ok(ran.stepped())
    }

    // A run of a machine that is known to keep the rules, as one that was loaded is: it looks only at what a step needs.
    pub fn resume(self, loan: &mut Loan, budget: u32) -> Result<Ran, Refusal>
        ensures held { Held loan.old loan.new }
        ensures runs { RunsIf (ready_of self) self (lent_in loan.old) budget result (back_in loan.new) }
    {
        self.run_if(self.ready(), loan, budget)
    }
}

impl Ran {
    // What a run of one says of its step.
    fn stepped(self) -> StepAnswer
        ensures { result ≡ stepped_in self }
    {
        if self.steps == 0 {
            let reason = self.reason;
            return StepAnswer::Stopped(reason);
        }
        let machine = self.machine;
        StepAnswer::Taken(Progress {
            machine,
            taken: self.taken,
            made: self.made,
            used: self.used,
        })
    }
}
