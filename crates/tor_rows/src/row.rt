//! A row: what it has built, what befalls its runs, and what is expected of the run under way.
use crate::building::Building;
use crate::conditions::Conditions;
use crate::octets::Octets;
use crate::refused::Refused;
use crate::runs::{Asked, Told, run};
use crate::wanted::{Outcome, Turns, Wanted};
use std::alloc::{AllocError, Global};
use tor_arena::Keys;

/// How many calls behind the last one of a run are told to fail, to see that the run doesn't make them.
const FURTHER_CALLS: u64 = 4;

/// The row under way.
#[derive(Drop)]
pub struct Row {
    name: String,
    building: Building,
    conditions: Conditions,
    // the line of the run under way, or nothing
    run: String,
    wanted: Wanted,
    // what the last run wrote to out
    written: Octets,
    has_run: bool,
    differs: bool,
    // what differs
    report: String,
}

impl Row {
    /// A row without lines.
    pub fn new(alloc: Global) -> Row {
        Row {
            name: String::new(alloc),
            building: Building::new(alloc),
            conditions: Conditions::new(),
            run: String::new(alloc),
            wanted: Wanted::new(alloc),
            written: Octets::new(alloc),
            has_run: false,
            differs: false,
            report: String::new(alloc),
        }
    }

    // The run under way, once more, under these conditions.
    fn tell(&self, alloc: Global, keys: Keys, conditions: Conditions) -> Result<Told, Refused> {
        let line = self.run.as_str();
        let (program, words) = line.split_once(' ').unwrap_or((line, ""));
        let asked = Asked { program, words };
        Ok(run(alloc, keys, self.building.files(), conditions, asked)?)
    }

    fn write_report(&mut self, status: u8, out: &[u8], err: &[u8]) -> Result<(), AllocError> {
        let run = self.run.as_str();
        let out = str::from_utf8(out).unwrap_or("no UTF-8");
        let err = str::from_utf8(err).unwrap_or("no UTF-8");
        write!(self.report, "{run}\nstatus {status}\n{out}{err}")
    }

    // Notes what a run gave, where that isn't what is expected.
    fn judge(&mut self, is_met: bool, told: &Told) {
        if !is_met {
            self.differs = true;
            let _ = self.write_report(told.status, told.out.held(), told.err.held());
        }
    }

    // The run under way as it is. Where it is said how many calls it makes, the next one fails.
    fn run_plainly(&mut self, alloc: Global, keys: Keys) -> Result<(), Refused> {
        let mut conditions = self.conditions;
        let calls = self.wanted.calls();
        if let Some(calls) = calls {
            conditions.failing_read = calls.saturating_add(1);
        }
        let told = self.tell(alloc, keys, conditions)?;
        let is_met = self.wanted.is_met(alloc, &told);
        let are_calls_met = calls.is_none() || told.fails_next;
        self.judge(is_met && are_calls_met, &told);
        self.written = Octets::new(alloc);
        self.written.put(told.out.held());
        self.written.outcome()
    }

    // The run where a call behind its last one would fail.
    fn run_before_failing(&mut self, alloc: Global, keys: Keys, call: u64) -> Result<(), Refused> {
        let conditions = Conditions {
            failing_read: call,
            ..self.conditions
        };
        let told = self.tell(alloc, keys, conditions)?;
        let is_met = self.wanted.is_met(alloc, &told);
        self.judge(is_met, &told);
        Ok(())
    }

    // Ends the run under way, if there is one.
    fn settle(&mut self, alloc: Global, keys: Keys) -> Result<(), Refused> {
        if self.run.is_empty() {
            return Ok(());
        }
        self.run_plainly(alloc, keys)?;
        let last = self.wanted.last_failing_read();
        if last > 0 {
            for further in 0..FURTHER_CALLS {
                let call = last.saturating_add(1).saturating_add(further);
                self.run_before_failing(alloc, keys, call)?;
            }
        }
        self.run = String::new(alloc);
        self.wanted = Wanted::new(alloc);
        Ok(())
    }

    // The run where something is changed, and what is expected then.
    fn run_changed(
        &mut self,
        alloc: Global,
        keys: Keys,
        conditions: Conditions,
        outcome: Outcome<'_>,
        taken: usize,
    ) -> Result<(), Refused> {
        let told = self.tell(alloc, keys, conditions)?;
        let is_met = outcome.is_met(&told, self.written.all().get(..taken).unwrap_or(&[]));
        self.judge(is_met, &told);
        Ok(())
    }

    fn fail_reads(&mut self, alloc: Global, keys: Keys, text: &str) -> Result<(), Refused> {
        let turns = Turns::of_text(text)?;
        self.wanted.add_failing_reads(turns.from, turns.to)?;
        for call in turns.from..turns.to.saturating_add(1) {
            let conditions = Conditions {
                failing_read: call,
                ..self.conditions
            };
            self.run_changed(alloc, keys, conditions, turns.outcome, 0)?;
        }
        Ok(())
    }

    fn cut_file(&mut self, alloc: Global, keys: Keys, text: &str) -> Result<(), Refused> {
        let turns = Turns::of_text(text)?;
        if self.building.files().last_cut(turns.to as usize).is_none() {
            return Err(Refused::NotUnderstood);
        }
        for end in turns.from..turns.to.saturating_add(1) {
            let conditions = Conditions {
                cut: Some(end as usize),
                ..self.conditions
            };
            self.run_changed(alloc, keys, conditions, turns.outcome, 0)?;
        }
        Ok(())
    }

    // Each write but the last takes as much as one can.
    fn fail_writes(&mut self, alloc: Global, keys: Keys, text: &str) -> Result<(), Refused> {
        let Some(text) = text.strip_prefix("status ") else {
            return Err(Refused::NotUnderstood);
        };
        let outcome = Outcome::of_text(text)?;
        self.run_plainly(alloc, keys)?;
        let whole = self.written.all().len();
        let each = (self.conditions.write_octets as usize).max(1);
        for writes in 0..whole {
            let taken = each.saturating_mul(writes);
            if taken < whole {
                let conditions = Conditions {
                    failing_write: (writes as u64).saturating_add(1),
                    ..self.conditions
                };
                self.run_changed(alloc, keys, conditions, outcome, taken)?;
            }
        }
        Ok(())
    }

    fn expect_like(&mut self, name: &str) -> Result<(), Refused> {
        match self.building.files().find(name) {
            Some(octets) => self.wanted.add_out(octets),
            None => Err(Refused::NotUnderstood),
        }
    }

    // Takes a line that says what comes of the run under way, if it is one.
    fn expect(
        &mut self,
        alloc: Global,
        keys: Keys,
        kind: &str,
        text: &str,
    ) -> Option<Result<(), Refused>> {
        if self.run.is_empty() {
            return None;
        }
        match kind {
            "failing-read" => Some(self.fail_reads(alloc, keys, text)),
            "each-failing-write" => Some(self.fail_writes(alloc, keys, text)),
            "cut-to" => Some(self.cut_file(alloc, keys, text)),
            "out-like" => Some(self.expect_like(text)),
            _ => self.wanted.take(kind, text),
        }
    }

    fn begin(&mut self, alloc: Global, name: &str) -> Result<(), Refused> {
        if !self.name.is_empty() {
            return Err(Refused::NotUnderstood);
        }
        self.name = String::from_str(alloc, name)?;
        Ok(())
    }

    fn begin_run(&mut self, alloc: Global, line: &str) -> Result<(), Refused> {
        if self.name.is_empty() {
            return Err(Refused::NotUnderstood);
        }
        self.run = String::from_str(alloc, line)?;
        self.has_run = true;
        Ok(())
    }

    fn put_common(&mut self, alloc: Global, name: &str) -> Result<(), Refused> {
        if !self.name.is_empty() {
            return Err(Refused::NotUnderstood);
        }
        self.building.put_common(alloc, name)
    }

    // Takes a line that says nothing of the run above it.
    fn take_next(&mut self, alloc: Global, line: &str) -> Result<(), Refused> {
        let (kind, text) = line.split_once(' ').unwrap_or((line, ""));
        if let Some(taken) = self.building.take(alloc, kind, text) {
            return taken;
        }
        if let Some(taken) = self.conditions.take(kind, text) {
            return taken;
        }
        match kind {
            "row" => self.begin(alloc, text),
            "tor" | "torcheck" | "torgrade" | "torleak" | "torrank" | "torwhy" | "torview" => {
                self.begin_run(alloc, line)
            }
            "common" => self.put_common(alloc, text),
            "keep" => self.building.put(alloc, text, self.written.all()),
            _ => Err(Refused::NotUnderstood),
        }
    }

    fn take_line(&mut self, alloc: Global, keys: Keys, line: &str) -> Result<(), Refused> {
        let (kind, text) = line.split_once(' ').unwrap_or((line, ""));
        if line.starts_with('#') {
            return Ok(());
        }
        if let Some(taken) = self.expect(alloc, keys, kind, text) {
            return taken;
        }
        self.settle(alloc, keys)?;
        self.take_next(alloc, line)
    }

    fn note_line(&mut self, line: &str, refused: Refused) -> Result<(), AllocError> {
        match refused {
            Refused::NotUnderstood => write!(self.report, "not understood: {line}\n"),
            Refused::NoMemory => write!(self.report, "no memory at: {line}\n"),
        }
    }

    fn note(&mut self, line: &str, outcome: Result<(), Refused>) {
        if let Err(refused) = outcome {
            self.differs = true;
            let _ = self.note_line(line, refused);
        }
    }

    /// Takes a line, or notes that it can't.
    pub fn take(&mut self, alloc: Global, keys: Keys, line: &str) {
        let outcome = self.take_line(alloc, keys, line);
        self.note(line, outcome);
    }

    fn verdict(&self, alloc: Global) -> Result<String, AllocError> {
        let name = self.name.as_str();
        let report = self.report.as_str();
        if self.differs {
            return format!(in alloc; "{name} differs\n{report}");
        }
        if name.is_empty() {
            return Ok(String::new(alloc));
        }
        if self.has_run {
            return format!(in alloc; "{name} ok\n");
        }
        format!(in alloc; "{name} has no run\n")
    }

    fn begin_next(&mut self, alloc: Global) {
        self.building.end_row(alloc);
        self.name = String::new(alloc);
        self.run = String::new(alloc);
        self.report = String::new(alloc);
        self.conditions = Conditions::new();
        self.wanted = Wanted::new(alloc);
        self.written = Octets::new(alloc);
        self.has_run = false;
        self.differs = false;
    }

    /// Ends the row: what is to be said of it.
    pub fn end(&mut self, alloc: Global, keys: Keys) -> String {
        let outcome = self.settle(alloc, keys);
        self.note("", outcome);
        let verdict = self.verdict(alloc);
        self.begin_next(alloc);
        verdict.unwrap_or(String::new(alloc))
    }
}
