//! The reading of a text that comes in pieces.
ghost use Rattle.std.specs.Prelude.{◌≡◌, ◌<◌, ◌≤◌, ◌++◌, [], true, length, take, drop, List as Items, ℕ, IfOk, IfErr, OnOk};
ghost use Rattle.result_text.specs.Grammar.{IsTextOf};
ghost use Rattle.result_text.specs.Refusal.{Refuses};
ghost use Rattle.result_text.specs.Taking.{feedless, AreWhole, IsAt, HasCome, HasTaken, Takes};

use crate::draft::Draft;
use crate::error::{LineError, ParseError};
use crate::file::ResultFile;
use crate::next_line::{Scratch, next_line, next_long};
use std::alloc::Global;
use std::mem;
use tor_arena::{List, NoMemory};

/// A text that is read while its octets come, in pieces of any length.
#[derive(Drop)]
pub struct Parser {
    draft: Draft,
    scratch: Scratch,
    // the octets behind the last line feed
    start: List<u8>,
    // the number of the line that they begin, or of the bad line
    line: u64,
    // whether this line is bad, whatever follows
    bad: bool,
}

/// How many of the octets are whole lines.
fn whole_lines(octets: &[u8]) -> usize
    ensures within { result ≤ length octets.now }
    ensures whole { AreWhole (take result octets.now) }
    ensures rest { feedless (drop result octets.now) ≡ true }
{
    let mut end = octets.len();
    'back: while end > 0 {
        if octets[end - 1] == b'\n' {
            return end;
        }
        end -= 1;
    }
    end
}

/// Reads whole lines into the draft, up to a bad one. The line is the number of the first, and then of the one behind the last, or of the
/// bad one.
fn read_lines(
    alloc: Global,
    draft: &mut Draft,
    scratch: &mut Scratch,
    line: &mut u64,
    lines: &[u8],
) -> Result<(), LineError>
    requires whole { AreWhole lines.now }
    ensures { (octets : Items ℕ) → IsAt line.old draft.old octets lines.now → HasCome line.new draft.new octets result }
{
    let mut rest = lines;
    'lines: while !rest.is_empty() {
        rest = next_line(alloc, draft, scratch, rest)?;
        let Some(next) = line.checked_add(1) else {
            return Err(LineError::NoMemory);
        };
        *line = next;
    }
    Ok(())
}

/// How many octets have to wait for the line feed of a line that is taken to be long.
const LONG: usize = 1 << 16;

/// The same for whole lines of which the first is long, and which are let go.
fn read_long(
    alloc: Global,
    draft: &mut Draft,
    scratch: &mut Scratch,
    line: &mut u64,
    lines: &mut List<u8>,
) -> Result<(), LineError>
    requires some { 0 < length lines.old }
    requires whole { AreWhole lines.old }
    ensures { (octets : Items ℕ) → IsAt line.old draft.old octets lines.old → HasCome line.new draft.new octets result }
{
    next_long(alloc, draft, scratch, lines)?;
    let Some(next) = line.checked_add(1) else {
        return Err(LineError::NoMemory);
    };
    *line = next;
    read_lines(alloc, draft, scratch, line, lines.as_slice())
}

impl Parser {
    /// Nothing has come. It takes no memory.
    pub fn new(alloc: Global) -> Parser
        ensures { HasTaken result [] }
    {
        Parser {
            draft: Draft::new(alloc),
            scratch: Scratch::new(alloc),
            start: List::new(alloc),
            line: 1,
            bad: false,
        }
    }

    // Reads whole lines, of which the first begins with the octets that wait.
    fn read_on(&mut self, alloc: Global, octets: &[u8]) -> Result<(), LineError>
        requires some { 0 < length octets.now }
        requires whole { AreWhole octets.now }
        ensures come { (before : Items ℕ) → IsAt self.old.line self.old.draft before self.old.start →
            HasCome self.new.line self.new.draft (before ++ octets.now) result }
        ensures read { OnOk result (self.new.start ≡ []) }
        ensures course { self.new.bad ≡ self.old.bad }
    {
        if self.start.is_empty() {
            return read_lines(
                alloc,
                &mut self.draft,
                &mut self.scratch,
                &mut self.line,
                octets,
            );
        }
        let long = self.start.len() >= LONG;
        self.start.extend_from_slice(octets)?;
        let mut lines = mem::replace(&mut self.start, List::new(alloc));
        if long {
            let done = read_long(
                alloc,
                &mut self.draft,
                &mut self.scratch,
                &mut self.line,
                &mut lines,
            );
            drop(lines);
            return done;
        }
        let done = read_lines(
            alloc,
            &mut self.draft,
            &mut self.scratch,
            &mut self.line,
            lines.as_slice(),
        );
        drop(lines);
        done
    }

    // Puts octets with no line feed behind those that wait.
    fn wait_for(&mut self, octets: &[u8]) -> Result<(), NoMemory>
        requires { feedless octets.now ≡ true }
        ensures { OnOk result (Takes self.old self.new octets.now) }
    {
        self.start.extend_from_slice(octets)?;
        Ok(())
    }

    /// Takes the octets that come next. Behind a bad line they are let go. The only error is that memory ran out, and then the parser
    /// is of no use.
    pub fn take(&mut self, alloc: Global, octets: &[u8]) -> Result<(), NoMemory>
        ensures { OnOk result (Takes self.old self.new octets.now) }
    {
        if self.bad {
            return Ok(());
        }
        let whole = whole_lines(octets);
        if whole == 0 {
            return self.wait_for(octets);
        }
        match self.read_on(alloc, &octets[..whole]) {
            Ok(()) => self.wait_for(&octets[whole..]),
            Err(LineError::Bad) => {
                self.bad = true;
                Ok(())
            }
            Err(LineError::NoMemory) => Err(NoMemory),
        }
    }

    /// The result whose text has come. BadLine comes only where the octets are no text, and names their bad line: the first n lines
    /// don't stand there or begin no text, and n is the least such number. It takes no memory.
    pub fn finish(self) -> Result<ResultFile, ParseError>
        ensures text { IfOk result (λ file. (octets : Items ℕ) → HasTaken self octets → IsTextOf file octets) }
        ensures refused { IfErr result (λ error. (octets : Items ℕ) → HasTaken self octets → Refuses error octets) }
    {
        let line = self.line;
        if self.bad || !self.start.is_empty() {
            drop(self);
            return Err(ParseError::BadLine(line));
        }
        match self.into_draft().finish() {
            Some(file) => Ok(file),
            None => Err(ParseError::BadLine(line)),
        }
    }

    // What is read so far, without what it was read with.
    fn into_draft(self) -> Draft
        ensures { result ≡ self.draft }
    {
        let Parser {
            draft,
            scratch,
            start,
            ..
        } = self;
        drop(scratch);
        drop(start);
        draft
    }
}
