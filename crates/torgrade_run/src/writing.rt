//! What a grading writes, a line at a time.
//!
//! Totals are counted while lines go out, since a second pass would grade each path twice.
ghost use Rattle.std.specs.Prelude.{◌≡◌, ◌⊎◌, ◌++◌, OnOk, OnErr, IfOk};
ghost use Rattle.std.specs.Io.KnownBytes.{append_known};
ghost use Rattle.tor_io.specs.Counts.{HasCause};
ghost use Rattle.tor_io.specs.Contents.{GainsPrefix, PassesOn};
ghost use Rattle.run_base.specs.Answers.{note_in};
ghost use Rattle.run_base.specs.Frames.{RunLeavesOut};
ghost use Rattle.run_base.specs.Notes.{plain_note};
ghost use Rattle.torgrade_run.specs.GradeText.{grade_line, graded_lines, grades_of, grades_text, totals_of, totals_line, cone_text};
ghost use Rattle.torgrade_run.specs.Grading.{text_of};

use crate::asking::Graded;
use crate::cones::Cone;
use crate::totals::{Totals, with_grade};
use as_rel::{Grade, Rel, grade_path};
use path_table::PathTable;
use run_base::{Answer, Piece, Status, put_pieces};
use std::alloc::Global;
use tor_arena::{Index, PathId};
use tor_io::{Buffer, Failed, Sink};

// Each function puts something behind what waits in the buffer. Failed: a write failed, and out took a prefix of both. It takes no
// memory.
fn put_grade_line<O: Sink>(
    out: &mut O,
    buffer: &mut Buffer,
    times: u64,
    path: &[u32],
    grade: Grade,
) -> Result<(), Failed>
    ensures all { OnOk result (PassesOn (O.held out.old) (O.held out.new) buffer.new
        (buffer.old ++ grade_line (record { path = path.now; times = times }) grade)) }
    ensures prefix { OnErr result (GainsPrefix (O.held out.old) (O.held out.new)
        (buffer.old ++ grade_line (record { path = path.now; times = times }) grade)) }
    ensures cause { HasCause (O.faults out.old) (O.faults out.new) result }
{
    let times = Piece::Number(times);
    let path = Piece::Numbers(path);
    let bar = Piece::Word(b"|");
    let end = Piece::Word(b"\n");
    match grade {
        Grade::Free => put_pieces(out, buffer, &[Piece::Word(b"free|"), times, bar, path, end]),
        Grade::Valley(step) => {
            let step = Piece::Number(u64::from(step));
            let word = Piece::Word(b"valley|");
            put_pieces(out, buffer, &[word, times, bar, path, bar, step, end])
        }
        Grade::Unknown(step) => {
            let step = Piece::Number(u64::from(step));
            let word = Piece::Word(b"unknown|");
            put_pieces(out, buffer, &[word, times, bar, path, bar, step, end])
        }
    }
}

// The line of each path with its grade. It answers how many paths have each.
fn put_grade_lines<O: Sink>(
    out: &mut O,
    buffer: &mut Buffer,
    rel: &Rel,
    table: &PathTable,
) -> Result<Totals, Failed>
    ensures all { OnOk result (PassesOn (O.held out.old) (O.held out.new) buffer.new
        (buffer.old ++ graded_lines rel.now table.now.rows)) }
    ensures prefix { OnErr result (GainsPrefix (O.held out.old) (O.held out.new)
        (buffer.old ++ graded_lines rel.now table.now.rows)) }
    ensures totals { IfOk result (λ totals. totals ≡ totals_of (grades_of rel.now table.now.rows)) }
    ensures cause { HasCause (O.faults out.old) (O.faults out.new) result }
{
    let rows = table.rows();
    let mut totals = Totals {
        free: 0,
        valleys: 0,
        unknown: 0,
    };
    for place in 0..table.len() {
        let Some(id) = PathId::from_place(place) else {
            unreachable!();
        };
        let path = rows.row(id);
        let grade = grade_path(rel, path);
        put_grade_line(out, buffer, table.times(id), path, grade)?;
        totals = with_grade(totals, grade);
    }
    Ok(totals)
}

// How many paths have each grade.
fn put_totals<O: Sink>(out: &mut O, buffer: &mut Buffer, totals: Totals) -> Result<(), Failed>
    ensures all { OnOk result (PassesOn (O.held out.old) (O.held out.new) buffer.new (buffer.old ++ totals_line totals)) }
    ensures prefix { OnErr result (GainsPrefix (O.held out.old) (O.held out.new) (buffer.old ++ totals_line totals)) }
    ensures cause { HasCause (O.faults out.old) (O.faults out.new) result }
{
    let bar = Piece::Word(b"|");
    let pieces = [
        Piece::Word(b"grade|"),
        Piece::Number(totals.free),
        bar,
        Piece::Number(totals.valleys),
        bar,
        Piece::Number(totals.unknown),
        Piece::Word(b"\n"),
    ];
    put_pieces(out, buffer, &pieces)
}

// The lines of all paths, and the totals.
fn put_grades<O: Sink>(
    out: &mut O,
    buffer: &mut Buffer,
    rel: &Rel,
    table: &PathTable,
) -> Result<(), Failed>
    ensures all { OnOk result (PassesOn (O.held out.old) (O.held out.new) buffer.new
        (buffer.old ++ grades_text rel.now table.now.rows)) }
    ensures prefix { OnErr result (GainsPrefix (O.held out.old) (O.held out.new)
        (buffer.old ++ grades_text rel.now table.now.rows)) }
    ensures cause { HasCause (O.faults out.old) (O.faults out.new) result }
{
    let totals = put_grade_lines(out, buffer, rel, table)?;
    put_totals(out, buffer, totals)
}

// The line of the cone, if one is asked for.
fn put_cone<O: Sink>(out: &mut O, buffer: &mut Buffer, cone: &Option<Cone>) -> Result<(), Failed>
    ensures all { OnOk result (PassesOn (O.held out.old) (O.held out.new) buffer.new (buffer.old ++ cone_text cone.now)) }
    ensures prefix { OnErr result (GainsPrefix (O.held out.old) (O.held out.new) (buffer.old ++ cone_text cone.now)) }
    ensures cause { HasCause (O.faults out.old) (O.faults out.new) result }
{
    match cone {
        None => Ok(()),
        Some(cone) => {
            let pieces = [
                Piece::Word(b"cone|"),
                Piece::Number(u64::from(cone.of)),
                Piece::Word(b"|"),
                Piece::Numbers(cone.members.as_slice()),
                Piece::Word(b"\n"),
            ];
            put_pieces(out, buffer, &pieces)
        }
    }
}

// All that is asked for.
fn put_all<O: Sink>(out: &mut O, buffer: &mut Buffer, graded: &Graded) -> Result<(), Failed>
    ensures all { OnOk result (PassesOn (O.held out.old) (O.held out.new) buffer.new (buffer.old ++ text_of graded.now)) }
    ensures prefix { OnErr result (GainsPrefix (O.held out.old) (O.held out.new) (buffer.old ++ text_of graded.now)) }
    ensures cause { HasCause (O.faults out.old) (O.faults out.new) result }
{
    put_grades(out, buffer, &graded.known.rel, &graded.taken.table)?;
    put_cone(out, buffer, &graded.known.cone)
}

// All of it, and none waits behind it.
fn write_all_of<O: Sink>(out: &mut O, buffer: &mut Buffer, graded: &Graded) -> Result<(), Failed>
    ensures all { OnOk result (O.held out.new ≡ append_known (O.held out.old) (buffer.old ++ text_of graded.now)) }
    ensures prefix { OnErr result (GainsPrefix (O.held out.old) (O.held out.new) (buffer.old ++ text_of graded.now)) }
    ensures cause { HasCause (O.faults out.old) (O.faults out.new) result }
{
    put_all(out, buffer, graded)?;
    buffer.flush(out)
}

/// Writes what is asked for. All memory is taken before.
pub(crate) fn write_graded<O: Sink>(alloc: Global, graded: &Graded, out: &mut O) -> Answer
    ensures status { (result.status ≡ Status.Done) ⊎ ((result.status ≡ Status.WriteFault) ⊎ (result.status ≡ Status.NoMemory)) }
    ensures done { result.status ≡ Status.Done → O.held out.new ≡ append_known (O.held out.old) (text_of graded.now) }
    ensures cut_off { result.status ≡ Status.WriteFault → GainsPrefix (O.held out.old) (O.held out.new) (text_of graded.now) }
    ensures nothing { result.status ≡ Status.NoMemory → out.new ≡ out.old }
    ensures note { note_in result ≡ plain_note result.status }
    ensures leaves_out { RunLeavesOut O.Sink result.status out.old out.new }
{
    let Ok(mut buffer) = Buffer::new(alloc) else {
        return Answer::plain(Status::NoMemory);
    };
    match write_all_of(out, &mut buffer, graded) {
        Ok(()) => Answer::plain(Status::Done),
        Err(Failed) => Answer::plain(Status::WriteFault),
    }
}
