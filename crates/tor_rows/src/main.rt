// Runs `infer`, `check`, `grade`, `hunt`, `rank`, `why` and `view` over files and streams in memory, as the rows on standard input say, and prints
// of each row its name and `ok`, or what differs.
//
// A row is a block of lines between empty lines, and begins with `row NAME`. The first word of a line says what it is; a line that begins
// with `#` is a comment, of which one begins with `# source:` and says where the row has what it expects from. A block without a name
// puts common files, and is no row. Octets and numbers are decimal. A line that isn't understood, and a row without a run, are told.
//
// What builds a file. It begins empty, and each of these puts something behind what is there.
//   octets 0 0 0 12         these octets
//   text LINE               this line of a text, with its LF
//   text-part TEXT          the same without the LF
//   route 10 20 {30 40}     a TABLE_DUMP_V2 RIB of one route with this AS_PATH, {..} being an AS_SET. Before the first of a file stands a
//                           table of one peer, 192.0.2.2 of AS 10 (33 octets). RIBs are of 10.0.1.0/24, entries of peer 0 with ORIGIN.
//   route 10 20, 30 40      the same with an entry for each path
//   routes 5000             the same with so many entries, whose paths are 10 100001, 10 100002 and so on
//   peers                   that table of one peer
//   v1 route 10 20          a TABLE_DUMP record of the prefix 10.0.0.0/8 of peer 192.0.2.1, AS 10, with this AS_PATH alone
//   v1 route 10 23456 as4 10 70000    the same with an AS4_PATH behind it
//   v1 attributes 64 1 1 0  the same with these octets for attributes
//   like NAME               what the file of this name holds
//   instead 3 LINE          the third line of what is built becomes this one
//   insert 3 LINE           this line is put before the third one
//   remove 3                the third line is taken out
//   file NAME               puts what was built under this name, for this row; the next file begins empty
//   common NAME             the same for all rows behind it; it stands in a block without a name
//   keep NAME               puts under this name what the run above wrote to out
//   hollow 256 4294967296   every name opens a file of so many records of type 99, of so many octets each, of which only headers are made
//
// What befalls the runs behind it. Calls are counted from 1; those on files are opens and reads.
//   octets-a-read 1         a read gives at most so many octets
//   out-takes 20            a write to out takes at most so many octets
//   read-fails-at 3         the third call on files fails
//   write-fails-at 2        the second write to out fails
//   note-fails-at 1         the first write to err fails
//
// A run, and behind it what is expected of it: what isn't named is empty.
//   tor --list d            infer with these words
//   torcheck r d            check with these words
//   torgrade r d            grade with these words
//   torleak r d             hunt leaks with these words
//   torrank --cones r       rank with these words
//   torwhy r 10 20          tell with these words
//   torview r 10            draw with these words
//   status 0                the status of the run; each run has such a line
//   out LINE                a line that is written to out
//   out-part TEXT           the same without LF
//   out-like NAME           what the file of this name holds is written to out
//   err LINE                a line that is written to err
//   evidence-aside          the why and open lines, and the walks of lost paths and leaks, are left out of both texts before they are
//                           compared
//   calls 3                 so many calls on files are made
//
// The same run again, with one thing changed; out stays empty but for writes. These lines stand behind those above.
//   failing-read 1 to 3 status 4 err NOTE    where one of these calls on files fails; the ranges follow each other, from 1. Where one
//                           of the next four would fail, all is as above: the run doesn't come to it.
//   each-failing-write status 5 err NOTE     where one write to out fails, each in turn: out then holds what the writes before it took
//   cut-to 1 to 11 status 3 err NOTE         over the first so many octets of the last file that was put: 1, 2 and so on
#![tactic(auto)]

mod building;
mod conditions;
mod files;
mod hollow;
mod octets;
mod records;
mod refused;
mod row;
mod runs;
mod texts;
mod wanted;

use row::Row;
use std::io;
use tor_arena::Keys;

// Ends the row, and prints what is to be said of it.
fn end(rt: &HostRuntime, row: &mut Row) -> io::Result<()> {
    let text = row.end(rt.alloc(), Keys::new(rt));
    rt.stdout().write_all(text.as_bytes())
}

fn take(rt: &HostRuntime, row: &mut Row, line: &str) -> io::Result<()> {
    if line.is_empty() {
        return end(rt, row);
    }
    row.take(rt.alloc(), Keys::new(rt), line);
    Ok(())
}

fn take_all(rt: &HostRuntime, row: &mut Row) -> io::Result<()> {
    for line in rt.lines(rt.alloc()) {
        take(rt, row, line?.as_str())?;
    }
    end(rt, row)
}

fn main(rt: HostRuntime) -> io::Result<()> {
    let mut row = Row::new(rt.alloc());
    take_all(&rt, &mut row)
}
