//! The list of the distinct paths, written a line at a time.

ghost use Rattle.std.specs.Prelude.{◌≡◌, ◌<◌, ◌++◌, Some, OnOk, OnErr, length, slice_get};
ghost use Rattle.std.specs.Io.KnownBytes.{append_known};
ghost use Rattle.tor_io.specs.Counts.{HasCause};
ghost use Rattle.tor_io.specs.Contents.{GainsPrefix, PassesOn};
ghost use Rattle.tor_output.specs.Listing.{list_line, listing};

use path_order::DistinctPaths;
use tor_arena::{Index, PathId};
use tor_io::{Buffer, Failed, Sink};

// Puts the line of a path behind what waits in the buffer. Failed: a write failed, and out took a prefix of both.
fn put_line<O: Sink>(
    out: &mut O,
    buffer: &mut Buffer,
    times: u64,
    path: &[u32],
) -> Result<(), Failed>
    ensures all { OnOk result (PassesOn (O.held out.old) (O.held out.new) buffer.new
        (buffer.old ++ list_line (record { path = path.now; times = times }))) }
    ensures prefix { OnErr result (GainsPrefix (O.held out.old) (O.held out.new)
        (buffer.old ++ list_line (record { path = path.now; times = times }))) }
    ensures cause { HasCause (O.faults out.old) (O.faults out.new) result }
{
    buffer.put_row(out, times, b'|', b' ', path, b'\n')
}

// The times in a place.
fn times_at(times: &[u64], place: usize) -> u64
    requires { place < length times.now }
    ensures { slice_get times.now place ≡ Some result }
{
    times[place]
}

/// Writes what waits in the buffer, and then the list of the distinct paths. Failed: a write failed, and out took a prefix of both.
/// It takes no memory.
pub(crate) fn write_list<O: Sink>(
    out: &mut O,
    buffer: &mut Buffer,
    paths: &DistinctPaths,
) -> Result<(), Failed>
    ensures all { OnOk result (O.held out.new ≡ append_known (O.held out.old) (buffer.old ++ listing paths.now)) }
    ensures prefix { OnErr result (GainsPrefix (O.held out.old) (O.held out.new) (buffer.old ++ listing paths.now)) }
    ensures cause { HasCause (O.faults out.old) (O.faults out.new) result }
{
    let rows = paths.rows();
    let times = paths.times();
    for place in 0..rows.len() {
        let Some(id) = PathId::from_place(place) else {
            unreachable!();
        };
        put_line(out, buffer, times_at(times, place), rows.row(id))?;
    }
    buffer.flush(out)
}
