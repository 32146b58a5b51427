//! The words of a command line.
ghost use Rattle.std.specs.Prelude.{◌≡◌, IfOk, map, drop, string_bytes};
ghost use Rattle.std.specs.Vec.Iter.{into_iter_items};

use crate::found::add_copy;
use crate::name::Name;
use std::alloc::Global;
use std::env;
use tor_arena::{List, NoMemory};

/// The words behind the program's name, the first of the arguments, in their order. NoMemory only where memory ran out.
pub fn words_of(alloc: Global, mut args: env::Args) -> Result<List<Name>, NoMemory>
    ensures { IfOk result (λ words. words ≡ map string_bytes (drop 1 (into_iter_items args))) }
{
    let mut words = List::new(alloc);
    let _program = args.next();
    for arg in args {
        let added = add_copy(alloc, &mut words, arg.as_str());
        drop(arg);
        if let Err(NoMemory) = added {
            drop(words);
            return Err(NoMemory);
        }
    }
    Ok(words)
}
