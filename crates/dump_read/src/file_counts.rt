//! What a file holds, by count.
ghost use Rattle.std.specs.Prelude.{◌≡◌, ◌+◌, [], IfOk};
ghost use Rattle.record_counts.specs.Counting.{capped};
ghost use Rattle.dump_read.specs.Files.{together};

use record_counts::RecordCounts;
use std::alloc::Global;
use tor_arena::NoMemory;

/// What a file holds, by count, whether it is taken in or not. Each count stops at 2^64 - 1.
#[derive(Drop)]
pub struct FileCounts {
    /// Its records by type and subtype, those that are passed over among them.
    pub records: RecordCounts,
    /// The peer entries of its peer tables.
    pub peers: u64,
    /// The routes of its records that are read, those that count.
    pub routes: u64,
}

impl FileCounts {
    /// Nothing. It takes no memory.
    pub(crate) fn new(alloc: Global) -> FileCounts
        ensures { result ≡ record { records = []; peers = 0; routes = 0 } }
    {
        FileCounts {
            records: RecordCounts::new(alloc),
            peers: 0,
            routes: 0,
        }
    }

    /// What files hold together. The only error is that memory ran out.
    #[tactic(auto, unfolding(crate::specs::Files::with_all))]
    pub fn sum_of(alloc: Global, files: &[FileCounts]) -> Result<FileCounts, NoMemory>
        ensures { IfOk result (λ all. all ≡ together files.now) }
    {
        let mut all = FileCounts::new(alloc);
        for file in files {
            if let Err(error) = all.records.add_all(&file.records) {
                drop(all);
                return Err(error);
            }
            all.add(file.peers, file.routes);
        }
        Ok(all)
    }

    /// Counts so many peer entries and so many routes more. It takes no memory.
    pub(crate) fn add(&mut self, peers: u64, routes: u64)
        ensures { self.new ≡ record self.old { peers = capped (self.old.peers + peers); routes = capped (self.old.routes + routes) } }
    {
        self.peers = self.peers.saturating_add(peers);
        self.routes = self.routes.saturating_add(routes);
    }
}
