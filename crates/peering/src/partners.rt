//! For each edge some others that can be no peering beside it.
ghost use Rattle.std.specs.Prelude.{◌≡◌, ◌↔◌, ◌<◌, ◌∷◌, [], ℕ, length, replicate, slice_index_or, slice_set, IsTrue, IfOk, OnOk};
ghost use Rattle.relationships.specs.declared.label.Label.{Label};
ghost use Rattle.peering.specs.Peerings.{NoPeers};

use relationships::Label;
use std::alloc::Global;
use std::marker::Model;
use tor_arena::{EdgeId, Index, NoMemory};

/// A link in the chain of an edge: another edge, and by one more than its place the next link, 0 behind the last.
#[derive(Clone, Copy)]
struct Link {
    partner: u32,
    next: u32,
}

/// For each edge its partners, which can be no peerings beside it, in a chain of links that begins with the last one added.
#[derive(Drop)]
pub(crate) struct Partners {
    // one more than the place of the first link of each edge, 0 where there is none
    heads: Vec<u32>,
    links: Vec<Link>,
}

impl Model for Partners {
    ghost use Rattle.std.specs.Prelude.{ℕ, List, map};
    ghost use Rattle.peering.specs.Chains.{chain, AreChains};

    ghost Value = { List (List ℕ) };

    ghost view = { λ partners. map (chain partners.links.items) partners.heads.items };

    ghost invariant = { λ partners. AreChains partners.heads.items partners.links.items };
}

/// How many links there may be.
const MOST_LINKS: usize = 1 << 31;

impl Partners {
    /// No partners, for so many edges.
    pub fn new(alloc: Global, count: usize) -> Result<Partners, NoMemory>
        ensures { IfOk result (λ partners. partners ≡ replicate count []) }
    {
        let mut heads = Vec::new(alloc);
        heads.resize(count, 0)?;
        Ok(Partners {
            heads,
            links: Vec::new(alloc),
        })
    }

    /// Adds a partner of an edge. Where memory runs out, or there are 2^31 partners of all edges, nothing changes.
    pub fn add(&mut self, edge: EdgeId, partner: EdgeId) -> Result<(), NoMemory>
        requires edge { edge < length self.old }
        requires partner { partner < length self.old }
        ensures length { length self.new ≡ length self.old }
        ensures added { OnOk result (self.new ≡ slice_set self.old edge (partner ∷ slice_index_or self.old edge [])) }
    {
        let count = self.links.len();
        if count >= MOST_LINKS {
            return Err(NoMemory);
        }
        let next = self.heads[edge.place()];
        let partner = partner.place() as u32;
        self.links.push(Link { partner, next })?;
        self.heads[edge.place()] = count as u32 + 1;
        Ok(())
    }

    /// Whether no partner of an edge is a peering under the labels. It takes no memory.
    pub fn are_no_peers(&self, edge: EdgeId, labels: &[Label]) -> bool
        requires edge { edge < length self.now }
        requires labels { length labels.now ≡ length self.now }
        ensures { IsTrue result ↔ NoPeers labels.now (slice_index_or self.now edge []) }
    {
        let mut at = self.heads[edge.place()];
        while at > 0 {
            let link = self.links[at as usize - 1];
            if labels[link.partner as usize] == Label::Peer {
                return false;
            }
            at = link.next;
        }
        true
    }
}
