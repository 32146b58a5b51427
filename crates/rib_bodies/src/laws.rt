//! The laws of the definitions. Each is the contract of a function that does nothing.
ghost use Rattle.rib_bodies.specs.Encoding.{PeerTableLaw, RibLaw};
ghost use Rattle.rib_bodies.specs.Faults.{CutFaultLaw, TailFaultLaw};
ghost use Rattle.rib_bodies.specs.TableDumpEncoding.{TableDumpLaw};
ghost use Rattle.rib_bodies.specs.ValueEncoding.{NamedPeersLaw, OriginLaw};

/// A body gives a route of these attributes exactly if it is the encoding of a TABLE_DUMP record with them (RFC 6396, section 4.2).
pub fn table_dump_law()
    ensures { TableDumpLaw }
{}

/// A body gives this peer table exactly if it is the encoding of one with so many peers (RFC 6396, section 4.3.1).
pub fn peer_table_law()
    ensures { PeerTableLaw }
{}

/// Behind a table of so many peers, a body gives these entries exactly if it is the encoding of a RIB with them (RFC 6396,
/// sections 4.3.2 and 4.3.4; RFC 8050, section 4).
pub fn rib_law()
    ensures { RibLaw }
{}

/// Which fault a body has: `Tail` exactly if a proper prefix of it encodes a body; `Cut` only if octets behind it could give another
/// answer, while every other fault stays, whatever follows.
pub fn fault_law()
    ensures tail { TailFaultLaw }
    ensures cut { CutFaultLaw }
{}

/// A body names these peers exactly if it is the encoding of a peer table with them, and a table has as many peers as it names (RFC 6396,
/// section 4.3.1).
pub fn named_peers_law()
    ensures { NamedPeersLaw }
{}

/// The prefix of a RIB, and the prefix and the peer of a TABLE_DUMP record, are those of the fields of its body (RFC 6396, sections 4.2
/// and 4.3.2; RFC 8050, section 4).
pub fn origin_law()
    ensures { OriginLaw }
{}
