//! The law of requests to read under managing nodes.
ghost use Rattle.proof_table.specs.waiting.Readers.{ReadersComeFirst};

/// Requests to read come before requests to write. This is a fact, and the call does nothing.
///
/// Under managing nodes, elsewhere than at the node that manages the page, each request to read is at a node that claims
/// the page, so that it is served where it is; it was sent there by the managing node; and it comes before each request
/// to write there. And nobody asks a node to read whose own request to write is still at the managing node. Each step of
/// the table of coherence events keeps it so, of nets that are orderly, and in which the requests to write are where the
/// managing nodes look for them.
pub fn readers_come_first()
    ensures { ReadersComeFirst }
{}
