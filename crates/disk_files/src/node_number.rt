//! The numbers that a node keeps in files.
ghost use Rattle.std.specs.Prelude.{◌≡◌};
ghost use Rattle.disk_files.specs.Durable.{number_name};

/// A number of a node that has a file of its own.
#[derive(Clone, Copy)]
pub enum NodeNumber {
    /// The greatest epoch that it promised.
    Promised,
    /// The epoch of the writer that began a segment last.
    Writer,
    /// The committed txid that it stored.
    Committed,
}

impl NodeNumber {
    /// The name of its file.
    pub fn name(self) -> &'static str
        ensures { result.now ≡ number_name self }
    {
        match self {
            NodeNumber::Promised => "last-promised-epoch",
            NodeNumber::Writer => "last-writer-epoch",
            NodeNumber::Committed => "committed-txid",
        }
    }
}
