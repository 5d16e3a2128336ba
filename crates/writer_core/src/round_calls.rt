//! The calls that a round still makes.
ghost use Rattle.std.specs.Prelude.{◌≡◌};

use journal_core::SharedRequest;
use std::marker::Model;

/// The nodes that a round still calls, in order, and what it asks them.
#[derive(Drop)]
pub struct RoundCalls {
    nodes: Vec<usize>,
    request: SharedRequest,
}

impl Model for RoundCalls {
    ghost use Rattle.writer_core.specs.CallsView.{CallsView};

    ghost Value = { CallsView };

    ghost view = { λ c. record { nodes = c.nodes.items; request = c.request } };
}

impl RoundCalls {
    pub(crate) fn new(nodes: Vec<usize>, request: SharedRequest) -> RoundCalls
        ensures { result ≡ record { nodes = nodes.items; request = request } }
    {
        RoundCalls { nodes, request }
    }

    /// The nodes, from 1, in the order of the calls.
    pub fn nodes(&self) -> &[usize]
        ensures { result.now ≡ self.now.nodes }
    {
        self.nodes.as_slice()
    }

    /// What each of them is asked.
    pub fn request(&self) -> &SharedRequest
        ensures { result.now ≡ self.now.request }
    {
        &self.request
    }
}
