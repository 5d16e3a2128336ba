//! A request that several lists hold.
ghost use Rattle.std.specs.Prelude.{◌≡◌, IfOk};
ghost use Rattle.std.specs.Arc.{arc_value};

use crate::OutOfMemory;
use crate::request::Request;
use std::alloc::Global;
use std::marker::Model;
use std::sync::Arc;

/// A request that can be held several times without a copy: a round sends one request to many
/// nodes, and each history and record lists it. Contracts see it as the request. It is let go by
/// one call wherever it is, which keeps proofs short.
pub struct SharedRequest {
    request: Arc<Request, Global>,
}

impl Drop for SharedRequest {
    fn drop(self) {
        let SharedRequest { request } = self;
        drop(request);
    }
}

impl Model for SharedRequest {
    ghost use Rattle.journal_core.specs.declared.request.Request.{Request};
    ghost use Rattle.std.specs.Arc.{arc_value};

    ghost Value = { Request };

    ghost view = { λ s. arc_value s.request };
}

impl SharedRequest {
    /// That request, from now on shared.
    pub fn new(alloc: Global, request: Request) -> Result<SharedRequest, OutOfMemory>
        ensures { IfOk result (λ s. s ≡ request) }
    {
        let request = Arc::new(alloc, request)?;
        Ok(SharedRequest { request })
    }

    /// The request.
    pub fn get(&self) -> &Request
        ensures { result.now ≡ self.now }
    {
        &*self.request
    }

    /// Another holder of this request, without a copy of it. `OutOfMemory` is the only error.
    pub fn share(&self) -> Result<SharedRequest, OutOfMemory>
        ensures { IfOk result (λ s. s ≡ self.now) }
    {
        let request = Arc::try_clone(&self.request)?;
        Ok(SharedRequest { request })
    }
}
