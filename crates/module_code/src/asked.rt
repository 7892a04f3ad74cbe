//! What takes the requests of a local clock.
ghost use Rattle.std.specs.Prelude.{◌≡◌, ◌++◌, ◌∷◌, [], List as Items, map, OnErr, OnOk};
ghost use Rattle.module_code.specs.{Request as RequestOf, request_from};

use flow_design::Request;
use flow_word::{Access, List, OutOfMemory};

/// What takes the requests of a local clock, in commit order.
pub trait Asked {
    /// The requests that were taken.
    ghost requests: { Self → Items RequestOf };

    /// Forgets all requests.
    fn clear(&mut self)
        ensures { requests self.new ≡ [] };

    /// Takes one request more. After `OutOfMemory` it has the requests that it had.
    fn ask(&mut self, request: Request) -> Result<(), OutOfMemory>
        ensures asked { OnOk result (requests self.new ≡ requests self.old ++ request ∷ []) }
        ensures as_before { OnErr result (requests self.new ≡ requests self.old) };
}

impl Asked for List<Request> {
    ghost requests = { λ asked. asked };

    #[inline(always)]
    fn clear(&mut self) {
        self.truncate(0);
    }

    #[inline(always)]
    fn ask(&mut self, request: Request) -> Result<(), OutOfMemory> {
        self.push(request)
    }
}

/// Each access is a request. It has the ordinal 0 at first.
impl Asked for List<Access> {
    ghost requests = { λ asked. map request_from asked };

    #[inline(always)]
    fn clear(&mut self) {
        self.truncate(0);
    }

    #[inline(always)]
    fn ask(&mut self, request: Request) -> Result<(), OutOfMemory> {
        self.push(Access {
            kind: request.kind,
            channel: request.channel,
            ordinal: 0,
            value: request.value,
        })
    }
}
