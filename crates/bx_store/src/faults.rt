//! The failed calls of a store.
ghost use Rattle.std.specs.Prelude.{◌≡◌};
ghost use Rattle.bx_store.specs.Stores.{no_faults};
ghost use Rattle.bx_store.specs.Faults.{with_fault};

use crate::store::StoreFault;

/// How many calls of a store failed, and why the latest did.
#[derive(Clone, Copy)]
pub struct Faults {
    /// At most the greatest u64.
    pub count: u64,
    /// None if no call failed.
    pub latest: Option<StoreFault>,
}

impl Faults {
    /// No failed call.
    pub fn none() -> Self
        ensures { result ≡ no_faults }
    {
        Faults {
            count: 0,
            latest: None,
        }
    }

    /// Counts one more.
    pub fn add(&mut self, fault: StoreFault)
        ensures { self.new ≡ with_fault fault self.old }
    {
        self.count = self.count.saturating_add(1);
        self.latest = Some(fault);
    }
}
