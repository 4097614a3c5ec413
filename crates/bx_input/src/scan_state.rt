//! The state between two typed bytes, by `specs/Scan.antt`.

ghost use Rattle.std.specs.Prelude.{◌≡◌, IfOk};
ghost use Rattle.bx_input.specs.Models.{state_of};

use crate::paste_tail::PasteTail;
use std::alloc::AllocError;

/// The state between two typed bytes.
#[derive(Drop)]
pub enum ScanState {
    /// Outside a paste.
    Outside {
        /// The bytes that wait: they begin a known sequence.
        waiting: Vec<u8>,
    },
    /// Within a paste, right after a CR or not.
    Within {
        /// The bytes that wait.
        waiting: PasteTail,
        /// Whether the last byte was a CR; then an LF is dropped.
        after_return: bool,
    },
}

impl ScanState {
    /// A copy of this state.
    pub fn copied(&self) -> Result<ScanState, AllocError>
        ensures { IfOk result (λ copy. state_of copy ≡ state_of self.now) }
    {
        match self {
            ScanState::Outside { waiting } => {
                let mut copy = Vec::new(*waiting.allocator());
                copy.extend_from_slice(waiting)?;
                Ok(ScanState::Outside { waiting: copy })
            }
            ScanState::Within {
                waiting,
                after_return,
            } => Ok(ScanState::Within {
                waiting: *waiting,
                after_return: *after_return,
            }),
        }
    }
}
