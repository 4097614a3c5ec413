//! The terminal (`Live`) for tests and worlds. It may fail by running out of memory.

ghost use Rattle.std.specs.Prelude.{◌≡◌, ◌*◌, ◌↔◌, [], List, length, replicate, true, false, IsTrue, Some, None, option_map, IsSome, IfOk, OnOk, OnErr};
ghost use Rattle.std.specs.Prelude.{IsErrOf};
ghost use Rattle.bx_grid.specs.Columns as spec;
ghost use Rattle.bx_grid.specs.Picture.{is_size};
ghost use Rattle.bx_grid.specs.Terminal.{Terminal, reads, after_resize};
ghost use Rattle.bx_terminal.specs.Screens.{IfShown};

use crate::live::Live;
use bx_common::is_side;
use bx_grid::{GridError, Picture};
use std::alloc::Global;
use std::marker::Model;

/// A terminal. Once it runs out of memory, it has failed for good.
#[derive(Drop)]
pub struct Screen {
    /// The terminal; of no use once it has failed.
    live: Live,
    /// Whether memory has run out.
    failed: bool,
}

impl Model for Screen {
    ghost use Rattle.std.specs.Prelude.{Option};
    ghost use Rattle.bx_grid.specs.Terminal.{Terminal};

    ghost Value = { Option Terminal };

    ghost use Rattle.bx_terminal.specs.Screens.{terminal_if_live};

    ghost view = { terminal_if_live };
}

impl Screen {
    /// A terminal of this size, whose state is unknown.
    pub fn new(alloc: Global, height: u16, width: u16) -> Result<Screen, GridError>
        ensures ok { IfOk result (λ s. s ≡ Some (record {
          height = height;
          width = width;
          columns = replicate (height * width) spec.Unknown;
          position = None;
          negative = None;
          run = [];
          half_read = [];
        })) }
        ensures sized { OnOk result (is_size height width ≡ true) }
        ensures refused { IsErrOf result GridError.SizeOutOfRange ↔ (is_size height width ≡ false) }
    {
        if !is_side(height) || !is_side(width) {
            return Err(GridError::SizeOutOfRange);
        }
        Ok(Screen {
            live: Live::new(alloc, height, width)?,
            failed: false,
        })
    }

    /// Reads bytes. An error means that the terminal has run out of memory, now or before, and has failed.
    pub fn read(&mut self, bytes: &[u8]) -> Result<(), GridError>
        ensures ok { OnOk result (self.new ≡ option_map (λ t. reads t bytes.now) self.old) }
        ensures live { OnOk result (IsSome self.new) }
        ensures err { OnErr result (self.new ≡ None) }
        ensures memory { OnErr result (result ≡ Err GridError.OutOfMemory) }
        ensures failed { self.old ≡ None → self.new ≡ None }
    {
        if self.failed {
            return Err(GridError::OutOfMemory);
        }
        match self.live.read(bytes) {
            Ok(()) => Ok(()),
            Err(_) => {
                self.failed = true;
                Err(GridError::OutOfMemory)
            }
        }
    }

    /// Changes the window's size, which makes its content unknown.
    ///
    /// Errors: `SizeOutOfRange` where a side is not from 1 to 500, and nothing has changed; `OutOfMemory`, and the terminal has
    /// failed. A failed terminal returns `OutOfMemory` whatever the size.
    pub fn window(&mut self, height: u16, width: u16) -> Result<(), GridError>
        ensures ok { OnOk result (self.new ≡ option_map (λ t. after_resize t height width) self.old) }
        ensures live { OnOk result (IsSome self.new) }
        ensures refused { IsErrOf result GridError.SizeOutOfRange ↔ ((is_size height width ≡ false) × IsSome self.old) }
        ensures unchanged { IsErrOf result GridError.SizeOutOfRange → self.new ≡ self.old }
        ensures memory { IsErrOf result GridError.OutOfMemory → self.new ≡ None }
    {
        if self.failed {
            return Err(GridError::OutOfMemory);
        }
        let in_range = is_side(height) && is_side(width);
        if !in_range {
            return Err(GridError::SizeOutOfRange);
        }
        match self.live.resize(height, width) {
            Ok(()) => Ok(()),
            Err(_) => {
                self.failed = true;
                Err(GridError::OutOfMemory)
            }
        }
    }

    /// Whether the terminal shows the picture: nothing is half read, the sizes agree, each column is
    /// the picture's, the rendition is normal, and the position is the cursor's. A failed terminal
    /// shows none.
    pub fn shows(&self, picture: &Picture) -> bool
        ensures { IsTrue result ↔ IfShown self.now picture.now }
    {
        !self.failed && self.live.shows(picture)
    }
}
