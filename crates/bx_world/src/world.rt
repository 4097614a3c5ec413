//! The world's state, and what can be read of it.

ghost use Rattle.std.specs.Prelude.{◌≡◌, ◌≤◌, ◌↔◌, true, false, IfErr, IfOk, IsTrue, IsUtf8, OnOk, length};
ghost use Rattle.bx_common.specs.Characters.{largest_text};
ghost use Rattle.bx_grid.specs.Picture.{is_size};
ghost use Rattle.bx_terminal.specs.Screens.{IfShown};
ghost use Rattle.bx_editor.specs.Editor.{Causes};
ghost use Rattle.bx_world.specs.Showing.{IsInStep, IsShownOn, StaysWhole, WillShow, picture_of};
ghost use Rattle.bx_session.specs.Session.{at_opening, with_clipboard, with_settings};
ghost use Rattle.bx_world.specs.World.{around};

use bx_common::Base;
use bx_keys::Decoder;
use bx_session::{OpenError, Session, Settings};
use bx_terminal::Screen;
use bx_ucd::BidiData;
use std::alloc::Global;
use std::marker::Model;

/// A session with the decoder of its input, the line (the bytes in transit to the terminal), the window's size, and the terminal. After
/// any steps, a terminal that has read the line and what is pending shows the picture last painted, if the session was told the window's
/// last size.
#[derive(Drop)]
pub struct World<D: BidiData + Drop> {
    // the session, whose pending bytes go to the line
    pub(crate) session: Session<D>,
    // what makes presses of the input's bytes
    pub(crate) decoder: Decoder,
    // the bytes sent to the terminal and not yet read by it
    pub(crate) line: Vec<u8>,
    // the window's rows and columns
    pub(crate) height: u16,
    pub(crate) width: u16,
    // the terminal, which fails for good once memory runs out for it
    pub(crate) screen: Screen,
    // whether the session was told the window's last size
    pub(crate) told: bool,
}

impl<D: BidiData + Drop> Model for World<D> {
    ghost use Rattle.bx_world.specs.Showing.{IsInStep, WorldState};

    ghost Value = { WorldState D };

    ghost view = { λ w. record {
      tables = w.session.tables;
      world = record {
        session = w.session.session;
        rest = w.decoder;
        line = w.line.items;
        height = w.height;
        width = w.width;
        screen = w.screen;
        told = w.told;
      };
    } };

    ghost invariant = { λ w. IsInStep (D.data w.session.tables) (record {
      session = w.session.session;
      rest = w.decoder;
      line = w.line.items;
      height = w.height;
      width = w.width;
      screen = w.screen;
      told = w.told;
    }) };
}

impl<D: BidiData + Drop> World<D> {
    /// Opens a file's bytes in a window of `height` rows and `width` columns, to work by these settings, with no bytes in transit and a
    /// terminal of unknown content. An error drops the bytes and the tables.
    ///
    /// Errors, in this order: `TooLong` above 16,777,216 bytes; `NotUtf8` with the length of the longest UTF-8 prefix;
    /// `SizeOutOfRange` if a side is not from 1 to 500; `OutOfMemory`.
    pub fn open(
        bytes: Vec<u8>,
        tables: D,
        height: u16,
        width: u16,
        base: Base,
        settings: Settings,
    ) -> Result<World<D>, OpenError>
        ensures ok { IfOk result (λ w. w ≡ record {
          tables = tables;
          world = around (with_settings (D.data tables) (at_opening (D.data tables) bytes.items height width base) settings) height width;
        }) }
        ensures short { OnOk result (length bytes.items ≤ largest_text) }
        ensures utf8 { OnOk result (IsUtf8 bytes.items) }
        ensures sized { OnOk result (is_size height width ≡ true) }
        ensures refused { IfErr result (Causes bytes.items height width) }
    {
        let alloc = *bytes.allocator();
        let mut session = Session::open(bytes, tables, height, width, base)?;
        let Ok(()) = session.set(settings) else {
            return Err(OpenError::OutOfMemory);
        };
        let Ok(screen) = Screen::new(alloc, height, width) else {
            return Err(OpenError::OutOfMemory);
        };
        Ok(World {
            session,
            decoder: Decoder::new(),
            line: Vec::new(alloc),
            height,
            width,
            screen,
            told: true,
        })
    }

    /// From now on text that is copied or cut also goes out to the terminal's clipboard. Allocates nothing.
    pub fn use_clipboard(&mut self)
        ensures { self.new ≡ record self.old { world = record self.old.world { session = with_clipboard self.old.world.session } } }
    {
        self.session.use_clipboard();
    }

    /// The session.
    pub fn session(&self) -> &Session<D>
        ensures session { result.now.session ≡ self.now.world.session }
        ensures tables { result.now.tables ≡ self.now.tables }
    {
        &self.session
    }

    /// The bytes sent to the terminal and not yet read by it.
    pub fn line(&self) -> &[u8]
        ensures { result.now ≡ self.now.world.line }
    {
        &self.line
    }

    /// Whether the session was told the window's last size.
    pub fn is_told(&self) -> bool
        ensures { result ≡ self.now.world.told }
    {
        self.told
    }

    /// Whether the terminal shows the picture last painted: the state's picture, unless a painting is owed. Allocates nothing.
    pub fn shows(&self) -> bool
        ensures painted { IsTrue result ↔ IsShownOn self.now.world.session.painted self.now.world.screen }
        ensures state { self.now.world.session.painting_owed ≡ false
            → (IsTrue result ↔ IfShown self.now.world.screen (picture_of (D.data self.now.tables) self.now.world.session)) }
    {
        self.keep_up();
        match self.session.painted() {
            Some(picture) => self.screen.shows(picture),
            None => false,
        }
    }

    /// The invariant of all steps: the terminal will show the picture last painted. It does nothing: a call brings the invariant
    /// into a proof.
    pub(crate) fn keep_up(&self)
        ensures in_step { IsInStep (D.data self.now.tables) self.now.world }
    {
        let _ = &self.session;
    }
}
