//! Opening a session.

ghost use Rattle.std.specs.Prelude.{◌≡◌, ◌≤◌, [], true, None, IfErr, IfOk, IsUtf8, OnErr, OnOk, length};
ghost use Rattle.bx_common.specs.Characters.{largest_text};
ghost use Rattle.bx_grid.specs.Picture.{is_size};
ghost use Rattle.bx_editor.specs.Editor.{Causes};
ghost use Rattle.bx_session.specs.Painting.{QueuesPicture};
ghost use Rattle.bx_session.specs.Session.{at_opening, owing_with_settings, with_settings};

use crate::session::Session;
use crate::status::Refused;
use bx_common::Base;
use bx_editor::{Editor, OpenError, Settings};
use bx_ucd::BidiData;

impl<D: BidiData + Drop> Session<D> {
    /// Works by these settings from the first picture on, which is queued anew. To be called before anything is sent.
    ///
    /// Errors: `Paint` if memory runs out: the settings hold, nothing is queued, and the painting is owed.
    pub fn set(&mut self, settings: Settings) -> Result<(), Refused>
        ensures tables { self.new.tables ≡ self.old.tables }
        ensures ok { OnOk result (self.new.session ≡ with_settings (D.data self.old.tables) self.old.session settings) }
        ensures paints { OnOk result (QueuesPicture (D.data self.old.tables) [] None self.new.session) }
        ensures err { OnErr result (self.new.session ≡ owing_with_settings self.old.session settings) }
        ensures refused { OnErr result (result ≡ Err Refused.Paint) }
    {
        self.editor.set(settings);
        self.queue.clear();
        self.taken = 0;
        self.painted = None;
        self.is_known = false;
        self.paint()
    }

    /// Opens a file's bytes in a window of `height` rows and `width` columns, and queues the first picture, painted whole.
    /// An error drops the bytes and the tables.
    ///
    /// Errors, in this order: `TooLong` above 16,777,216 bytes; `NotUtf8` with the length of the longest UTF-8 prefix;
    /// `SizeOutOfRange` if a side is not from 1 to 500; `OutOfMemory`.
    pub fn open(
        bytes: Vec<u8>,
        tables: D,
        height: u16,
        width: u16,
        base: Base,
    ) -> Result<Session<D>, OpenError>
        ensures ok { IfOk result (λ s. s ≡ record {
          tables = tables;
          session = at_opening (D.data tables) bytes.items height width base;
        }) }
        ensures paints { IfOk result (λ s. QueuesPicture (D.data tables) [] None s.session) }
        ensures short { OnOk result (length bytes.items ≤ largest_text) }
        ensures utf8 { OnOk result (IsUtf8 bytes.items) }
        ensures sized { OnOk result (is_size height width ≡ true) }
        ensures refused { IfErr result (Causes bytes.items height width) }
    {
        let alloc = *bytes.allocator();
        let editor = Editor::open(bytes, tables, height, width, base)?;
        let mut session = Session {
            editor,
            painted: None,
            spare: None,
            is_known: false,
            painting_owed: false,
            queue: Vec::new(alloc),
            taken: 0,
        };
        match session.paint() {
            Ok(()) => Ok(session),
            Err(_) => Err(OpenError::OutOfMemory),
        }
    }
}
