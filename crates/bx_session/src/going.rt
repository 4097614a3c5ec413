//! Settings before the first key, of the command line and of a recovery: a clipboard, the cursor's offset, and a text that is not
//! saved.

ghost use Rattle.std.specs.Prelude.{◌≡◌, OnErr, OnOk};
ghost use Rattle.bx_session.specs.Session.{with_clipboard};
ghost use Rattle.bx_session.specs.Replaying.{after_going, as_changed};

use crate::session::Session;
use crate::status::Refused;
use bx_ucd::BidiData;

impl<D: BidiData + Drop> Session<D> {
    /// From now on text that is copied or cut also goes out to the terminal's clipboard, as a clip after the key's painting. The
    /// picture stays. Allocates nothing.
    pub fn use_clipboard(&mut self)
        ensures { self.new ≡ record self.old { session = with_clipboard self.old.session } }
    {
        self.editor.use_clipboard();
    }

    /// Moves the cursor to the first place at or after an offset, in bytes from 0, or to the text's end for an offset past
    /// it. Paints nothing; call [`Session::paint`] afterwards.
    ///
    /// Errors: `Edit` if memory runs out; nothing has changed.
    pub fn go_to(&mut self, offset: usize) -> Result<(), Refused>
        ensures ok { OnOk result (self.new ≡ record self.old { session = after_going (D.data self.old.tables) self.old.session offset }) }
        ensures err { OnErr result (self.new ≡ self.old) }
        ensures refused { OnErr result (result ≡ Err Refused.Edit) }
    {
        if self.editor.go_to(offset).is_err() {
            return Err(Refused::Edit);
        }
        self.painting_owed = true;
        Ok(())
    }

    /// Counts the text as changed since the last save, as a recovered text is. Paints nothing; call [`Session::paint`]
    /// afterwards. Allocates nothing.
    pub fn count_as_changed(&mut self)
        ensures { self.new ≡ record self.old { session = as_changed self.old.session } }
    {
        self.editor.count_as_changed();
        self.painting_owed = true;
    }
}
