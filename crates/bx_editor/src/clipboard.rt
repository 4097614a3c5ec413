//! What goes out to a clipboard.
ghost use Rattle.std.specs.Prelude.{◌≡◌, None, Some, MatchOption};
ghost use Rattle.bx_editor.specs.Region.{clip_of, is_clip, tells_copy, tells_cut};
ghost use Rattle.bx_editor.specs.Editor.{with_clipboard};

use crate::editor::Editor;
use crate::message::Message;
use bx_keys::Key;
use bx_ucd::BidiData;

/// Whether the message tells that text was copied, and so that it is not too long for a clipboard.
fn tells_copy(message: Option<Message>) -> bool
    ensures { result ≡ tells_copy message }
{
    matches!(message, Some(Message::Copied | Message::LineCopied))
}

/// Whether the message is that text was cut.
fn tells_cut(message: Option<Message>) -> bool
    ensures { result ≡ tells_cut message }
{
    matches!(message, Some(Message::Cut))
}

/// Whether a key held text that is not too long, by the message that it left.
fn is_clip(key: Key, message: Option<Message>) -> bool
    ensures { result ≡ is_clip key message }
{
    match key {
        Key::Copy => tells_copy(message),
        Key::Cut => tells_cut(message),
        _ => false,
    }
}

impl<D: BidiData + Drop> Editor<D> {
    /// From now on text that is copied or cut goes out to a clipboard. Allocates nothing.
    pub fn use_clipboard(&mut self)
        ensures { self.new ≡ record self.old { editor = with_clipboard self.old.editor } }
    {
        self.clipboard = true;
    }

    /// What goes out to the clipboard after this key, the last that was applied: the held text, where the key has held it. Allocates
    /// nothing.
    pub fn clip(&self, key: Key) -> Option<&str>
        ensures { MatchOption result (clip_of self.now.editor key ≡ None) (λ clip. clip_of self.now.editor key ≡ Some clip.now) }
    {
        if self.clipboard && is_clip(key, self.message) {
            return Some(self.held.as_str());
        }
        None
    }
}
