//! Painting: the bytes that bring the picture to the terminal, and a text to its clipboard.

ghost use Rattle.std.specs.Prelude.{◌≡◌, ◌++◌, ℕ, List, true, IfOk, IfSome, Ok, OnErr, OnOk, option_map};
ghost use Rattle.base64.specs.Engines.{standard};
ghost use Rattle.base64.specs.GeneralPurpose.{decode_of};
ghost use Rattle.base64.specs.GeneralPurpose.{encode_of};
ghost use Rattle.bx_grid.specs.Picture.{PictureState, Shows, is_size};
ghost use Rattle.bx_grid.specs.Grid.{AreWholeTokens, IsPicture};
ghost use Rattle.bx_grid.specs.Terminal.{Terminal, reads};
ghost use Rattle.bx_session.specs.Painting.{AppendsPainting, QueuesPicture, Updates, page_in, text_in};
ghost use Rattle.bx_session.specs.Session.{clip_after, painted_after, painting, then_clip, with_painting, with_painting_owed};
ghost use Rattle.bx_session.specs.Feeding.{known_if};

use crate::session::Session;
use crate::status::Refused;
use bx_common::OutOfMemory;
use bx_editor::{Editor, Scroll};
use bx_grid::{Grid, Picture};
use bx_keys::Key;
use bx_paint::{changes_into, clip_into, whole_into};
use bx_ucd::BidiData;
use std::alloc::Global;

/// Appends the bytes that change the screen from the picture last painted to `picture`, of the same size. If the screen's
/// content is unknown, they paint `picture` whole.
///
/// Errors: `OutOfMemory`, and nothing is appended.
fn append(
    queue: &mut Vec<u8>,
    painted: &Option<Picture>,
    is_known: bool,
    picture: &Picture,
) -> Result<(), OutOfMemory>
    requires fits { IfSome (known_if is_known painted.now) (λ p. (p.height ≡ picture.now.height) × (p.width ≡ picture.now.width)) }
    ensures bytes { OnOk result (queue.new.items ≡ queue.old.items ++ painting (known_if is_known painted.now) picture.now) }
    ensures err { OnErr result (queue.new.items ≡ queue.old.items) }
    ensures updates { Updates (known_if is_known painted.now) (painting (known_if is_known painted.now) picture.now) picture.now }
    ensures tokens { AreWholeTokens (painting (known_if is_known painted.now) picture.now) }
    ensures is_picture { IsPicture picture.now }
{
    match painted {
        Some(old) if is_known => changes_into(queue, old, picture),
        _ => whole_into(queue, picture),
    }
}

/// Appends the clip of a text, if there is one.
///
/// Errors: `OutOfMemory`, and nothing is appended.
fn append_clip(queue: &mut Vec<u8>, clip: Option<&str>) -> Result<(), OutOfMemory>
    ensures bytes { OnOk result (queue.new.items ≡ then_clip queue.old.items (text_in clip.entry)) }
    ensures err { OnErr result (queue.new.items ≡ queue.old.items) }
    ensures shows { (t : Terminal) (painting : List ℕ) (p : PictureState) → Shows (reads t painting) p
        → Shows (reads t (then_clip painting (text_in clip.entry))) p }
    ensures tokens { (painting : List ℕ) → AreWholeTokens painting → AreWholeTokens (then_clip painting (text_in clip.entry)) }
    ensures gives { IfSome (text_in clip.entry) (λ text. decode_of standard (encode_of standard text) ≡ Ok text) }
{
    match clip {
        Some(text) => clip_into(queue, text.as_bytes()),
        None => Ok(()),
    }
}

/// Appends a painting as [`append`] does, and the clip of a text, if there is one: both or, for want of memory, neither.
fn append_both(
    queue: &mut Vec<u8>,
    painted: &Option<Picture>,
    is_known: bool,
    picture: &Picture,
    clip: Option<&str>,
) -> Result<(), OutOfMemory>
    requires fits { IfSome (known_if is_known painted.now) (λ p. (p.height ≡ picture.now.height) × (p.width ≡ picture.now.width)) }
    ensures bytes { OnOk result (queue.new.items
        ≡ then_clip (queue.old.items ++ painting (known_if is_known painted.now) picture.now) (text_in clip.entry)) }
    ensures err { OnErr result (queue.new.items ≡ queue.old.items) }
    ensures updates { Updates (known_if is_known painted.now) (painting (known_if is_known painted.now) picture.now) picture.now }
    ensures tokens { AreWholeTokens (painting (known_if is_known painted.now) picture.now) }
    ensures is_picture { IsPicture picture.now }
    ensures shows { OnOk result ((t : Terminal) (painting : List ℕ) (p : PictureState) → Shows (reads t painting) p
        → Shows (reads t (then_clip painting (text_in clip.entry))) p) }
    ensures whole { OnOk result ((painting : List ℕ) → AreWholeTokens painting → AreWholeTokens (then_clip painting (text_in clip.entry))) }
    ensures gives { OnOk result (IfSome (text_in clip.entry) (λ text. decode_of standard (encode_of standard text) ≡ Ok text)) }
{
    let count = queue.len();
    append(queue, painted, is_known, picture)?;
    match append_clip(queue, clip) {
        Ok(()) => Ok(()),
        Err(refused) => {
            queue.truncate(count);
            Err(refused)
        }
    }
}

/// What goes out to the clipboard after a key, the last that was applied, if there was one.
fn clip_after<D: BidiData + Drop>(editor: &Editor<D>, key: Option<Key>) -> Option<&str>
    ensures { text_in result ≡ clip_after editor.now.editor key }
{
    match key {
        Some(key) => editor.clip(key),
        None => None,
    }
}

/// A page of `height` rows and `width` columns: the spare one if it has this size, else a blank one.
fn page_of(alloc: Global, spare: Option<Grid>, height: u16, width: u16) -> Result<Grid, OutOfMemory>
    requires sized { is_size height width ≡ true }
    ensures height { IfOk result (λ page. page.height ≡ height) }
    ensures width { IfOk result (λ page. page.width ≡ width) }
{
    match spare {
        Some(page) if page.height() == height && page.width() == width => Ok(page),
        _ => {
            let Ok(page) = Grid::blank(alloc, height, width) else {
                return Err(OutOfMemory);
            };
            Ok(page)
        }
    }
}

/// The page of an old picture, on which the next picture can be made.
fn spare_of(picture: Option<Picture>) -> Option<Grid>
    ensures { result ≡ option_map page_in picture }
{
    match picture {
        Some(picture) => Some(picture.into_grid()),
        None => None,
    }
}

impl<D: BidiData + Drop> Session<D> {
    /// Scrolls to the cursor and queues the bytes that paint the picture. `press` and `set_window_size` paint by themselves; `press_again`,
    /// `go_to` and `count_as_changed` do not.
    ///
    /// Errors: `Paint` if memory runs out: top and queue are unchanged, and the painting is owed.
    pub fn paint(&mut self) -> Result<(), Refused>
        ensures tables { self.new.tables ≡ self.old.tables }
        ensures ok { OnOk result (self.new.session ≡ with_painting (D.data self.old.tables) self.old.session) }
        ensures paints { OnOk result (QueuesPicture (D.data self.old.tables) self.old.session.pending
            self.old.session.known self.new.session) }
        ensures err { OnErr result (self.new.session ≡ with_painting_owed self.old.session) }
        ensures memory { OnErr result (result ≡ Err Refused.Paint) }
    {
        self.paint_after(None, Scroll::Least)
    }

    /// Scrolls as a key asked for it and then to the cursor, and queues the bytes that paint the picture after the key, the last that was
    /// applied, and then the clip of what the key sends to the clipboard.
    ///
    /// Errors: `Paint` if memory runs out: top and queue are unchanged, and the painting is owed. The clip never comes.
    pub(crate) fn paint_after(&mut self, key: Option<Key>, scroll: Scroll) -> Result<(), Refused>
        ensures tables { self.new.tables ≡ self.old.tables }
        ensures ok { OnOk result (self.new.session ≡ painted_after (D.data self.old.tables) scroll self.old.session key) }
        ensures paints { OnOk result (QueuesPicture (D.data self.old.tables) self.old.session.pending
            self.old.session.known self.new.session) }
        ensures appends { OnOk result (AppendsPainting (D.data self.old.tables) self.old.session.pending
            self.old.session.known self.new.session) }
        ensures err { OnErr result (self.new.session ≡ with_painting_owed self.old.session) }
        ensures memory { OnErr result (result ≡ Err Refused.Paint) }
    {
        let alloc = *self.queue.allocator();
        self.painting_owed = true;
        let (height, width) = (self.editor.height(), self.editor.width());
        let Ok(page) = page_of(alloc, self.spare.take(), height, width) else {
            return Err(Refused::Paint);
        };
        let top = self.editor.top();
        let Ok((top, picture)) = self.editor.picture(alloc, page, top, scroll) else {
            return Err(Refused::Paint);
        };
        let clip = clip_after(&self.editor, key);
        let Ok(()) = append_both(
            &mut self.queue,
            &self.painted,
            self.is_known,
            &picture,
            clip,
        ) else {
            return Err(Refused::Paint);
        };
        self.editor.set_top(top);
        self.spare = spare_of(self.painted.take());
        self.painted = Some(picture);
        self.is_known = true;
        self.painting_owed = false;
        Ok(())
    }
}
