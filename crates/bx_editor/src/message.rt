//! Messages of the status row.
ghost use Rattle.std.specs.Prelude.{◌≡◌};
ghost use Rattle.bx_editor.specs.Status.{failed_text, message_text, notice_text};

use bx_common::Base;
use bx_keys::Notice;
use bx_store::SaveCause;

/// The message of the status row.
#[derive(Clone, Copy)]
pub enum Message {
    /// The text was saved.
    Saved,
    /// A call of the store failed, for this cause if the store tells one; the store keeps its old content.
    SaveFailed(Option<SaveCause>),
    /// The text would exceed 16,777,216 bytes.
    TextFull,
    NothingToUndo,
    NothingToRedo,
    /// Quit was pressed with unsaved changes.
    Unsaved,
    /// Paragraphs now have this base direction.
    Direction(Base),
    MarkSet,
    MarkOff,
    /// The region was copied.
    Copied,
    /// The region was empty, and the paragraph was copied with its separator.
    LineCopied,
    /// The region or the line was cut. The row tells nothing of it.
    Cut,
    NothingToCopy,
    NothingToPut,
    /// The text is only looked at.
    ViewOnly,
    /// The match was found from the text's start: there is none after the place.
    FromStart,
    /// The match was found from the text's end: there is none before the place.
    FromEnd,
    NotFound,
    /// The query has no letters, and is not empty.
    NoLetter,
    /// The first list of keys.
    Help,
    /// The second list of keys.
    MoreHelp,
    /// The region spans lines, and is not put between two characters.
    MoreThanOneLine,
    /// The answer writes no character's code.
    NoSuchCharacter,
    /// A paste is under way.
    Pasting,
    /// What was copied or cut is held, but is too long for the clipboard.
    TooLongForClipboard,
    /// Replacing has ended, with the number of matches that were replaced.
    Replaced(usize),
    /// What stands at the cursor's place: the state tells it, and not the message.
    Told,
    /// What the host tells.
    Notice(Notice),
}

/// The words of `SaveFailed`.
fn failed_text(cause: Option<SaveCause>) -> &'static str
    ensures { result.now ≡ failed_text cause }
{
    match cause {
        None => "save failed",
        Some(SaveCause::NoSpace) => "save failed: no space",
        Some(SaveCause::NotPermitted) => "save failed: not permitted",
        Some(SaveCause::FolderGone) => "save failed: folder gone",
        Some(SaveCause::ReadOnly) => "save failed: read-only disk",
        Some(SaveCause::TooLarge) => "save failed: file too large",
        Some(SaveCause::OutOfMemory) => "save failed: out of memory",
        Some(SaveCause::Changed) => "file changed on disk",
        Some(SaveCause::NotPlain) => "save failed: not a plain file",
        Some(SaveCause::CutOff) => {
            "save failed: file incomplete, its whole text is in a .bx file next to it"
        }
        Some(SaveCause::Exists) => "not saved, file exists: ^O again",
        Some(SaveCause::Other) => "save failed: disk error",
    }
}

/// The words of a notice.
fn notice_text(notice: Notice) -> &'static str
    ensures { result.now ≡ notice_text notice }
{
    match notice {
        Notice::NoSpace => "no crash copy: no space",
        Notice::FolderGone => "no crash copy: folder gone",
        Notice::NotPermitted => "no crash copy: not permitted",
        Notice::ReadOnly => "no crash copy: read-only disk",
        Notice::Unkept => "no crash copy",
        Notice::KeptAgain => "crash copy again",
        Notice::Recovered => "recovered",
        Notice::RecoveredAside => "recovered to a new file, named on exit",
        Notice::InPlace => "saves overwrite it in place",
    }
}

impl Message {
    /// The message's words in the status row, without the number before those of `Replaced`, and none for `Told`.
    pub fn text(self) -> &'static str
        ensures { result.now ≡ message_text self }
    {
        match self {
            Message::Saved => "saved",
            Message::SaveFailed(cause) => failed_text(cause),
            Message::TextFull => "text full",
            Message::NothingToUndo => "nothing to undo",
            Message::NothingToRedo => "nothing to redo",
            Message::Unsaved => "unsaved: ^Q again",
            Message::Direction(Base::Auto) => "direction auto",
            Message::Direction(Base::Ltr) => "direction ltr",
            Message::Direction(Base::Rtl) => "direction rtl",
            Message::MarkSet => "mark set",
            Message::MarkOff => "mark cleared",
            Message::Copied => "copied",
            Message::LineCopied => "line copied",
            Message::Cut => "",
            Message::NothingToCopy => "nothing to copy",
            Message::NothingToPut => "nothing to paste",
            Message::ViewOnly => "view only",
            Message::FromStart => "from the start",
            Message::FromEnd => "from the end",
            Message::NotFound => "not found",
            Message::NoLetter => "no letter to find",
            Message::Help => {
                "^S save ^Q quit ^Z undo ^F find ^X cut ^C copy ^V paste F2 ltr/rtl"
            }
            Message::MoreHelp => {
                "F4 replace ^G line ^K insert ^T info ^Y redo ^B back ^A all ^O save as"
            }
            Message::MoreThanOneLine => "more than one line",
            Message::NoSuchCharacter => "no such character",
            Message::Pasting => "pasting",
            Message::TooLongForClipboard => "too long for the clipboard",
            Message::Replaced(_) => " replaced",
            Message::Told => "",
            Message::Notice(notice) => notice_text(notice),
        }
    }
}
