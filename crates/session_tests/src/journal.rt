//! A journal's file that cannot be opened or written.

use bx_command::{JournalFile, JournalNotes, JournalSyncs};
use std::io::Write;
use std::path::PathBuf;
use std::test::Fail;
use std::{env, fs, process};

/// What the journal's file writes to standard error; any texts will do.
const NOTES: JournalNotes<'static> = JournalNotes {
    lost: "lost\n",
    kept: "kept\n",
};

/// A path in the folder for temporary files that is unique to this process.
fn path_of(rt: &HostRuntime, name: &str) -> Result<PathBuf, Fail> {
    let name = format!(in rt.alloc(); "bx_command-{}-{name}", process::id(rt.process()))?;
    Ok(env::temp_dir(rt)?.join(rt.alloc(), name.as_str())?)
}

/// Writes bytes and flushes. Returns whether both succeeded.
fn is_kept<W: Write>(journal: &mut W, bytes: &[u8]) -> bool {
    journal.write_all(bytes).is_ok() && journal.flush().is_ok()
}

#[test]
fn a_journal_is_opened_again_at_each_write(rt: HostRuntime) -> Result<(), Fail> {
    let folder = path_of(&rt, "journal")?;
    let path = folder.join(rt.alloc(), "keys")?;
    let mut journal = JournalFile::open(rt, Some(path.as_str()), NOTES, JournalSyncs::EachSecond);
    let before = [is_kept(&mut journal, b"a"), is_kept(&mut journal, b"b")];
    fs::create_dir(&rt, folder.as_path())?;
    let after = [is_kept(&mut journal, b"c"), is_kept(&mut journal, b"d")];
    let bytes = fs::read(&rt, path.as_path())?;
    fs::remove_dir_all(&rt, folder.as_path())?;
    assert_eq!(rt; (before, after), ([false; 2], [true; 2]));
    assert_eq!(rt; bytes.as_slice(), b"cd".as_slice());
    Ok(())
}

#[test]
fn a_disk_without_room_takes_no_journal(rt: HostRuntime) {
    let mut journal = JournalFile::open(rt, Some("/dev/full"), NOTES, JournalSyncs::EachSecond);
    assert!(rt; !is_kept(&mut journal, b"a"));
    assert!(rt; !is_kept(&mut journal, b"b"));
}
