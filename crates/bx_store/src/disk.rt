//! What a `FileStore` needs of a file system.
ghost use Rattle.std.specs.Prelude.{◌≡◌, [], IsSome, OnErr, OnOk};
ghost use Rattle.std.specs.Io.Buffered.{writer_buffer, writer_contents};
ghost use Rattle.std.specs.Io.KnownBytes.{Appends, Keeps};
ghost use Rattle.bx_store.specs.Disk.{buffer_of, contents_of};

use std::alloc::Global;
use std::fs::{OpenFile, OpenOptions};
use std::io::{self, BufWriter, ErrorKind, Write};
use std::rt::Files;

/// Buffer size of a draft, in bytes: a choice, so that many small pieces take few writes.
const BUFFER_SIZE: usize = 65_536;

/// A file system in which one draft is written at a time.
pub trait Disk {
    ghost use Rattle.std.specs.Prelude.{◌≡◌, Option, option_map, OnErr, OnOk, string_bytes};
    ghost use Rattle.bx_store.specs.Disk.{DiskState, created, dropped, placed, synced, wrote};

    /// The draft, and what is stored; None if that is not known.
    ghost state: { Self → Option DiskState };

    /// Creates the draft, or empties one that an earlier save left.
    fn create(&mut self, path: &str) -> io::Result<()>
        ensures created { OnOk result (state self.new ≡ option_map (created path.now) (state self.old)) }
        ensures dropped { OnErr result (state self.new ≡ option_map dropped (state self.old)) };

    /// Appends bytes to the draft.
    fn write(&mut self, bytes: &[u8]) -> io::Result<()>
        ensures wrote { OnOk result (state self.new ≡ option_map (wrote bytes.now) (state self.old)) }
        ensures dropped { OnErr result (state self.new ≡ option_map dropped (state self.old)) };

    /// Brings all bytes of the draft to the disk.
    fn sync(&mut self) -> io::Result<()>
        ensures synced { OnOk result (state self.new ≡ option_map synced (state self.old)) }
        ensures dropped { OnErr result (state self.new ≡ option_map dropped (state self.old)) };

    /// Renames the draft, over what has the path.
    fn rename(&mut self, from: &str, to: &str) -> io::Result<()>
        ensures placed { OnOk result (state self.new ≡ option_map (placed from.now to.now) (state self.old)) }
        ensures dropped { OnErr result (state self.new ≡ option_map dropped (state self.old)) };

    /// Gives the draft a path that nothing has, and no other.
    fn rename_to_free(&mut self, from: &str, to: &str) -> io::Result<()>
        ensures placed { OnOk result (state self.new ≡ option_map (placed from.now to.now) (state self.old)) }
        ensures dropped { OnErr result (state self.new ≡ option_map dropped (state self.old)) };

    /// Removes the draft, and its bytes that are not written yet, if there is one.
    fn remove(&mut self, path: &str)
        ensures { state self.new ≡ option_map dropped (state self.old) };

    /// Whether nothing has a path. A link that leads nowhere has its path.
    fn is_free(&self, path: &str) -> io::Result<bool>;
}

/// The system's files. Nothing is known of what they have: std states nothing of it.
#[derive(Drop)]
pub struct SystemDisk<'a, R: Files> {
    files: &'a R,
    alloc: Global,
    /// The draft that is open.
    draft: Option<BufWriter<R::File>>,
}

impl<'a, R: Files> SystemDisk<'a, R> {
    /// The files of a system.
    pub fn new(files: &'a R, alloc: Global) -> Self {
        SystemDisk {
            files,
            alloc,
            draft: None,
        }
    }

    /// Opens the draft. Without memory for its buffer none is left.
    fn open_draft(&self, path: &str) -> io::Result<BufWriter<R::File>> {
        let file = OpenOptions::new()
            .write(true)
            .create(true)
            .truncate(true)
            .open(self.files, path)?;
        let draft = BufWriter::with_capacity(self.alloc, BUFFER_SIZE, file);
        if draft.is_err() {
            let _ = self.files.remove_file(path);
        }
        Ok(draft?)
    }
}

/// Writes what is left in the buffer, and syncs.
fn sync_draft<F: Write + OpenFile + Drop>(draft: &mut BufWriter<F>) -> io::Result<()>
    ensures empty { OnOk result (writer_buffer draft.new ≡ []) }
    ensures bytes { Keeps (writer_contents F.contents draft.old) (writer_contents F.contents draft.new) }
{
    draft.flush()?;
    draft.get_ref().sync_all()
}

impl<'a, R: Files> Disk for SystemDisk<'a, R> {
    ghost use Rattle.bx_store.specs.Asking.{no_state};

    ghost state = { λ _. no_state };

    fn create(&mut self, path: &str) -> io::Result<()>
        ensures created { OnOk result (no_state ≡ no_state) }
        ensures dropped { OnErr result (no_state ≡ no_state) }
        ensures open { OnOk result (IsSome self.new.draft) }
    {
        self.draft = Some(self.open_draft(path)?);
        Ok(())
    }

    fn write(&mut self, bytes: &[u8]) -> io::Result<()>
        ensures wrote { OnOk result (no_state ≡ no_state) }
        ensures dropped { OnErr result (no_state ≡ no_state) }
        ensures bytes { OnOk result (Appends (contents_of R.File.Write.contents self.old.draft) (contents_of R.File.Write.contents self.new.draft) bytes.now) }
    {
        match &mut self.draft {
            Some(draft) => draft.write_all(bytes),
            None => Err(io::Error::from(ErrorKind::NotFound)),
        }
    }

    fn sync(&mut self) -> io::Result<()>
        ensures synced { OnOk result (no_state ≡ no_state) }
        ensures dropped { OnErr result (no_state ≡ no_state) }
        ensures bytes { Keeps (contents_of R.File.Write.contents self.old.draft) (contents_of R.File.Write.contents self.new.draft) }
        ensures empty { OnOk result (buffer_of self.new.draft ≡ []) }
    {
        match &mut self.draft {
            Some(draft) => sync_draft(draft),
            None => Err(io::Error::from(ErrorKind::NotFound)),
        }
    }

    fn rename(&mut self, from: &str, to: &str) -> io::Result<()> {
        self.files.rename(from, to)?;
        self.draft = None;
        Ok(())
    }

    fn rename_to_free(&mut self, from: &str, to: &str) -> io::Result<()> {
        self.files.hard_link(from, to)?;
        // the text is saved; a draft that stays is only in the way
        let _ = self.files.remove_file(from);
        self.draft = None;
        Ok(())
    }

    fn remove(&mut self, path: &str) {
        if let Some(draft) = self.draft.take() {
            let _ = draft.into_parts();
            let _ = self.files.remove_file(path);
        }
    }

    fn is_free(&self, path: &str) -> io::Result<bool> {
        match self.files.symlink_metadata(path) {
            Ok(_) => Ok(false),
            Err(error) if error.kind() == ErrorKind::NotFound => Ok(true),
            Err(error) => Err(error),
        }
    }
}
