//! A store in a file, for a program without a host.
ghost use Rattle.std.specs.Prelude.{◌≡◌, ◌&&◌, true, false, None, Some, Err, IfErr, IfOk, IsSome, OnErr, OnOk, string_bytes};
ghost use Rattle.bx_store.specs.Disk.{draft_in, has_draft_at, stored_at, stored_in};
ghost use Rattle.bx_store.specs.Faults.{with_fault};
ghost use Rattle.bx_store.specs.FileStores.{draft_path_of, path_of, placed_at, target_of};
ghost use Rattle.bx_store.specs.Stores.{fault, no_bytes, with_bytes};
ghost use Rattle.bx_store.specs.declared.cause.SaveCause.TheVariants.{OutOfMemory};

use crate::cause::SaveCause;
use crate::disk::Disk;
use crate::faults::Faults;
use crate::store::{Store, StoreFault};
use std::alloc::{AllocError, Global};
use std::io;

/// A store in a file of a disk. What it has is the last draft that was synced and then given the file's path.
///
/// A save writes a draft, a file in the same folder with the suffix `.bx`. The commit syncs the draft to disk and renames it to
/// the file, so that the file has its old bytes or its new ones at every moment. Under a new name it gives the draft that name
/// instead, which the system refuses if anything has it. It looks at nothing else: who else writes the file, links, owners and
/// permissions are the host's work, which saves through a `HostStore`.
#[derive(Drop)]
pub struct FileStore<D: Disk + Drop> {
    disk: D,
    alloc: Global,
    /// Where saves go.
    place: FilePlace,
    /// Where the save in progress goes, if that is a new name.
    new_place: Option<FilePlace>,
    /// Whether a save is in progress.
    has_draft: bool,
    /// The failed calls.
    failures: Faults,
}

/// A file, and the draft beside it.
#[derive(Drop)]
struct FilePlace {
    /// The path of the file.
    path: String,
    /// The path of the draft.
    draft_path: String,
}

impl FilePlace {
    /// The file at `path`.
    fn new(alloc: Global, path: &str) -> Result<FilePlace, AllocError>
        ensures { IfOk result (λ place. string_bytes place.path ≡ path.now) }
    {
        Ok(FilePlace {
            path: String::from_str(alloc, path)?,
            draft_path: format!(in alloc; "{path}.bx")?,
        })
    }
}

impl<D: Disk + Drop> FileStore<D> {
    /// A store in the file at `path`.
    ///
    /// Errors: `StoreFault` if memory for the paths runs out.
    pub fn new(disk: D, alloc: Global, path: &str) -> Result<Self, StoreFault>
        ensures fault { OnErr result (result ≡ Err (fault (Some OutOfMemory))) }
        ensures place { IfOk result (λ store. string_bytes store.place.path ≡ path.now) }
    {
        Ok(FileStore {
            disk,
            alloc,
            place: FilePlace::new(alloc, path)?,
            new_place: None,
            has_draft: false,
            failures: Faults::none(),
        })
    }

    /// Removes the draft, if there is one.
    fn remove_draft(&mut self)
        ensures dropped { stored_in (D.state self.new.disk) ≡ stored_in (D.state self.old.disk) }
        ensures place { self.new.place ≡ self.old.place }
        ensures failures { self.new.failures ≡ self.old.failures }
        ensures none { self.new.has_draft ≡ false }
    {
        if self.has_draft {
            let place = target(&self.place, &self.new_place);
            self.disk.remove(place.draft_path.as_str());
        }
        self.has_draft = false;
    }

    /// Creates the draft of a save.
    fn begin_draft(&mut self) -> Result<(), StoreFault>
        ensures draft { OnOk result (draft_in (D.state self.new.disk) ≡ no_bytes (stored_in (D.state self.old.disk))) }
        ensures there { OnOk result (has_draft_at (draft_path_of self.new.place self.new.new_place) (D.state self.new.disk) ≡ true) }
        ensures has_draft { OnOk result (self.new.has_draft ≡ true) }
        ensures stored { stored_in (D.state self.new.disk) ≡ stored_in (D.state self.old.disk) }
        ensures place { self.new.place ≡ self.old.place }
        ensures new_place { OnOk result (self.new.new_place ≡ self.old.new_place) }
        ensures no_failure { OnOk result (self.new.failures ≡ self.old.failures) }
        ensures failure { IfErr result (λ fault. self.new.failures ≡ with_fault fault self.old.failures) }
    {
        let place = target(&self.place, &self.new_place);
        match self.disk.create(place.draft_path.as_str()) {
            Ok(()) => {
                self.has_draft = true;
                Ok(())
            }
            Err(error) => Err(self.fail(error.into())),
        }
    }

    /// The place of a new name. What stands there is in the way.
    fn free_place(&self, name: &str) -> Result<FilePlace, StoreFault>
        ensures { IfOk result (λ place. string_bytes place.path ≡ name.now) }
    {
        if !self.disk.is_free(name)? {
            return Err(SaveCause::Exists.into());
        }
        let place = FilePlace::new(self.alloc, name)?;
        Ok(place)
    }

    /// Later saves go where this one went.
    fn settle(&mut self)
        ensures disk { self.new.disk ≡ self.old.disk }
        ensures place { self.new.place ≡ target_of self.old.place self.old.new_place }
        ensures failures { self.new.failures ≡ self.old.failures }
    {
        self.has_draft = false;
        if let Some(place) = self.new_place.take() {
            self.place = place;
        }
    }

    /// Counts a failed call and removes its draft.
    fn fail(&mut self, fault: StoreFault) -> StoreFault
        ensures counted { self.new.failures ≡ with_fault fault self.old.failures }
        ensures told { result ≡ fault }
        ensures stored { stored_in (D.state self.new.disk) ≡ stored_in (D.state self.old.disk) }
        ensures place { self.new.place ≡ self.old.place }
    {
        self.remove_draft();
        self.new_place = None;
        self.failures.add(fault);
        fault
    }
}

/// Where the save in progress goes.
fn target<'a>(place: &'a FilePlace, new_place: &'a Option<FilePlace>) -> &'a FilePlace
    ensures { result.now ≡ target_of place.now new_place.now }
{
    match new_place {
        Some(new_place) => new_place,
        None => place,
    }
}

/// Syncs the draft, and gives it the path of its file.
fn place_draft<D: Disk>(disk: &mut D, place: &FilePlace, is_new: bool) -> io::Result<()>
    requires { has_draft_at (string_bytes place.now.draft_path) (D.state disk.old) ≡ true }
    ensures stored { OnOk result (stored_in (D.state disk.new) ≡ draft_in (D.state disk.old)) }
    ensures stored_at { OnOk result (stored_at (D.state disk.new) ≡ placed_at (string_bytes place.now.path) (D.state disk.old)) }
    ensures not_stored { OnErr result (stored_in (D.state disk.new) ≡ stored_in (D.state disk.old)) }
{
    disk.sync()?;
    let (from, to) = (place.draft_path.as_str(), place.path.as_str());
    if is_new {
        disk.rename_to_free(from, to)?;
    } else {
        disk.rename(from, to)?;
    }
    Ok(())
}

impl<D: Disk + Drop> Store for FileStore<D> {
    ghost use Rattle.std.specs.Prelude.{◌&&◌};
    ghost use Rattle.bx_store.specs.Disk.{draft_in, has_draft_at, stored_in};
    ghost use Rattle.bx_store.specs.FileStores.{draft_path_of};

    ghost contents = { λ s. stored_in (D.state s.disk) };

    ghost draft = { λ s. draft_in (D.state s.disk) };

    ghost has_draft = { λ s. s.has_draft && has_draft_at (draft_path_of s.place s.new_place) (D.state s.disk) };

    ghost faults = { λ s. s.failures };

    fn begin(&mut self) -> Result<(), StoreFault>
        ensures has_draft { OnOk result (self.new.has_draft && has_draft_at (draft_path_of self.new.place self.new.new_place) (D.state self.new.disk) ≡ true) }
        ensures draft { OnOk result (draft_in (D.state self.new.disk) ≡ no_bytes (stored_in (D.state self.old.disk))) }
        ensures stored { stored_in (D.state self.new.disk) ≡ stored_in (D.state self.old.disk) }
        ensures no_failure { OnOk result (self.new.failures ≡ self.old.failures) }
        ensures failure { IfErr result (λ fault. self.new.failures ≡ with_fault fault self.old.failures) }
        ensures place { self.new.place ≡ self.old.place }
        ensures own { OnOk result (self.new.new_place ≡ None) }
    {
        self.remove_draft();
        self.new_place = None;
        self.begin_draft()
    }

    fn begin_over(&mut self) -> Result<(), StoreFault>
        ensures has_draft { OnOk result (self.new.has_draft && has_draft_at (draft_path_of self.new.place self.new.new_place) (D.state self.new.disk) ≡ true) }
        ensures draft { OnOk result (draft_in (D.state self.new.disk) ≡ no_bytes (stored_in (D.state self.old.disk))) }
        ensures stored { stored_in (D.state self.new.disk) ≡ stored_in (D.state self.old.disk) }
        ensures no_failure { OnOk result (self.new.failures ≡ self.old.failures) }
        ensures failure { IfErr result (λ fault. self.new.failures ≡ with_fault fault self.old.failures) }
        ensures place { self.new.place ≡ self.old.place }
        ensures own { OnOk result (self.new.new_place ≡ None) }
    {
        self.begin()
    }

    fn begin_as(&mut self, name: &str) -> Result<(), StoreFault>
        ensures has_draft { OnOk result (self.new.has_draft && has_draft_at (draft_path_of self.new.place self.new.new_place) (D.state self.new.disk) ≡ true) }
        ensures draft { OnOk result (draft_in (D.state self.new.disk) ≡ no_bytes (stored_in (D.state self.old.disk))) }
        ensures stored { stored_in (D.state self.new.disk) ≡ stored_in (D.state self.old.disk) }
        ensures no_failure { OnOk result (self.new.failures ≡ self.old.failures) }
        ensures failure { IfErr result (λ fault. self.new.failures ≡ with_fault fault self.old.failures) }
        ensures place { self.new.place ≡ self.old.place }
        ensures named { OnOk result (path_of self.new.place self.new.new_place ≡ name.now) }
        ensures new { OnOk result (IsSome self.new.new_place) }
    {
        self.remove_draft();
        match self.free_place(name) {
            Ok(place) => {
                self.new_place = Some(place);
                self.begin_draft()
            }
            Err(fault) => Err(self.fail(fault)),
        }
    }

    fn put(&mut self, bytes: &[u8]) -> Result<(), StoreFault>
        requires { self.old.has_draft && has_draft_at (draft_path_of self.old.place self.old.new_place) (D.state self.old.disk) ≡ true }
        ensures has_draft { OnOk result (self.new.has_draft && has_draft_at (draft_path_of self.new.place self.new.new_place) (D.state self.new.disk) ≡ true) }
        ensures draft { OnOk result (draft_in (D.state self.new.disk) ≡ with_bytes bytes.now (draft_in (D.state self.old.disk))) }
        ensures stored { stored_in (D.state self.new.disk) ≡ stored_in (D.state self.old.disk) }
        ensures no_failure { OnOk result (self.new.failures ≡ self.old.failures) }
        ensures failure { IfErr result (λ fault. self.new.failures ≡ with_fault fault self.old.failures) }
    {
        match self.disk.write(bytes) {
            Ok(()) => Ok(()),
            Err(error) => Err(self.fail(error.into())),
        }
    }

    fn commit(&mut self) -> Result<(), StoreFault>
        requires { self.old.has_draft && has_draft_at (draft_path_of self.old.place self.old.new_place) (D.state self.old.disk) ≡ true }
        ensures stored { OnOk result (stored_in (D.state self.new.disk) ≡ draft_in (D.state self.old.disk)) }
        ensures not_stored { OnErr result (stored_in (D.state self.new.disk) ≡ stored_in (D.state self.old.disk)) }
        ensures no_failure { OnOk result (self.new.failures ≡ self.old.failures) }
        ensures failure { IfErr result (λ fault. self.new.failures ≡ with_fault fault self.old.failures) }
        ensures stored_at { OnOk result (stored_at (D.state self.new.disk) ≡ placed_at (path_of self.old.place self.old.new_place) (D.state self.old.disk)) }
        ensures place { OnOk result (self.new.place ≡ target_of self.old.place self.old.new_place) }
    {
        let is_new = self.new_place.is_some();
        let place = target(&self.place, &self.new_place);
        match place_draft(&mut self.disk, place, is_new) {
            Ok(()) => {
                self.settle();
                Ok(())
            }
            Err(error) => Err(self.fail(error.into())),
        }
    }

    fn failures(&self) -> u64 {
        self.failures.count
    }
}
