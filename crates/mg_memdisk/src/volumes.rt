//! A volume in memory.

ghost use Rattle.std.specs.Prelude.{◌≡◌, ◌≤◌, ◌↔◌, false, Some, [], IsTrue, IfOk, length, drop};
ghost use Rattle.std.specs.Option.{option_copied};
ghost use Rattle.mg_memdisk.specs.Crashes.{are_open};
ghost use Rattle.mg_memdisk.specs.Events.{is_file, value_bytes};
ghost use Rattle.mg_memdisk.specs.Pieces.{wanted_of};

use crate::bytes::Bytes;
use crate::calls::count_call;
use crate::crashes::image_left;
use crate::events::Event;
use crate::files::{MemFiles, MemSealed, read_at};
use crate::pieces::Wanted;
use crate::replays::{file_under, len_under, names_in, piece_under};
use mg_disk::{DiskError, Name, SendVolume, Volume};
use mg_faults::{CallCounter, FaultCount};
use std::alloc::{AllocError, Global};
use std::sync::Arc;

/// A log in writing in memory.
#[derive(Drop)]
pub struct MemLog {
    name: Name,
}

/// A volume in memory, whose calls fail by number.
///
/// It keeps all that ever happened to it, the bytes of removed files and logs too, since a crash at an earlier moment might
/// have left them. An append takes time in proportion to its bytes; finding a file or reading a log goes once through all that
/// happened, and reading takes memory in proportion to what is read.
#[derive(Drop)]
pub struct MemVolume {
    events: Vec<Event>,
    // so many of them had happened when the volume was handed out
    settled: usize,
    calls: CallCounter,
    // whether a change of a name that fails shows in what reads give
    shows: bool,
    ghost within: { settled ≤ length events.items },
    ghost logs_open: { IsTrue (are_open (λ name. false) (drop settled events.items)) },
}

impl MemVolume {
    ghost use Rattle.std.specs.Prelude.{◌≡◌, ◌≢◌, ◌++◌, ◌∷◌, ◌⊎◌, ◌/◌, ℕ, List, take, [], ◌&&◌, ◌↔◌, true, false, None, not, is_some, IfOk, IfSome, IsSome, OnOk, OnErr, IsErrOf};
    ghost use Rattle.std.specs.Option.{option_copied};
    ghost use Rattle.std.specs.List.{Contains};
    ghost use Rattle.std.specs.List.Sorted.{IsStrictlySortedBy};
    ghost use Rattle.mg_types.specs.Bytes.{AreBytes};
    ghost use Rattle.mg_types.specs.declared.names.Name.{Name};
    ghost use Rattle.mg_disk.specs.Images.{Image, NameSet, NameInDoubt, Appended, AppendFailed, Stays};
    ghost use Rattle.mg_faults.specs.Calls.{no_calls};
    ghost use Rattle.mg_faults.specs.Causes.{kept_count};
    ghost use Rattle.mg_memdisk.specs.Crashes.{is_open_for, found_in, picked};
    ghost use Rattle.mg_memdisk.specs.Volumes.{mem_found, mem_recent, mem_view, mem_open, mem_stands, mem_calls, mem_shows, IsEmpty, IsSettled, Pushes, Untouched, PutsName, DoubtsName, PutsBehind};
    ghost use Rattle.mg_memdisk.specs.Events.{nothing, is_file, value_bytes};

    /// An empty volume whose calls with these numbers, from 1, fail. Reads don't show a change of a name that failed.
    pub fn new(alloc: Global, failing: Vec<u64>) -> MemVolume
        ensures empty { IsEmpty result }
        ensures calls { mem_calls result ≡ no_calls failing.items }
        ensures shows { mem_shows result ≡ false }
    {
        MemVolume {
            events: Vec::new(alloc),
            settled: 0,
            calls: CallCounter::new(failing),
            shows: false,
        }
    }

    /// The same volume, whose reads show a change of a name that fails from now on.
    pub fn showing(self) -> MemVolume
        ensures same { Untouched self result }
        ensures calls { mem_calls result ≡ mem_calls self }
        ensures shows { mem_shows result ≡ true }
    {
        MemVolume {
            events: self.events,
            settled: self.settled,
            calls: self.calls,
            shows: true,
        }
    }

    /// How many of its calls failed.
    pub fn faults(&self) -> FaultCount
        ensures { result ≡ kept_count (mem_calls self.now).faults }
    {
        let faults = self.calls.faults();
        let _count = faults.get();
        faults
    }

    /// One image that a crash now may leave, as a volume at rest with no failing calls. Events are gone through in their order.
    /// `choice` says, byte by byte: at a change of a name whose call failed, 1 for a change that the crash leaves; at an append,
    /// 1 and a byte for each byte that stands behind the log's, while there is room up to the written length, and any other
    /// byte to end them. Behind the end of `choice` each byte is 0. Each image that a crash may leave has such a choice.
    ///
    /// It takes time in proportion to what happened and its bytes, and to look up a name for each event.
    pub fn crash(&self, alloc: Global, choice: &[u8]) -> Result<MemVolume, DiskError>
        ensures image { IfOk result (λ left. (mem_view left).contents ≡ picked (mem_found self.now) (mem_recent self.now) choice.now) }
        ensures left { (mem_view self.now).may_leave (picked (mem_found self.now) (mem_recent self.now) choice.now) }
        ensures each { (image : Image) → (mem_view self.now).may_leave image → (choice : List ℕ) × AreBytes choice × (picked (mem_found self.now) (mem_recent self.now) choice ≡ image) }
        ensures settled { IfOk result (λ left. IsSettled left) }
        ensures calls { IfOk result (λ left. mem_calls left ≡ no_calls []) }
        ensures shows { IfOk result (λ left. mem_shows left ≡ false) }
        ensures memory { IsErrOf result DiskError.Failed → ⊥ }
    {
        let left = image_left(alloc, &self.events, self.settled, choice)?;
        Ok(MemVolume::found(alloc, left))
    }

    // A volume in which this was found, none of whose calls fail.
    fn found(alloc: Global, events: Vec<Event>) -> MemVolume
        ensures contents { (mem_view result).contents ≡ found_in events.items }
        ensures settled { IsSettled result }
        ensures calls { mem_calls result ≡ no_calls [] }
        ensures shows { mem_shows result ≡ false }
    {
        let settled = events.len();
        MemVolume {
            events,
            settled,
            calls: CallCounter::new(Vec::new(alloc)),
            shows: false,
        }
    }

    // Makes what it holds lasting, and starts its clock anew.
    pub(crate) fn settle(&mut self)
        ensures contents { (mem_view self.new).contents ≡ (mem_view self.old).contents }
        ensures settled { IsSettled self.new }
        ensures start { (mem_view self.new).moment ≡ 0 }
        ensures calls { mem_calls self.new ≡ mem_calls self.old }
        ensures shows { mem_shows self.new ≡ mem_shows self.old }
    {
        self.settled = self.events.len();
    }

    // Keeps one event more.
    fn push(&mut self, event: Event) -> Result<(), DiskError>
        requires { IsTrue (is_open_for (mem_open self.old) event) }
        ensures pushed { OnOk result (Pushes event self.old self.new) }
        ensures same { OnErr result (Untouched self.old self.new) }
        ensures calls { mem_calls self.new ≡ mem_calls self.old }
        ensures shows { mem_shows self.new ≡ mem_shows self.old }
        ensures memory { IsErrOf result DiskError.Failed → ⊥ }
    {
        self.events.push(event)?;
        Ok(())
    }

    // Lets the name stand for these bytes or for nothing.
    fn put(&mut self, name: Name, value: Option<Arc<Bytes>>) -> Result<(), DiskError>
        ensures happened { OnOk result (PutsName name (value_bytes value) self.old self.new) }
        ensures same { OnErr result (Untouched self.old self.new) }
        ensures set { OnOk result (NameSet name (value_bytes value) (mem_view self.old) (mem_view self.new)) }
        ensures doubt { OnErr result (NameInDoubt name (value_bytes value) (mem_view self.old) (mem_view self.new)) }
        ensures opened { OnOk result (mem_open self.new name ≡ (is_some value && not (is_file name))) }
        ensures file { is_file name ≡ true → mem_open self.new name ≡ mem_open self.old name }
        ensures writing { (other : Name) → other ≢ name → mem_open self.new other ≡ mem_open self.old other }
        ensures stands { (other : Name) → other ≢ name → mem_stands self.new other ≡ mem_stands self.old other }
        ensures still { OnErr result (mem_stands self.new name ≡ mem_stands self.old name) }
        ensures calls { mem_calls self.new ≡ mem_calls self.old }
        ensures shows { mem_shows self.new ≡ mem_shows self.old }
        ensures memory { IsErrOf result DiskError.Failed → ⊥ }
    {
        self.push(Event::Put(name, value))
    }

    // Keeps that the name may stand for these bytes or for nothing, and lets reads show it where they are to.
    fn doubt(&mut self, name: Name, value: Option<Arc<Bytes>>) -> Result<(), DiskError>
        ensures happened { OnOk result (DoubtsName name (value_bytes value) self.old self.new) }
        ensures same { OnErr result (Untouched self.old self.new) }
        ensures doubt { NameInDoubt name (value_bytes value) (mem_view self.old) (mem_view self.new) }
        ensures file { is_file name ≡ true → mem_open self.new name ≡ mem_open self.old name }
        ensures writing { (other : Name) → other ≢ name → mem_open self.new other ≡ mem_open self.old other }
        ensures stands { (other : Name) → other ≢ name → mem_stands self.new other ≡ mem_stands self.old other }
        ensures still { value_bytes value ≡ None → (mem_stands self.new name ≡ mem_stands self.old name) ⊎ (mem_stands self.new name ≡ None) }
        ensures calls { mem_calls self.new ≡ mem_calls self.old }
        ensures shows { mem_shows self.new ≡ mem_shows self.old }
        ensures memory { IsErrOf result DiskError.Failed → ⊥ }
    {
        self.push(Event::MayPut(name, value, self.shows))
    }

    // Puts bytes behind a log's.
    fn put_behind(&mut self, alloc: Global, name: Name, bytes: &[u8]) -> Result<(), DiskError>
        requires { mem_open self.old name ≡ true }
        ensures happened { OnOk result (PutsBehind name bytes.now self.old self.new) }
        ensures same { OnErr result (Untouched self.old self.new) }
        ensures appended { OnOk result (Appended name bytes.now (mem_view self.old) (mem_view self.new)) }
        ensures stays { OnErr result (Stays (mem_view self.old) (mem_view self.new)) }
        ensures writing { (other : Name) → mem_open self.new other ≡ mem_open self.old other }
        ensures stands { (other : Name) → mem_stands self.new other ≡ mem_stands self.old other }
        ensures calls { mem_calls self.new ≡ mem_calls self.old }
        ensures shows { mem_shows self.new ≡ mem_shows self.old }
        ensures memory { IsErrOf result DiskError.Failed → ⊥ }
    {
        let behind = Bytes::new(bytes.to_vec(alloc)?);
        self.push(Event::Append(name, behind))
    }

    // Puts the first half of the bytes behind a log's, rounded down.
    fn put_half_behind(&mut self, alloc: Global, name: Name, bytes: &[u8]) -> Result<(), DiskError>
        requires { mem_open self.old name ≡ true }
        ensures happened { OnOk result (PutsBehind name (take (length bytes.now / 2) bytes.now) self.old self.new) }
        ensures same { OnErr result (Untouched self.old self.new) }
        ensures part { AppendFailed name bytes.now (mem_view self.old) (mem_view self.new) }
        ensures writing { (other : Name) → mem_open self.new other ≡ mem_open self.old other }
        ensures stands { (other : Name) → mem_stands self.new other ≡ mem_stands self.old other }
        ensures calls { mem_calls self.new ≡ mem_calls self.old }
        ensures shows { mem_shows self.new ≡ mem_shows self.old }
        ensures memory { IsErrOf result DiskError.Failed → ⊥ }
    {
        self.put_behind(alloc, name, &bytes[..bytes.len() / 2])
    }

    // The bytes of the file under a name.
    fn file(&self, name: Name) -> Option<&Arc<Bytes>>
        requires { is_file name ≡ true }
        ensures { value_bytes (option_copied result) ≡ (mem_view self.now).contents name }
    {
        file_under(&self.events, name)
    }

    // The wanted bytes of the log under a name.
    fn piece(&self, alloc: Global, name: Name, wanted: Wanted) -> Result<Vec<u8>, AllocError>
        requires { is_file name ≡ false }
        ensures { IfOk result (λ piece. IfSome ((mem_view self.now).contents name) (λ bytes. piece.items ≡ wanted_of wanted bytes)) }
    {
        piece_under(alloc, &self.events, name, wanted)
    }

    // The length of the log under a name.
    fn len_of_log(&self, name: Name) -> Result<u64, AllocError>
        requires { is_file name ≡ false }
        ensures { IfOk result (λ len. IfSome ((mem_view self.now).contents name) (λ bytes. len ≡ length bytes)) }
    {
        len_under(&self.events, name)
    }

    // All names, in order.
    fn all_names(&self, alloc: Global) -> Result<Vec<Name>, AllocError>
        ensures order { IfOk result (λ names. IsStrictlySortedBy ⟦<Name as Ord>⟧.cmp names.items) }
        ensures all { IfOk result (λ names. (name : Name) → Contains names.items name ↔ IsSome ((mem_view self.now).contents name)) }
    {
        names_in(alloc, &self.events)
    }
}

// Each call that has `&mut self` is counted, and fails exactly where its number is listed.
impl Volume for MemVolume {
    ghost use Rattle.std.specs.Prelude.{◌≡◌, ◌≢◌, ◌≤◌, ◌↔◌, ◌⊎◌, ◌/◌, take, Bool, true, false, ℕ, List, [], Option, None, Some, length, IfOk, OnOk, OnErr, IfSome, IsSome, IsErrOf, IsTrue, refl};
    ghost use Rattle.std.specs.List.{Contains};
    ghost use Rattle.std.specs.List.Sorted.{IsStrictlySortedBy};
    ghost use Rattle.mg_faults.specs.Causes.{HasCause, CountsOnce};
    ghost use Rattle.mg_types.specs.declared.names.Name.{Name};
    ghost use Rattle.mg_disk.specs.Files.{ReadsAt, found_bytes};
    ghost use Rattle.mg_disk.specs.Images.{Stays, NameSet, NameInDoubt, Appended, AppendFailed, Synced};
    ghost use Rattle.mg_types.specs.Names.{IsFileName, IsLogName};
    ghost use Rattle.mg_disk.specs.Names.{KeepsEach};
    ghost use Rattle.mg_memdisk.specs.declared.volumes.MemVolume.{MemVolume};
    ghost use Rattle.mg_faults.specs.Calls.{next_fails, after_call};
    ghost use Rattle.mg_faults.specs.Causes.{kept_count};
    ghost use Rattle.mg_memdisk.specs.Files.{sealed_bytes};
    ghost use Rattle.mg_memdisk.specs.Volumes.{mem_view, mem_open, mem_stands, mem_calls, mem_shows, mem_log_name, Pushes, Untouched, PutsName, DoubtsName, PutsBehind};
    ghost use Rattle.mg_memdisk.specs.declared.events.Event.TheVariants.{Sync};
    ghost use Rattle.mg_memdisk.specs.Laws.{view_leaves_contents, view_counts_now, view_only_now, contents_hold_bytes, images_hold_bytes};
    ghost use Rattle.mg_faults.proofs.CallLaws.{kept_is_bounded};

    type Port = MemFiles;

    type Log = MemLog;

    ghost tells = { true };

    ghost view = { mem_view };

    ghost log_name = { mem_log_name };

    ghost in_writing = { λ volume log. mem_open volume (mem_log_name log) };

    ghost stands_for = { mem_stands };

    ghost faults = { λ volume. kept_count (mem_calls volume).faults };

    fn names(&mut self, alloc: Global) -> Result<Vec<Name>, DiskError>
        ensures order { IfOk result (λ names. IsStrictlySortedBy ⟦<Name as Ord>⟧.cmp names.items) }
        ensures all { IfOk result (λ names. (name : Name) → Contains names.items name ↔ IsSome ((mem_view self.old).contents name)) }
        ensures stays { Stays (mem_view self.old) (mem_view self.new) }
        ensures writing { (other : Name) → mem_open self.new other ≡ mem_open self.old other }
        ensures standing { (other : Name) → mem_stands self.new other ≡ mem_stands self.old other }
        ensures cause { HasCause DiskError.Failed (kept_count (mem_calls self.old).faults) (kept_count (mem_calls self.new).faults) result }
        ensures once { CountsOnce (kept_count (mem_calls self.old).faults) (kept_count (mem_calls self.new).faults) result }
        ensures counted { mem_calls self.new ≡ after_call (mem_calls self.old) }
        ensures shows { mem_shows self.new ≡ mem_shows self.old }
        ensures fails { IsErrOf result DiskError.Failed ↔ IsTrue (next_fails (mem_calls self.old)) }
        ensures same { Untouched self.old self.new }
    {
        count_call(&mut self.calls)?;
        Ok(self.all_names(alloc)?)
    }

    fn find_file(&mut self, _: Global, name: Name) -> Result<Option<MemSealed>, DiskError>
        requires { IsFileName name }
        ensures found { IfOk result (λ found. found_bytes (λ file. Some (sealed_bytes file)) found ≡ (mem_view self.old).contents name) }
        ensures given { IfOk result (λ found. IfSome found (λ file. mem_stands self.new name ≡ Some (sealed_bytes file))) }
        ensures stays { Stays (mem_view self.old) (mem_view self.new) }
        ensures writing { (other : Name) → mem_open self.new other ≡ mem_open self.old other }
        ensures keeps { KeepsEach (mem_stands self.old) (mem_stands self.new) }
        ensures standing { (other : Name) → mem_stands self.new other ≡ mem_stands self.old other }
        ensures cause { HasCause DiskError.Failed (kept_count (mem_calls self.old).faults) (kept_count (mem_calls self.new).faults) result }
        ensures once { CountsOnce (kept_count (mem_calls self.old).faults) (kept_count (mem_calls self.new).faults) result }
        ensures counted { mem_calls self.new ≡ after_call (mem_calls self.old) }
        ensures shows { mem_shows self.new ≡ mem_shows self.old }
        ensures fails { IsErrOf result DiskError.Failed ↔ IsTrue (next_fails (mem_calls self.old)) }
        ensures same { Untouched self.old self.new }
    {
        count_call(&mut self.calls)?;
        match self.file(name) {
            Some(bytes) => Ok(Some(MemSealed {
                bytes: Arc::try_clone(bytes)?,
            })),
            None => Ok(None),
        }
    }

    fn adopt(&mut self, _: Global, name: Name, file: &MemSealed) -> Result<(), DiskError>
        requires { IsFileName name }
        ensures set { OnOk result (NameSet name (Some (sealed_bytes file.now)) (mem_view self.old) (mem_view self.new)) }
        ensures doubt { OnErr result (NameInDoubt name (Some (sealed_bytes file.now)) (mem_view self.old) (mem_view self.new)) }
        ensures writing { (other : Name) → mem_open self.new other ≡ mem_open self.old other }
        ensures standing { (other : Name) → other ≢ name → mem_stands self.new other ≡ mem_stands self.old other }
        ensures given { OnOk result (mem_stands self.new name ≡ Some (sealed_bytes file.now)) }
        ensures cause { HasCause DiskError.Failed (kept_count (mem_calls self.old).faults) (kept_count (mem_calls self.new).faults) result }
        ensures once { CountsOnce (kept_count (mem_calls self.old).faults) (kept_count (mem_calls self.new).faults) result }
        ensures counted { mem_calls self.new ≡ after_call (mem_calls self.old) }
        ensures shows { mem_shows self.new ≡ mem_shows self.old }
        ensures fails { IsErrOf result DiskError.Failed → IsTrue (next_fails (mem_calls self.old)) }
        ensures listed { OnOk result (next_fails (mem_calls self.old) ≡ false) }
        ensures happened { OnOk result (PutsName name (Some (sealed_bytes file.now)) self.old self.new) }
        ensures doubted { IsErrOf result DiskError.Failed → DoubtsName name (Some (sealed_bytes file.now)) self.old self.new }
        ensures same { IsErrOf result DiskError.NoMemory → Untouched self.old self.new }
    {
        match count_call(&mut self.calls) {
            Ok(()) => self.put(name, Some(Arc::try_clone(&file.bytes)?)),
            Err(failed) => {
                self.doubt(name, Some(Arc::try_clone(&file.bytes)?))?;
                Err(failed)
            }
        }
    }

    fn remove(&mut self, _: Global, name: Name) -> Result<(), DiskError>
        ensures set { OnOk result (NameSet name None (mem_view self.old) (mem_view self.new)) }
        ensures doubt { OnErr result (NameInDoubt name None (mem_view self.old) (mem_view self.new)) }
        ensures writing { (other : Name) → other ≢ name → mem_open self.new other ≡ mem_open self.old other }
        ensures standing { (other : Name) → other ≢ name → mem_stands self.new other ≡ mem_stands self.old other }
        ensures gone { OnOk result (mem_stands self.new name ≡ None) }
        ensures still { OnErr result ((mem_stands self.new name ≡ mem_stands self.old name) ⊎ (mem_stands self.new name ≡ None)) }
        ensures cause { HasCause DiskError.Failed (kept_count (mem_calls self.old).faults) (kept_count (mem_calls self.new).faults) result }
        ensures once { CountsOnce (kept_count (mem_calls self.old).faults) (kept_count (mem_calls self.new).faults) result }
        ensures counted { mem_calls self.new ≡ after_call (mem_calls self.old) }
        ensures shows { mem_shows self.new ≡ mem_shows self.old }
        ensures fails { IsErrOf result DiskError.Failed → IsTrue (next_fails (mem_calls self.old)) }
        ensures listed { OnOk result (next_fails (mem_calls self.old) ≡ false) }
        ensures happened { OnOk result (PutsName name (None) self.old self.new) }
        ensures doubted { IsErrOf result DiskError.Failed → DoubtsName name (None) self.old self.new }
        ensures same { IsErrOf result DiskError.NoMemory → Untouched self.old self.new }
    {
        match count_call(&mut self.calls) {
            Ok(()) => self.put(name, None),
            Err(failed) => {
                self.doubt(name, None)?;
                Err(failed)
            }
        }
    }

    fn holds(&self, name: Name, file: &MemSealed) -> bool
        ensures { IsTrue result ↔ (mem_stands self.now name ≡ Some (sealed_bytes file.now)) }
    {
        is_file_name(name) && has_bytes(self.file(name), &file.bytes.items)
    }

    fn new_log(&mut self, alloc: Global, name: Name) -> Result<MemLog, DiskError>
        requires { IsLogName name }
        ensures set { OnOk result (NameSet name (Some []) (mem_view self.old) (mem_view self.new)) }
        ensures doubt { OnErr result (NameInDoubt name (Some []) (mem_view self.old) (mem_view self.new)) }
        ensures writing { (other : Name) → other ≢ name → mem_open self.new other ≡ mem_open self.old other }
        ensures standing { (other : Name) → other ≢ name → mem_stands self.new other ≡ mem_stands self.old other }
        ensures named { IfOk result (λ log. mem_log_name log ≡ name) }
        ensures opens { IfOk result (λ log. IsTrue (mem_open self.new (mem_log_name log))) }
        ensures cause { HasCause DiskError.Failed (kept_count (mem_calls self.old).faults) (kept_count (mem_calls self.new).faults) result }
        ensures once { CountsOnce (kept_count (mem_calls self.old).faults) (kept_count (mem_calls self.new).faults) result }
        ensures counted { mem_calls self.new ≡ after_call (mem_calls self.old) }
        ensures shows { mem_shows self.new ≡ mem_shows self.old }
        ensures fails { IsErrOf result DiskError.Failed → IsTrue (next_fails (mem_calls self.old)) }
        ensures listed { OnOk result (next_fails (mem_calls self.old) ≡ false) }
        ensures happened { OnOk result (PutsName name (Some []) self.old self.new) }
        ensures doubted { IsErrOf result DiskError.Failed → DoubtsName name (Some []) self.old self.new }
        ensures same { IsErrOf result DiskError.NoMemory → Untouched self.old self.new }
    {
        match count_call(&mut self.calls) {
            Ok(()) => {
                let empty = empty(alloc)?;
                self.put(name, Some(empty))?;
                Ok(MemLog { name })
            }
            Err(failed) => {
                self.doubt(name, Some(empty(alloc)?))?;
                Err(failed)
            }
        }
    }

    // A call that fails has appended the first half, rounded down.
    fn append(&mut self, alloc: Global, log: &mut MemLog, bytes: &[u8]) -> Result<(), DiskError>
        requires { IsTrue (mem_open self.old (mem_log_name log.old)) }
        ensures appended { OnOk result (Appended (mem_log_name log.old) bytes.now (mem_view self.old) (mem_view self.new)) }
        ensures part { OnErr result (AppendFailed (mem_log_name log.old) bytes.now (mem_view self.old) (mem_view self.new)) }
        ensures named { mem_log_name log.new ≡ mem_log_name log.old }
        ensures open { IsTrue (mem_open self.new (mem_log_name log.new)) }
        ensures writing { (other : Name) → mem_open self.new other ≡ mem_open self.old other }
        ensures standing { (other : Name) → mem_stands self.new other ≡ mem_stands self.old other }
        ensures cause { HasCause DiskError.Failed (kept_count (mem_calls self.old).faults) (kept_count (mem_calls self.new).faults) result }
        ensures once { CountsOnce (kept_count (mem_calls self.old).faults) (kept_count (mem_calls self.new).faults) result }
        ensures counted { mem_calls self.new ≡ after_call (mem_calls self.old) }
        ensures shows { mem_shows self.new ≡ mem_shows self.old }
        ensures fails { IsErrOf result DiskError.Failed → IsTrue (next_fails (mem_calls self.old)) }
        ensures listed { OnOk result (next_fails (mem_calls self.old) ≡ false) }
        ensures happened { OnOk result (PutsBehind (mem_log_name log.old) bytes.now self.old self.new) }
        ensures half { IsErrOf result DiskError.Failed → PutsBehind (mem_log_name log.old) (take (length bytes.now / 2) bytes.now) self.old self.new }
        ensures same { IsErrOf result DiskError.NoMemory → Untouched self.old self.new }
    {
        match count_call(&mut self.calls) {
            Ok(()) => self.put_behind(alloc, log.name, bytes),
            Err(failed) => {
                self.put_half_behind(alloc, log.name, bytes)?;
                Err(failed)
            }
        }
    }

    fn sync(&mut self, _: Global, log: &mut MemLog) -> Result<(), DiskError>
        requires { IsTrue (mem_open self.old (mem_log_name log.old)) }
        ensures synced { OnOk result (Synced (mem_log_name log.old) (mem_view self.old) (mem_view self.new)) }
        ensures stays { OnErr result (Stays (mem_view self.old) (mem_view self.new)) }
        ensures named { mem_log_name log.new ≡ mem_log_name log.old }
        ensures open { IsTrue (mem_open self.new (mem_log_name log.new)) }
        ensures writing { (other : Name) → mem_open self.new other ≡ mem_open self.old other }
        ensures standing { (other : Name) → mem_stands self.new other ≡ mem_stands self.old other }
        ensures cause { HasCause DiskError.Failed (kept_count (mem_calls self.old).faults) (kept_count (mem_calls self.new).faults) result }
        ensures once { CountsOnce (kept_count (mem_calls self.old).faults) (kept_count (mem_calls self.new).faults) result }
        ensures counted { mem_calls self.new ≡ after_call (mem_calls self.old) }
        ensures shows { mem_shows self.new ≡ mem_shows self.old }
        ensures fails { IsErrOf result DiskError.Failed ↔ IsTrue (next_fails (mem_calls self.old)) }
        ensures happened { OnOk result (Pushes (Sync (mem_log_name log.old)) self.old self.new) }
        ensures same { OnErr result (Untouched self.old self.new) }
    {
        count_call(&mut self.calls)?;
        self.push(Event::Sync(log.name))
    }

    fn log_len(&mut self, _: Global, name: Name) -> Result<u64, DiskError>
        requires kind { IsLogName name }
        requires there { IsSome ((mem_view self.old).contents name) }
        ensures len { IfOk result (λ len. IfSome ((mem_view self.old).contents name) (λ bytes. len ≡ length bytes)) }
        ensures stays { Stays (mem_view self.old) (mem_view self.new) }
        ensures writing { (other : Name) → mem_open self.new other ≡ mem_open self.old other }
        ensures standing { (other : Name) → mem_stands self.new other ≡ mem_stands self.old other }
        ensures cause { HasCause DiskError.Failed (kept_count (mem_calls self.old).faults) (kept_count (mem_calls self.new).faults) result }
        ensures once { CountsOnce (kept_count (mem_calls self.old).faults) (kept_count (mem_calls self.new).faults) result }
        ensures counted { mem_calls self.new ≡ after_call (mem_calls self.old) }
        ensures shows { mem_shows self.new ≡ mem_shows self.old }
        ensures fails { IsErrOf result DiskError.Failed ↔ IsTrue (next_fails (mem_calls self.old)) }
        ensures same { Untouched self.old self.new }
    {
        count_call(&mut self.calls)?;
        Ok(self.len_of_log(name)?)
    }

    fn read_log(
        &mut self,
        alloc: Global,
        name: Name,
        at: u64,
        buf: &mut [u8],
    ) -> Result<usize, DiskError>
        requires kind { IsLogName name }
        requires there { IsSome ((mem_view self.old).contents name) }
        ensures bound { IfOk result (λ count. count ≤ length buf.old) }
        ensures bytes { IfOk result (λ count. IfSome ((mem_view self.old).contents name) (λ bytes. ReadsAt bytes at buf.old buf.new count)) }
        ensures stays { Stays (mem_view self.old) (mem_view self.new) }
        ensures writing { (other : Name) → mem_open self.new other ≡ mem_open self.old other }
        ensures standing { (other : Name) → mem_stands self.new other ≡ mem_stands self.old other }
        ensures cause { HasCause DiskError.Failed (kept_count (mem_calls self.old).faults) (kept_count (mem_calls self.new).faults) result }
        ensures once { CountsOnce (kept_count (mem_calls self.old).faults) (kept_count (mem_calls self.new).faults) result }
        ensures counted { mem_calls self.new ≡ after_call (mem_calls self.old) }
        ensures shows { mem_shows self.new ≡ mem_shows self.old }
        ensures fails { IsErrOf result DiskError.Failed ↔ IsTrue (next_fails (mem_calls self.old)) }
        ensures same { Untouched self.old self.new }
    {
        count_call(&mut self.calls)?;
        let most = buf.len();
        let piece = self.piece(alloc, name, Wanted { at, most })?;
        Ok(read_at(&piece, 0, buf))
    }

    ghost may_leave_contents = { λ tells volume. view_leaves_contents volume };

    ghost counts_now = { λ tells volume t c before now. view_counts_now volume t c before now };

    ghost only_now = { λ tells volume c left. view_only_now volume c left };

    ghost port_tells = { λ tells file. refl };

    ghost contents_are_bytes = { λ tells volume. contents_hold_bytes volume };

    ghost images_are_bytes = { λ tells volume t c left. images_hold_bytes volume t c left };

    ghost bounded = { λ volume. kept_is_bounded (mem_calls volume).faults };
}

impl SendVolume for MemVolume {}

// No bytes.
fn empty(alloc: Global) -> Result<Arc<Bytes>, AllocError>
    ensures { IfOk result (λ bytes. value_bytes (Some bytes) ≡ Some []) }
{
    Ok(Arc::new(alloc, Bytes::new(Vec::new(alloc)))?)
}

// Whether names of that kind are those of sealed files.
fn is_file_name(name: Name) -> bool
    ensures { result ≡ is_file name }
{
    name.kind.is_file()
}

// Whether a file was found and has these bytes.
fn has_bytes(found: Option<&Arc<Bytes>>, bytes: &[u8]) -> bool
    ensures { IsTrue result ↔ (value_bytes (option_copied found.entry) ≡ Some bytes.now) }
{
    match found {
        Some(there) => there.items.as_slice() == bytes,
        None => false,
    }
}
