//! Small clients, proved over every volume and host. They are public to show that what the traits say is enough to store
//! bytes and read them again after a crash.

ghost use Rattle.std.specs.Prelude.{◌≡◌, ◌≢◌, ◌≤◌, ◌<◌, ◌++◌, List, ℕ, None, Some, length, IfOk, OnOk, OnErr, IfSome, IsSome, IsSomeAnd, IsTrue, false};
ghost use Rattle.mg_faults.specs.Causes.{CountsOnce, HasCause, last_count};
ghost use Rattle.mg_disk.specs.Files.{ReadsAt};
ghost use Rattle.mg_disk.specs.Hosts.{IsVolume, SameButFor};
ghost use Rattle.mg_disk.specs.Images.{View, KeepsOthers, LogGrew, LogGrewByFront, SameOrFront, Stays};
ghost use Rattle.mg_disk.specs.Moments.{LeavesOnly, EachImage, Begins, OthersAsLeft, LeftOrLog};
ghost use Rattle.mg_types.specs.declared.names.Name.{Name};
ghost use Rattle.mg_types.specs.Names.{IsLogName};

use crate::{DiskError, Host, Volume};
use mg_types::Name;
use std::alloc::Global;

/// Appends to a log and syncs it. From Ok on each crash leaves a log that has the bytes. After an error a front of them may
/// stand behind the log's. A crash at any moment of the call leaves a log that begins with what each crash left of it before.
pub fn append_and_sync<V: Volume>(
    alloc: Global,
    volume: &mut V,
    log: &mut V::Log,
    bytes: &[u8],
) -> Result<(), DiskError>
    requires { IsTrue (V.in_writing volume.old log.old) }
    ensures lasting { IsTrue V.tells → OnOk result (EachImage (V.view volume.new)
        (λ image. image (V.log_name log.old) ≡ (V.view volume.new).contents (V.log_name log.old))) }
    ensures contents { IsTrue V.tells → OnOk result ((found : List ℕ) × ((V.view volume.old).contents (V.log_name log.old) ≡ Some found)
        × ((V.view volume.new).contents (V.log_name log.old) ≡ Some (found ++ bytes.now))) }
    ensures grew { IsTrue V.tells → OnOk result (LogGrew (V.log_name log.old) bytes.now (V.view volume.old) (V.view volume.new)) }
    ensures part { IsTrue V.tells → OnErr result (LogGrewByFront (V.log_name log.old) bytes.now (V.view volume.old) (V.view volume.new)) }
    ensures others { IsTrue V.tells → KeepsOthers (V.log_name log.old) (V.view volume.old).contents (V.view volume.new).contents }
    ensures still { IsTrue V.tells → (kept : List ℕ) → EachImage (V.view volume.old) (Begins (V.log_name log.old) kept)
        → EachImage (V.view volume.new) (Begins (V.log_name log.old) kept) }
    ensures any_moment { IsTrue V.tells → (kept : List ℕ) → EachImage (V.view volume.old) (Begins (V.log_name log.old) kept)
        → LeavesOnly (V.view volume.old) (V.view volume.new) (Begins (V.log_name log.old) kept) }
    ensures elsewhere { IsTrue V.tells → LeavesOnly (V.view volume.old) (V.view volume.new) (OthersAsLeft (V.view volume.old) (V.log_name log.old)) }
    ensures named { V.log_name log.new ≡ V.log_name log.old }
    ensures open { IsTrue (V.in_writing volume.new log.new) }
    ensures writing { (other : V.Log) → V.log_name other ≢ V.log_name log.old → V.in_writing volume.new other ≡ V.in_writing volume.old other }
    ensures standing { (name : Name) → V.stands_for volume.new name ≡ V.stands_for volume.old name }
    ensures cause { HasCause DiskError.Failed (V.faults volume.old) (V.faults volume.new) result }
    ensures once { CountsOnce (V.faults volume.old) (V.faults volume.new) result }
{
    volume.append(alloc, log, bytes)?;
    volume.sync(alloc, log)
}

/// Appends to a log. A crash at any moment of the call leaves a log that begins with what each crash left of it before.
pub fn append_behind<V: Volume>(
    alloc: Global,
    volume: &mut V,
    log: &mut V::Log,
    bytes: &[u8],
) -> Result<(), DiskError>
    requires { IsTrue (V.in_writing volume.old log.old) }
    ensures still { IsTrue V.tells → (kept : List ℕ) → EachImage (V.view volume.old) (Begins (V.log_name log.old) kept)
        → EachImage (V.view volume.new) (Begins (V.log_name log.old) kept) }
    ensures any_moment { IsTrue V.tells → (kept : List ℕ) → EachImage (V.view volume.old) (Begins (V.log_name log.old) kept)
        → LeavesOnly (V.view volume.old) (V.view volume.new) (Begins (V.log_name log.old) kept) }
    ensures contents { IsTrue V.tells → OnOk result ((found : List ℕ) × ((V.view volume.old).contents (V.log_name log.old) ≡ Some found)
        × ((V.view volume.new).contents (V.log_name log.old) ≡ Some (found ++ bytes.now))) }
    ensures grew { IsTrue V.tells → OnOk result (LogGrew (V.log_name log.old) bytes.now (V.view volume.old) (V.view volume.new)) }
    ensures part { IsTrue V.tells → OnErr result (LogGrewByFront (V.log_name log.old) bytes.now (V.view volume.old) (V.view volume.new)) }
    ensures others { IsTrue V.tells → KeepsOthers (V.log_name log.old) (V.view volume.old).contents (V.view volume.new).contents }
    ensures elsewhere { IsTrue V.tells → LeavesOnly (V.view volume.old) (V.view volume.new) (OthersAsLeft (V.view volume.old) (V.log_name log.old)) }
    ensures named { V.log_name log.new ≡ V.log_name log.old }
    ensures open { IsTrue (V.in_writing volume.new log.new) }
    ensures writing { (other : V.Log) → V.log_name other ≢ V.log_name log.old → V.in_writing volume.new other ≡ V.in_writing volume.old other }
    ensures standing { (name : Name) → V.stands_for volume.new name ≡ V.stands_for volume.old name }
    ensures cause { HasCause DiskError.Failed (V.faults volume.old) (V.faults volume.new) result }
    ensures once { CountsOnce (V.faults volume.old) (V.faults volume.new) result }
{
    volume.append(alloc, log, bytes)
}

/// Borrows volume n and reads one of its logs from the start: after a crash, the log of the one image that the crash left.
/// None where there is no such name.
pub fn read_found<H: Host>(
    alloc: Global,
    host: &mut H,
    n: u16,
    name: Name,
    buf: &mut [u8],
) -> Result<Option<usize>, DiskError>
    requires exists { IsVolume n }
    requires here { (H.state host.old).out n ≡ false }
    requires kind { IsLogName name }
    ensures bytes { IsTrue H.Vol.tells → (vol : H.Vol) (log : List ℕ) → (H.state host.old).inside n ≡ Some vol → (H.Vol.view vol).contents name ≡ Some log
        → IfOk result (λ found. IsSomeAnd found (λ count. ReadsAt log 0 buf.old buf.new count)) }
    ensures absent { IsTrue H.Vol.tells → (vol : H.Vol) → (H.state host.old).inside n ≡ Some vol → (H.Vol.view vol).contents name ≡ None
        → IfOk result (λ found. found ≡ None) }
    ensures bound { IfOk result (λ found. IfSome found (λ count. count ≤ length buf.old)) }
    ensures untouched { IfOk result (λ found. found ≡ None → buf.new ≡ buf.old) }
    ensures keeps { IsTrue H.Vol.tells → (before after : H.Vol) → (H.state host.old).inside n ≡ Some before
        → (H.state host.new).inside n ≡ Some after → (H.Vol.view after).contents ≡ (H.Vol.view before).contents }
    ensures images { IsTrue H.Vol.tells → (before after : H.Vol) → (H.state host.old).inside n ≡ Some before
        → (H.state host.new).inside n ≡ Some after → EachImage (H.Vol.view after) (H.Vol.view before).may_leave }
    ensures back { (H.state host.new).out n ≡ false }
    ensures rest { SameButFor n (H.state host.old) (H.state host.new) }
    ensures cause { (H.state host.new).lent_faults n < last_count → HasCause DiskError.Failed (H.faults host.old) (H.faults host.new) result }
    ensures once { CountsOnce (H.faults host.old) (H.faults host.new) result }
{
    let mut volume = host.volume(alloc, n)?;
    let taken = read_if_there(alloc, &mut volume, name, buf);
    host.give_back(n, volume);
    taken
}

// Reads a log from the start, if there is one of that name.
fn read_if_there<V: Volume>(
    alloc: Global,
    volume: &mut V,
    name: Name,
    buf: &mut [u8],
) -> Result<Option<usize>, DiskError>
    requires { IsLogName name }
    ensures bytes { IsTrue V.tells → (log : List ℕ) → (V.view volume.old).contents name ≡ Some log
        → IfOk result (λ found. IsSomeAnd found (λ count. ReadsAt log 0 buf.old buf.new count)) }
    ensures absent { IsTrue V.tells → (V.view volume.old).contents name ≡ None → IfOk result (λ found. found ≡ None) }
    ensures bound { IfOk result (λ found. IfSome found (λ count. count ≤ length buf.old)) }
    ensures untouched { IfOk result (λ found. found ≡ None → buf.new ≡ buf.old) }
    ensures keeps { IsTrue V.tells → (V.view volume.new).contents ≡ (V.view volume.old).contents }
    ensures images { IsTrue V.tells → EachImage (V.view volume.new) (V.view volume.old).may_leave }
    ensures cause { HasCause DiskError.Failed (V.faults volume.old) (V.faults volume.new) result }
    ensures once { CountsOnce (V.faults volume.old) (V.faults volume.new) result }
{
    let names = volume.names(alloc)?;
    if !names.contains(&name) {
        return Ok(None);
    }
    Ok(Some(volume.read_log(alloc, name, 0, buf)?))
}

/// Borrows volume n and makes a log of these bytes in it, synced. False where the name is there already.
/// After an error there may be a log of a front of the bytes, and after a crash one of other bytes. The volume is given
/// back whatever happens.
pub fn store_log<H: Host>(
    alloc: Global,
    host: &mut H,
    n: u16,
    name: Name,
    bytes: &[u8],
) -> Result<bool, DiskError>
    requires exists { IsVolume n }
    requires here { (H.state host.old).out n ≡ false }
    requires kind { IsLogName name }
    ensures stored { IsTrue H.Vol.tells → IfOk result (λ made. IsTrue made → (vol : H.Vol) → (H.state host.new).inside n ≡ Some vol
        → EachImage (H.Vol.view vol) (λ image. image name ≡ Some bytes.now)) }
    ensures taken { IsTrue H.Vol.tells → IfOk result (λ made. made ≡ false → (vol : H.Vol) → (H.state host.old).inside n ≡ Some vol
        → IsSome ((H.Vol.view vol).contents name)) }
    ensures others { IsTrue H.Vol.tells → (before after : H.Vol) → (H.state host.old).inside n ≡ Some before
        → (H.state host.new).inside n ≡ Some after → KeepsOthers name (H.Vol.view before).contents (H.Vol.view after).contents }
    ensures kept { IsTrue H.Vol.tells → (before after : H.Vol) → (H.state host.old).inside n ≡ Some before
        → (H.state host.new).inside n ≡ Some after → IsSome ((H.Vol.view before).contents name)
        → ((H.Vol.view after).contents ≡ (H.Vol.view before).contents) × IfOk result (λ made. made ≡ false) }
    ensures doubt { IsTrue H.Vol.tells → OnErr result ((before after : H.Vol) → (H.state host.old).inside n ≡ Some before
        → (H.state host.new).inside n ≡ Some after → SameOrFront name bytes.now (H.Vol.view before).contents (H.Vol.view after).contents) }
    ensures images { IsTrue H.Vol.tells → (before after : H.Vol) → (H.state host.old).inside n ≡ Some before
        → (H.state host.new).inside n ≡ Some after → EachImage (H.Vol.view after) (LeftOrLog (H.Vol.view before) name) }
    ensures back { (H.state host.new).out n ≡ false }
    ensures rest { SameButFor n (H.state host.old) (H.state host.new) }
    ensures cause { (H.state host.new).lent_faults n < last_count → HasCause DiskError.Failed (H.faults host.old) (H.faults host.new) result }
    ensures once { CountsOnce (H.faults host.old) (H.faults host.new) result }
{
    let mut volume = host.volume(alloc, n)?;
    let made = store_if_free(alloc, &mut volume, name, bytes);
    host.give_back(n, volume);
    made
}

// Makes a log of these bytes, synced, if there is none of that name.
fn store_if_free<V: Volume>(
    alloc: Global,
    volume: &mut V,
    name: Name,
    bytes: &[u8],
) -> Result<bool, DiskError>
    requires { IsLogName name }
    ensures stored { IsTrue V.tells → IfOk result (λ made. IsTrue made → EachImage (V.view volume.new) (λ image. image name ≡ Some bytes.now)) }
    ensures taken { IsTrue V.tells → IfOk result (λ made. made ≡ false → IsSome ((V.view volume.old).contents name)) }
    ensures others { IsTrue V.tells → KeepsOthers name (V.view volume.old).contents (V.view volume.new).contents }
    ensures kept { IsTrue V.tells → IsSome ((V.view volume.old).contents name) → Stays (V.view volume.old) (V.view volume.new)
        × IfOk result (λ made. made ≡ false) }
    ensures doubt { IsTrue V.tells → OnErr result (SameOrFront name bytes.now (V.view volume.old).contents (V.view volume.new).contents) }
    ensures any_moment { IsTrue V.tells → LeavesOnly (V.view volume.old) (V.view volume.new) (LeftOrLog (V.view volume.old) name) }
    ensures cause { HasCause DiskError.Failed (V.faults volume.old) (V.faults volume.new) result }
    ensures once { CountsOnce (V.faults volume.old) (V.faults volume.new) result }
{
    if volume.names(alloc)?.contains(&name) {
        return Ok(false);
    }
    let mut log = volume.new_log(alloc, name)?;
    append_and_sync(alloc, volume, &mut log, bytes)?;
    Ok(true)
}
