//! Small clients of sealed files, proved over every host: a file is written, sealed and adopted, and found and read again,
//! also after a crash.

ghost use Rattle.std.specs.Prelude.{◌≡◌, ◌≢◌, ◌≤◌, ◌<◌, List, ℕ, None, Some, length, IfOk, OnErr, IfSome, IsSome, IsSomeAnd, IsTrue, false};
ghost use Rattle.mg_faults.specs.Causes.{CountsOnce, HasCause, last_count};
ghost use Rattle.mg_disk.specs.Files.{ReadsAt, found_bytes};
ghost use Rattle.mg_disk.specs.Hosts.{IsVolume, SameButFor};
ghost use Rattle.mg_disk.specs.Images.{KeepsOthers, SameOrSets, Stays};
ghost use Rattle.mg_disk.specs.Moments.{EachImage, LeavesOnly, LeftOrSet};
ghost use Rattle.mg_types.specs.declared.names.Name.{Name};
ghost use Rattle.mg_types.specs.Names.{IsFileName};

use crate::{DiskError, Files, Host, Volume};
use mg_types::Name;
use std::alloc::Global;

/// Writes a sealed file of these bytes.
pub fn write_file<F: Files>(
    alloc: Global,
    port: &mut F,
    bytes: &[u8],
) -> Result<F::Sealed, DiskError>
    ensures told { IfOk result (λ file. IfSome (F.told file) (λ told. told ≡ bytes.now)) }
    ensures cause { HasCause DiskError.Failed (F.faults port.old) (F.faults port.new) result }
    ensures once { CountsOnce (F.faults port.old) (F.faults port.new) result }
{
    let mut draft = port.fresh(alloc)?;
    port.append(alloc, &mut draft, bytes)?;
    port.seal(alloc, draft)
}

/// Lets a free name stand for a file, also after each crash. False where the name is there already.
/// After an error the name may stand for the file, and after a crash it may or not.
pub fn adopt_file<V: Volume>(
    alloc: Global,
    volume: &mut V,
    name: Name,
    file: &<V::Port as Files>::Sealed,
) -> Result<bool, DiskError>
    requires { IsFileName name }
    ensures lasting { IsTrue V.tells → IfOk result (λ made. IsTrue made → EachImage (V.view volume.new) (λ image. image name ≡ V.Port.told file.now)) }
    ensures taken { IsTrue V.tells → IfOk result (λ made. made ≡ false → IsSome ((V.view volume.old).contents name)) }
    ensures others { IsTrue V.tells → KeepsOthers name (V.view volume.old).contents (V.view volume.new).contents }
    ensures kept { IsTrue V.tells → IsSome ((V.view volume.old).contents name) → Stays (V.view volume.old) (V.view volume.new)
        × IfOk result (λ made. made ≡ false) }
    ensures doubt { IsTrue V.tells → OnErr result (SameOrSets name (V.Port.told file.now) (V.view volume.old).contents (V.view volume.new).contents) }
    ensures any_moment { IsTrue V.tells → LeavesOnly (V.view volume.old) (V.view volume.new) (LeftOrSet (V.view volume.old) name (V.Port.told file.now)) }
    ensures given { IfOk result (λ made. IsTrue made → V.stands_for volume.new name ≡ Some (V.Port.identity file.now)) }
    ensures standing { (other : Name) → other ≢ name → V.stands_for volume.new other ≡ V.stands_for volume.old other }
    ensures writing { (log : V.Log) → V.in_writing volume.new log ≡ V.in_writing volume.old log }
    ensures cause { HasCause DiskError.Failed (V.faults volume.old) (V.faults volume.new) result }
    ensures once { CountsOnce (V.faults volume.old) (V.faults volume.new) result }
{
    if volume.names(alloc)?.contains(&name) {
        return Ok(false);
    }
    volume.adopt(alloc, name, file)?;
    Ok(true)
}

/// Borrows a port, writes a sealed file of these bytes, borrows volume n and lets a free name stand for the file, also after
/// each crash. False where the name is there already. What was borrowed is given back whatever happens.
pub fn store_file<H: Host>(
    alloc: Global,
    host: &mut H,
    n: u16,
    name: Name,
    bytes: &[u8],
) -> Result<bool, DiskError>
    requires exists { IsVolume n }
    requires here { (H.state host.old).out n ≡ false }
    requires kind { IsFileName name }
    ensures stored { IsTrue H.Vol.tells → IfOk result (λ made. IsTrue made → (vol : H.Vol) → (H.state host.new).inside n ≡ Some vol
        → EachImage (H.Vol.view vol) (λ image. image name ≡ Some bytes.now)) }
    ensures taken { IsTrue H.Vol.tells → IfOk result (λ made. made ≡ false → (vol : H.Vol) → (H.state host.old).inside n ≡ Some vol
        → IsSome ((H.Vol.view vol).contents name)) }
    ensures others { IsTrue H.Vol.tells → (before after : H.Vol) → (H.state host.old).inside n ≡ Some before
        → (H.state host.new).inside n ≡ Some after → KeepsOthers name (H.Vol.view before).contents (H.Vol.view after).contents }
    ensures kept { IsTrue H.Vol.tells → (before after : H.Vol) → (H.state host.old).inside n ≡ Some before
        → (H.state host.new).inside n ≡ Some after → IsSome ((H.Vol.view before).contents name)
        → ((H.Vol.view after).contents ≡ (H.Vol.view before).contents) × IfOk result (λ made. made ≡ false) }
    ensures doubt { IsTrue H.Vol.tells → OnErr result ((before after : H.Vol) → (H.state host.old).inside n ≡ Some before
        → (H.state host.new).inside n ≡ Some after → SameOrSets name (Some bytes.now) (H.Vol.view before).contents (H.Vol.view after).contents) }
    ensures images { IsTrue H.Vol.tells → (before after : H.Vol) → (H.state host.old).inside n ≡ Some before
        → (H.state host.new).inside n ≡ Some after → EachImage (H.Vol.view after) (LeftOrSet (H.Vol.view before) name (Some bytes.now)) }
    ensures back { (H.state host.new).out n ≡ false }
    ensures rest { SameButFor n (H.state host.old) (H.state host.new) }
    ensures cause { (H.state host.new).lent_faults n < last_count → HasCause DiskError.Failed (H.faults host.old) (H.faults host.new) result }
    ensures once { CountsOnce (H.faults host.old) (H.faults host.new) result }
{
    let file = write_through(alloc, host, bytes)?;
    adopt_in(alloc, host, n, name, &file)
}

// Borrows a port and writes a sealed file of these bytes.
fn write_through<H: Host>(
    alloc: Global,
    host: &mut H,
    bytes: &[u8],
) -> Result<<<H::Vol as Volume>::Port as Files>::Sealed, DiskError>
    ensures told { IfOk result (λ file. IfSome (H.Vol.Port.told file) (λ told. told ≡ bytes.now)) }
    ensures same { H.state host.new ≡ H.state host.old }
    ensures cause { HasCause DiskError.Failed (H.faults host.old) (H.faults host.new) result }
    ensures once { CountsOnce (H.faults host.old) (H.faults host.new) result }
{
    let mut port = host.files(alloc)?;
    let written = write_file(alloc, &mut port, bytes);
    host.give_port(port);
    written
}

// Borrows volume n and lets a free name stand for a file.
fn adopt_in<H: Host>(
    alloc: Global,
    host: &mut H,
    n: u16,
    name: Name,
    file: &<<H::Vol as Volume>::Port as Files>::Sealed,
) -> Result<bool, DiskError>
    requires exists { IsVolume n }
    requires here { (H.state host.old).out n ≡ false }
    requires kind { IsFileName name }
    ensures stored { IsTrue H.Vol.tells → IfOk result (λ made. IsTrue made → (vol : H.Vol) → (H.state host.new).inside n ≡ Some vol
        → EachImage (H.Vol.view vol) (λ image. image name ≡ H.Vol.Port.told file.now)) }
    ensures taken { IsTrue H.Vol.tells → IfOk result (λ made. made ≡ false → (vol : H.Vol) → (H.state host.old).inside n ≡ Some vol
        → IsSome ((H.Vol.view vol).contents name)) }
    ensures others { IsTrue H.Vol.tells → (before after : H.Vol) → (H.state host.old).inside n ≡ Some before
        → (H.state host.new).inside n ≡ Some after → KeepsOthers name (H.Vol.view before).contents (H.Vol.view after).contents }
    ensures kept { IsTrue H.Vol.tells → (before after : H.Vol) → (H.state host.old).inside n ≡ Some before
        → (H.state host.new).inside n ≡ Some after → IsSome ((H.Vol.view before).contents name)
        → ((H.Vol.view after).contents ≡ (H.Vol.view before).contents) × IfOk result (λ made. made ≡ false) }
    ensures doubt { IsTrue H.Vol.tells → OnErr result ((before after : H.Vol) → (H.state host.old).inside n ≡ Some before
        → (H.state host.new).inside n ≡ Some after → SameOrSets name (H.Vol.Port.told file.now) (H.Vol.view before).contents (H.Vol.view after).contents) }
    ensures images { IsTrue H.Vol.tells → (before after : H.Vol) → (H.state host.old).inside n ≡ Some before
        → (H.state host.new).inside n ≡ Some after → EachImage (H.Vol.view after) (LeftOrSet (H.Vol.view before) name (H.Vol.Port.told file.now)) }
    ensures back { (H.state host.new).out n ≡ false }
    ensures rest { SameButFor n (H.state host.old) (H.state host.new) }
    ensures cause { (H.state host.new).lent_faults n < last_count → HasCause DiskError.Failed (H.faults host.old) (H.faults host.new) result }
    ensures once { CountsOnce (H.faults host.old) (H.faults host.new) result }
{
    let mut volume = host.volume(alloc, n)?;
    let made = adopt_file(alloc, &mut volume, name, file);
    host.give_back(n, volume);
    made
}

/// Borrows volume n, finds the file under a name, borrows a port and reads the file from its start: after a crash, the file of
/// the one image that the crash left. None where there is no such name. What was borrowed is given back whatever happens.
pub fn read_file<H: Host>(
    alloc: Global,
    host: &mut H,
    n: u16,
    name: Name,
    buf: &mut [u8],
) -> Result<Option<usize>, DiskError>
    requires exists { IsVolume n }
    requires here { (H.state host.old).out n ≡ false }
    requires kind { IsFileName name }
    ensures bytes { IsTrue H.Vol.tells → (vol : H.Vol) (file : List ℕ) → (H.state host.old).inside n ≡ Some vol → (H.Vol.view vol).contents name ≡ Some file
        → IfOk result (λ found. IsSomeAnd found (λ count. ReadsAt file 0 buf.old buf.new count)) }
    ensures absent { IsTrue H.Vol.tells → (vol : H.Vol) → (H.state host.old).inside n ≡ Some vol → (H.Vol.view vol).contents name ≡ None
        → IfOk result (λ found. found ≡ None) }
    ensures bound { IfOk result (λ found. IfSome found (λ count. count ≤ length buf.old)) }
    ensures untouched { IfOk result (λ found. found ≡ None → buf.new ≡ buf.old) }
    ensures keeps { IsTrue H.Vol.tells → (before after : H.Vol) → (H.state host.old).inside n ≡ Some before
        → (H.state host.new).inside n ≡ Some after → (H.Vol.view after).contents ≡ (H.Vol.view before).contents }
    ensures images { IsTrue H.Vol.tells → (before after : H.Vol) → (H.state host.old).inside n ≡ Some before
        → (H.state host.new).inside n ≡ Some after → EachImage (H.Vol.view after) (H.Vol.view before).may_leave }
    ensures back { (H.state host.new).out n ≡ false }
    ensures rest { SameButFor n (H.state host.old) (H.state host.new) }
    ensures cause { (H.state host.new).lent_faults n < last_count → HasCause DiskError.Failed (H.faults host.old) (H.faults host.new) result }
    ensures once { CountsOnce (H.faults host.old) (H.faults host.new) result }
{
    match find_in(alloc, host, n, name)? {
        Some(file) => Ok(Some(read_through(alloc, host, &file, buf)?)),
        None => Ok(None),
    }
}

// Borrows volume n and finds the file under a name.
fn find_in<H: Host>(
    alloc: Global,
    host: &mut H,
    n: u16,
    name: Name,
) -> Result<Option<<<H::Vol as Volume>::Port as Files>::Sealed>, DiskError>
    requires exists { IsVolume n }
    requires here { (H.state host.old).out n ≡ false }
    requires kind { IsFileName name }
    ensures found { IsTrue H.Vol.tells → (vol : H.Vol) → (H.state host.old).inside n ≡ Some vol
        → IfOk result (λ found. found_bytes H.Vol.Port.told found ≡ (H.Vol.view vol).contents name) }
    ensures keeps { IsTrue H.Vol.tells → (before after : H.Vol) → (H.state host.old).inside n ≡ Some before
        → (H.state host.new).inside n ≡ Some after → (H.Vol.view after).contents ≡ (H.Vol.view before).contents }
    ensures images { IsTrue H.Vol.tells → (before after : H.Vol) → (H.state host.old).inside n ≡ Some before
        → (H.state host.new).inside n ≡ Some after → EachImage (H.Vol.view after) (H.Vol.view before).may_leave }
    ensures back { (H.state host.new).out n ≡ false }
    ensures rest { SameButFor n (H.state host.old) (H.state host.new) }
    ensures cause { (H.state host.new).lent_faults n < last_count → HasCause DiskError.Failed (H.faults host.old) (H.faults host.new) result }
    ensures once { CountsOnce (H.faults host.old) (H.faults host.new) result }
{
    let mut volume = host.volume(alloc, n)?;
    let found = volume.find_file(alloc, name);
    host.give_back(n, volume);
    found
}

// Borrows a port and reads a file from its start.
fn read_through<H: Host>(
    alloc: Global,
    host: &mut H,
    file: &<<H::Vol as Volume>::Port as Files>::Sealed,
    buf: &mut [u8],
) -> Result<usize, DiskError>
    ensures bytes { IfOk result (λ count. IfSome (H.Vol.Port.told file.now) (λ bytes. ReadsAt bytes 0 buf.old buf.new count)) }
    ensures bound { IfOk result (λ count. count ≤ length buf.old) }
    ensures same { H.state host.new ≡ H.state host.old }
    ensures cause { HasCause DiskError.Failed (H.faults host.old) (H.faults host.new) result }
    ensures once { CountsOnce (H.faults host.old) (H.faults host.new) result }
{
    let mut port = host.files(alloc)?;
    let taken = port.read(alloc, file, 0, buf);
    host.give_port(port);
    taken
}
