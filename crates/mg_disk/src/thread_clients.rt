//! A small client of two threads, proved over every host whose volumes and ports may be used in another thread.

ghost use Rattle.std.specs.Prelude.{◌≡◌, ◌≤◌, length, IfOk, IfSome, OnOk, take};
ghost use Rattle.mg_faults.specs.Causes.{CountsOnce, HasCause, raised};

use crate::{DiskError, Files, Host, SendFiles, SendVolume, Volume};
use std::alloc::Global;
use std::thread::{Threads, join};

/// Borrows two ports and reads the first bytes of two sealed files at the same time, no more than `most` of each, in a thread
/// of its own each. The ports are given back whatever happens. Where no thread can be made, one is read after the other.
pub fn read_two_files<H: Host<Vol: SendVolume>, R: Threads>(
    rt: &R,
    alloc: Global,
    host: &mut H,
    first: &<<H::Vol as Volume>::Port as Files>::Sealed,
    second: &<<H::Vol as Volume>::Port as Files>::Sealed,
    most: usize,
) -> Result<(Vec<u8>, Vec<u8>), DiskError>
    ensures first { IfOk result (λ read. IfSome (H.Vol.Port.told first.now) (λ bytes. read.0.items ≡ take most bytes)) }
    ensures second { IfOk result (λ read. IfSome (H.Vol.Port.told second.now) (λ bytes. read.1.items ≡ take most bytes)) }
    ensures bound { IfOk result (λ read. (length read.0.items ≤ most) × (length read.1.items ≤ most)) }
    ensures same { H.state host.new ≡ H.state host.old }
    ensures cause { HasCause DiskError.Failed (H.faults host.old) (H.faults host.new) result }
    ensures good { OnOk result (H.faults host.new ≡ H.faults host.old) }
    ensures twice { H.faults host.new ≤ raised (H.faults host.old) 2 }
{
    let one = host.files(alloc)?;
    match host.files(alloc) {
        Ok(two) => {
            let ((one, of_first), (two, of_second)) = read_by_two(
                rt, alloc, one, two, first, second, most,
            );
            host.give_port(one);
            host.give_port(two);
            Ok((of_first?, of_second?))
        }
        Err(error) => {
            host.give_port(one);
            Err(error)
        }
    }
}

// Reads the first bytes of two files, each through a port in a thread of its own.
fn read_by_two<F: SendFiles, R: Threads>(
    rt: &R,
    alloc: Global,
    one: F,
    two: F,
    first: &F::Sealed,
    second: &F::Sealed,
    most: usize,
) -> (
    (F, Result<Vec<u8>, DiskError>),
    (F, Result<Vec<u8>, DiskError>),
)
    ensures first { IfOk result.0.1 (λ read. IfSome (F.told first.now) (λ bytes. read.items ≡ take most bytes)) }
    ensures second { IfOk result.1.1 (λ read. IfSome (F.told second.now) (λ bytes. read.items ≡ take most bytes)) }
    ensures bound_of_first { IfOk result.0.1 (λ read. length read.items ≤ most) }
    ensures bound_of_second { IfOk result.1.1 (λ read. length read.items ≤ most) }
    ensures cause_of_first { HasCause DiskError.Failed (F.faults one) (F.faults result.0.0) result.0.1 }
    ensures cause_of_second { HasCause DiskError.Failed (F.faults two) (F.faults result.1.0) result.1.1 }
    ensures once_of_first { CountsOnce (F.faults one) (F.faults result.0.0) result.0.1 }
    ensures once_of_second { CountsOnce (F.faults two) (F.faults result.1.0) result.1.1 }
{
    join(
        rt,
        || -> (F, Result<Vec<u8>, DiskError>)
            ensures bytes { IfOk result.1 (λ read. IfSome (F.told first.entry.now) (λ bytes. read.items ≡ take most bytes)) }
            ensures bound { IfOk result.1 (λ read. length read.items ≤ most) }
            ensures cause { HasCause DiskError.Failed (F.faults one) (F.faults result.0) result.1 }
            ensures once { CountsOnce (F.faults one) (F.faults result.0) result.1 }
        { read_front(alloc, one, first, most) },
        || -> (F, Result<Vec<u8>, DiskError>)
            ensures bytes { IfOk result.1 (λ read. IfSome (F.told second.entry.now) (λ bytes. read.items ≡ take most bytes)) }
            ensures bound { IfOk result.1 (λ read. length read.items ≤ most) }
            ensures cause { HasCause DiskError.Failed (F.faults two) (F.faults result.0) result.1 }
            ensures once { CountsOnce (F.faults two) (F.faults result.0) result.1 }
        { read_front(alloc, two, second, most) },
    )
}

// Reads the first bytes of a file, no more than `most`.
fn read_front<F: Files>(
    alloc: Global,
    mut port: F,
    file: &F::Sealed,
    most: usize,
) -> (F, Result<Vec<u8>, DiskError>)
    ensures bytes { IfOk result.1 (λ read. IfSome (F.told file.now) (λ bytes. read.items ≡ take most bytes)) }
    ensures bound { IfOk result.1 (λ read. length read.items ≤ most) }
    ensures cause { HasCause DiskError.Failed (F.faults port) (F.faults result.0) result.1 }
    ensures once { CountsOnce (F.faults port) (F.faults result.0) result.1 }
{
    let read = read_into_new(alloc, &mut port, file, most);
    (port, read)
}

// Reads the first bytes of a file into memory of its own.
fn read_into_new<F: Files>(
    alloc: Global,
    port: &mut F,
    file: &F::Sealed,
    most: usize,
) -> Result<Vec<u8>, DiskError>
    ensures bytes { IfOk result (λ read. IfSome (F.told file.now) (λ bytes. read.items ≡ take most bytes)) }
    ensures bound { IfOk result (λ read. length read.items ≤ most) }
    ensures cause { HasCause DiskError.Failed (F.faults port.old) (F.faults port.new) result }
    ensures once { CountsOnce (F.faults port.old) (F.faults port.new) result }
{
    let mut bytes = vec![in alloc; 0; most]?;
    let count = port.read(alloc, file, 0, &mut bytes)?;
    bytes.truncate(count);
    Ok(bytes)
}
