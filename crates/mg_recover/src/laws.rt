//! Laws of what a crash leaves of a store. Each function does nothing: its contract is the law.

ghost use Rattle.std.specs.Prelude.{◌≡◌, ◌<◌, ◌≤◌, ℕ, List, IsTrue};
ghost use Rattle.mg_disk.specs.Images.{Image};
ghost use Rattle.mg_model.specs.Placed.{Opening, Placed};
ghost use Rattle.mg_recover.specs.declared.partition.Partition.{Partition};
ghost use Rattle.mg_recover.specs.Cuts.{IsOpened, LeavesAll, LeavesCut};
ghost use Rattle.mg_recover.specs.Made.{run_changes};
ghost use Rattle.mg_recover.specs.Refusals.{IsStoreRefused};
ghost use Rattle.mg_recover.specs.Stores.{AllSynced, Stands};
ghost use Rattle.mg_types.specs.declared.faults.Fault.{Fault};
ghost use Rattle.mg_wal.specs.Book.{Book};
ghost use Rattle.mg_wal.specs.Lists.{Basis};
ghost use Rattle.mg_wal.specs.Stories.{Reaches};
ghost use Rattle.mg_wal_format.specs.Recovery.{ByNoChance};

use mg_disk::Volume;

/// Each image that a crash might have left since a moment opens to one cut of all partitions that has every change below the
/// number that is reached since then, unless a frame of the image is whole by chance. By `one_cut_leaves_fronts` of mg_model
/// each partition has a front of its history there.
pub const fn every_image_is_a_cut<V: Volume>()
    ensures { IsTrue V.tells → (volume : V) (book : Book) (partitions : List Partition) (basis : Basis) (placed : List Placed) (time reach : ℕ)
        → Stands basis placed book partitions → Reaches basis (run_changes basis placed) time reach book (V.view volume) → basis.reached ≤ reach
        → (image : Image) → (V.view volume).left_since time image → ByNoChance image (V.view volume).written
        → LeavesCut basis placed reach image }
{}

/// Where each change is synced and reached since a moment, each image since then opens to the states to which all calls led.
pub const fn synced_images_have_all<V: Volume>()
    ensures { IsTrue V.tells → (volume : V) (book : Book) (partitions : List Partition) (basis : Basis) (placed : List Placed) (time : ℕ)
        → Stands basis placed book partitions → AllSynced book → Reaches basis (run_changes basis placed) time book.reach book (V.view volume)
        → (image : Image) → (V.view volume).left_since time image → ByNoChance image (V.view volume).written
        → LeavesAll basis placed image }
{}

/// An image that opens is not refused, and opens to one state of each partition.
pub const fn cuts_are_not_refused()
    ensures refused { (parts : ℕ) (image : Image) (states : Opening) (fault : Fault) → IsOpened parts image states → IsStoreRefused parts image fault → ⊥ }
    ensures one { (parts : ℕ) (image : Image) (states others : Opening) → IsOpened parts image states → IsOpened parts image others
        → (part : ℕ) → part < parts → states part ≡ others part }
{}
