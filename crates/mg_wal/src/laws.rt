//! Laws of what a crash leaves of the shared log. Each function does nothing: its contract is the law.

ghost use Rattle.std.specs.Prelude.{ℕ, List, [], IsTrue};
ghost use Rattle.mg_disk.specs.Images.{Image, Settled};
ghost use Rattle.mg_wal_format.specs.Recovery.{ByNoChance};
ghost use Rattle.mg_wal.specs.Book.{Book, Entry};
ghost use Rattle.mg_wal.specs.Lists.{Basis};
ghost use Rattle.mg_wal.specs.Openings.{IsFound, IsFresh};
ghost use Rattle.mg_wal.specs.Scenes.{HeadsCountLaw, LeavesPrefix, SceneOpensLaw};
ghost use Rattle.mg_wal.specs.Stories.{Reaches};

use mg_disk::Volume;

/// Each image that a crash at one moment may leave of the logs opens to a front of the list that has every sure record, cut at its
/// beginning only where the changes before it are released, unless a frame of the image is whole by chance.
pub const fn scene_opens()
    ensures { SceneOpensLaw }
{}

/// Each image that a crash might have left since a moment opens to a front of the list that has every record below the number
/// that is reached since then, cut at its beginning only where the changes before it are released, unless a frame of the image is
/// whole by chance.
pub const fn every_image_opens<V: Volume>()
    ensures { IsTrue V.tells → (volume : V) (book : Book) (basis : Basis) (list : List Entry) (time reach : ℕ)
        → Reaches basis list time reach book (V.view volume)
        → (image : Image) → (V.view volume).left_since time image → ByNoChance image (V.view volume).written
        → LeavesPrefix basis book.released list reach image }
{}

/// Of an image that opens to a front of the list, each head gives the number of its first record, and per partition how many
/// changes the whole list has before that.
pub const fn heads_count()
    ensures { HeadsCountLaw }
{}

/// From this moment on, all that is synced is sure.
pub const fn sure_from_now<V: Volume>()
    ensures { IsTrue V.tells → (volume : V) (book : Book) (basis : Basis) (list : List Entry) (time reach : ℕ)
        → Reaches basis list time reach book (V.view volume)
        → Reaches basis list (V.view volume).moment book.reach book (V.view volume) }
{}

/// A state that was made of what a settled volume gives reaches all that was found, from the moment of that volume on.
pub const fn opening_reaches<V: Volume>()
    ensures { IsTrue V.tells → (volume : V) (book : Book) (basis : Basis) → Settled (V.view volume) (V.in_writing volume)
        → (found : IsFound (V.view volume).contents basis) → IsFresh basis found.logs book
        → Reaches basis [] (V.view volume).moment basis.reached book (V.view volume) }
{}
