//! The host: it lends volumes and ports, and keeps the settings.

ghost use Rattle.std.specs.Prelude.{◌≡◌, ◌≤◌, ◌⊎◌, ◌<◌, ◌-◌, ℕ, Bool, true, false, List, Option, None, Some, IfOk, OnOk, OnErr, IsTrue, option_map};
ghost use Rattle.mg_faults.specs.Causes.{HasCause, CountsOnce, raised, last_count};
ghost use Rattle.mg_disk.specs.Hosts.{HostState, IsVolume, Lent, GivenBack, HasFound, HasVolumes};
ghost use Rattle.mg_disk.specs.Images.{Settled};

use crate::{DiskError, Files, Volume};
use std::alloc::Global;

/// A host lends volumes, each to one holder at a time, and ports, and keeps the settings.
/// It tells its settings and what its volumes hold where its volumes tell.
pub trait Host {
    /// Its volumes.
    type Vol: Volume;

    /// Its settings, its volumes, and at which count and moment each was lent.
    ghost state: { Self → HostState Self.Vol };

    /// How often the host and what it got back have failed; it stays at its last value.
    ghost faults: { Self → ℕ };

    /// The bytes of the settings; None where there are none.
    fn settings(&mut self, alloc: Global) -> Result<Option<Vec<u8>>, DiskError>
        ensures settings { IsTrue Self.Vol.tells → IfOk result (λ found. option_map (λ bytes. bytes.items) found ≡ (state self.old).settings) }
        ensures same { state self.new ≡ state self.old }
        ensures cause { HasCause DiskError.Failed (faults self.old) (faults self.new) result }
        ensures once { CountsOnce (faults self.old) (faults self.new) result };

    /// Lends volume n, after all that was found in it was made lasting.
    fn volume(&mut self, alloc: Global, n: u16) -> Result<Self::Vol, DiskError>
        requires exists { IsVolume n }
        requires here { (state self.old).out n ≡ false }
        ensures lent { IfOk result (λ vol. Lent n (Self.Vol.faults vol) (Self.Vol.view vol).moment (state self.old) (state self.new)) }
        ensures found { IsTrue Self.Vol.tells → IfOk result (λ vol. HasFound n Self.Vol.view (state self.old) vol) }
        ensures settled { IsTrue Self.Vol.tells → IfOk result (λ vol. Settled (Self.Vol.view vol) (Self.Vol.in_writing vol)) }
        ensures writing { IfOk result (λ vol. (log : Self.Vol.Log) → Self.Vol.in_writing vol log ≡ false) }
        ensures same { OnErr result (state self.new ≡ state self.old) }
        ensures cause { HasCause DiskError.Failed (faults self.old) (faults self.new) result }
        ensures once { CountsOnce (faults self.old) (faults self.new) result };

    /// Takes volume n back. What its count rose by while it was out is added to the host's.
    fn give_back(&mut self, n: u16, vol: Self::Vol)
        requires { IsTrue ((state self.old).out n) }
        ensures given { GivenBack Self.Vol.tells n vol (state self.old) (state self.new) }
        ensures faults { faults self.new ≡ raised (faults self.old) (Self.Vol.faults vol - (state self.old).lent_faults n) };

    /// A port, which has counted no fault yet.
    fn files(&mut self, alloc: Global) -> Result<<Self::Vol as Volume>::Port, DiskError>
        ensures fresh { IfOk result (λ port. Self.Vol.Port.faults port ≡ 0) }
        ensures same { state self.new ≡ state self.old }
        ensures cause { HasCause DiskError.Failed (faults self.old) (faults self.new) result }
        ensures once { CountsOnce (faults self.old) (faults self.new) result };

    /// Takes a port back. Its count is added to the host's.
    fn give_port(&mut self, port: <Self::Vol as Volume>::Port)
        ensures same { state self.new ≡ state self.old }
        ensures faults { faults self.new ≡ raised (faults self.old) (Self.Vol.Port.faults port) };

    /// Where volumes tell what they hold, the host has each that is in.
    ghost has_volumes: { IsTrue Self.Vol.tells → (host : Self) → HasVolumes (state host) };

    /// A count of faults has a last value.
    ghost bounded: { (host : Self) → faults host ≤ last_count };
}
