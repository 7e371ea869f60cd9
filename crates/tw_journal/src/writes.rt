// Writes that end with a sync, for the calls that make, mend or change a file.
ghost use Rattle.std.specs.Prelude.{◌≡◌, ◌<◌, ◌≤◌, ◌∷◌, [], List, ℕ, take, OnOk, IfErr};
ghost use Rattle.tw_world.specs.Disk.{Rose, FaultsRise, overwritten};
ghost use Rattle.tw_journal.specs.Writes.{Makes, MakesOfStable, LeavesOfStable, IsOldOr};

use tw_world::{Disk, DiskError};

/// Writes one byte, which is not torn: the gate by which a record counts from then on, or the first byte by which an area does.
pub fn write_byte<D: Disk>(disk: &mut D, at: u64, byte: u8) -> Result<(), DiskError>
    requires inside { at < D.model.len disk.old }

    ensures done { OnOk result (Makes D.model disk.old disk.new (overwritten at (byte ∷ []))) }
    ensures any_moment { LeavesOfStable D.model disk.old disk.new (IsOldOr (overwritten at (byte ∷ []))) }
    ensures len { D.model.len disk.new ≡ D.model.len disk.old }
    ensures kept { FaultsRise D.model disk.old disk.new }
    ensures failed { IfErr result (λ e. (e ≡ DiskError.Failed) × Rose (D.model.faults disk.old) (D.model.faults disk.new)) }
{
    disk.write_at(at, &[byte])?;
    disk.sync()?;
    Ok(())
}

/// Cuts what the file has after its records.
pub fn cut_tail<D: Disk>(disk: &mut D, end: u64, len: u64) -> Result<(), DiskError>
    requires len { D.model.len disk.old ≡ len }
    requires inside { end ≤ len }

    ensures done { OnOk result (MakesOfStable D.model disk.old disk.new (take end)) }
    ensures any_moment { LeavesOfStable D.model disk.old disk.new (IsOldOr (take end)) }
    ensures len { OnOk result (D.model.len disk.new ≡ end) }
    ensures kept { FaultsRise D.model disk.old disk.new }
    ensures failed { IfErr result (λ e. (e ≡ DiskError.Failed) × Rose (D.model.faults disk.old) (D.model.faults disk.new)) }
{
    if end == len {
        return Ok(());
    }
    disk.set_len(end)?;
    disk.sync()?;
    Ok(())
}
