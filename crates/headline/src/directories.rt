//! From the first files of a directory to all of its log.

ghost use Rattle.std.specs.Prelude.{ℤ, List, Option};
ghost use Rattle.wal_log.specs.Inputs.{Files};
ghost use Rattle.wal_log.specs.Log.{IsReading};
ghost use Rattle.wal_log.specs.declared.reading.Damage.{Damage as LogDamage};
ghost use Rattle.wal_log.specs.declared.reading.Placed.{Placed as PlacedRecord};
ghost use Rattle.head_core.specs.Content.{Content};
ghost use Rattle.head_serial.specs.Replays.{IsReplayed};
ghost use Rattle.store.specs.Views.{view_of};
ghost use Rattle.log_directory.specs.Directory.{IsLogIn, IsLogUpTo};
ghost use Rattle.headline.specs.Still.{IsStill};

use store::Store;
use wal_log::one_plan;

/// Proves that what is read of the log in a directory up to a damage is what the whole log reads as, if nobody changes the directory meanwhile.
///
/// The functions of log_directory read one file after another, and stop at the first damage. So they ensure what they return of the log of the
/// first files alone (`IsLogUpTo`). With all files of the directory the log has the same records and the same damage (`reading`), and so it
/// replays to the same heads (`replayed`).
pub fn damage_ends_reading<S: Store>(_store: &S, _dir: &str)
    ensures reading { IsStill (view_of (S.holds _store.now)) → (first whole : Files) (placed : List PlacedRecord) (damage : Option LogDamage) →
        IsLogUpTo (view_of (S.holds _store.now)) _dir.now damage first → IsReading first placed damage → IsLogIn (view_of (S.holds _store.now)) _dir.now whole → IsReading whole placed damage }
    ensures replayed { IsStill (view_of (S.holds _store.now)) → (first whole : Files) (m : ℤ) (damage : Option LogDamage) (content : Content) →
        IsLogUpTo (view_of (S.holds _store.now)) _dir.now damage first → IsReplayed first m damage content → IsLogIn (view_of (S.holds _store.now)) _dir.now whole → IsReplayed whole m damage content }
{
    // the law that the proof uses
    one_plan();
}
