//! Laws of the definitions.

ghost use Rattle.std.specs.Prelude.{◌≡◌, ◌≤◌, ℕ, [], List, false};
ghost use Rattle.progress.specs.declared.pacer.Pacer.{Pacer};
ghost use Rattle.progress.specs.Progress.{count_in_second, moments};

/// Proves that a replay prints at most ten lines in any second, and none where there is no terminal.
pub fn progress_lines()
    ensures pace { (p : Pacer) (rounds : List (ℕ × ℕ)) (start : ℕ) → count_in_second start (moments p rounds) ≤ 10 }
    ensures quiet { (p : Pacer) (rounds : List (ℕ × ℕ)) → p.is_terminal ≡ false → moments p rounds ≡ [] }
{}
