//! What holds of each replacement, as functions that do nothing and have the law as their contract.
ghost use Rattle.std.specs.Prelude.{◌≡◌, ◌⊎◌, List, Option, true, ℕ};
ghost use Rattle.file_replace.specs.Crash.{Happening, IsSafe, Merges, Throughout, made_at, start, unmade};
ghost use Rattle.file_replace.specs.Events.{Event, Text};
ghost use Rattle.file_replace.specs.Replacing.{Asked, IsReplaced, StopsReplacing};

/// A crash at any moment leaves the old text or a new one, whole, however many runs replace the file,
/// with their calls in any order, and whichever of them are killed. Once one of them has replaced it,
/// a crash leaves a new text.
pub fn crash_leaves_a_whole_text()
    ensures { (asked : ℕ → Asked) (name : Text) (old : Option Text) (calls : ℕ → List Event)
        (hs : List Happening) → ((q : ℕ) → (asked q).name ≡ name)
        → ((q : ℕ) → IsReplaced (asked q) (calls q) ⊎ StopsReplacing (asked q) (calls q))
        → Merges calls hs → Throughout name (IsSafe asked old) start hs }
{}

/// A run that returns `Ok` has replaced the file.
pub fn done_is_over()
    ensures { (a : Asked) (es : List Event) → IsReplaced a es → (made_at unmade es).is_over ≡ true }
{}
