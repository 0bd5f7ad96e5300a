//! What the first refusal of a list of wanted frames is, and what is known of a store that goes from moment to moment.
ghost use Rattle.std.specs.Prelude.{◌≡◌, ◌≤◌, ◌↔◌, ℕ, List, None, Some, All};
ghost use Rattle.fx_outside.specs.Outside.{Files};
ghost use Rattle.fx_seq.specs.declared.fault.SeqFault.{SeqFault};
ghost use Rattle.fx_seq.specs.declared.wanted.Wanted.{Wanted};
ghost use Rattle.fx_seq.specs.declared.used.Use.{Use as AnyUse};
ghost use Rattle.fx_seq.specs.Filling.{first_refused, IsReadable, wanted_size, RefusedAt};
ghost use Rattle.fx_seq.specs.Moments.{AreOnce};
ghost use Rattle.fx_seq.specs.Windows.{Begins, DueIsNew, GoesOn, HeldAreUsed, HoldsUsed, StaysSmall, UsedAreHeld};

/// No frame of a list is refused exactly where each can be read and their sizes together are up to the
/// limit. It computes nothing.
pub fn accepted_is()
    ensures { (files : Files) (side limit : ℕ) (wanted : List Wanted)
        → (first_refused files side limit 0 wanted ≡ None)
        ↔ (All (IsReadable files side) wanted × (wanted_size files wanted ≤ limit)) }
{}

/// What is refused first of a list is a frame of it: those before are not refused, and it is, by its file
/// or by their sizes with its own. It computes nothing.
pub fn first_refused_is()
    ensures { (files : Files) (side limit : ℕ) (wanted : List Wanted) (e : SeqFault)
        → (first_refused files side limit 0 wanted ≡ Some e) ↔ RefusedAt files side limit wanted e }
{}

/// A store that takes what is due at each moment is told no frame twice. The bytes of the frames that it holds and
/// still uses are those that the files tell, and it holds what each moment uses. It computes nothing.
pub fn window_is_kept()
    ensures begins { (uses : List AnyUse) → Begins uses }
    ensures fresh { (uses : List AnyUse) → AreOnce uses → DueIsNew uses }
    ensures size { (uses : List AnyUse) → AreOnce uses → UsedAreHeld uses }
    ensures left { (uses : List AnyUse) → HeldAreUsed uses }
    ensures on { (uses : List AnyUse) → AreOnce uses → GoesOn uses }
    ensures small { (uses : List AnyUse) → StaysSmall uses }
    ensures holds { (uses : List AnyUse) → AreOnce uses → HoldsUsed uses }
{}
