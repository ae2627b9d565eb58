ghost use Rattle.std.specs.Prelude.{ℕ, List};
ghost use Rattle.sg_words.specs.declared.race.Worker.{Worker};
ghost use Rattle.sg_links.specs.Lists.{Lists};
ghost use Rattle.sg_pool.specs.Numbers.{PoolNumbers};
ghost use Rattle.sg_dynamic.specs.ChunkLaws.{AddedWereFree, StayLive};
ghost use Rattle.sg_dynamic.specs.LengthLaws.{StartIsEvent, RaiseIsEvent, SplitIsEvent, JoinIsEvent};

/// Chains that grow to fit take numbers that were not live, and what was live stays so.
pub fn fitting_takes_free_numbers()
    ensures added { (old new : Lists) (before after : PoolNumbers) (lengths : List ℕ) (chunk : ℕ) → AddedWereFree old new before after lengths chunk }
    ensures kept { (old new : Lists) (before after : PoolNumbers) (lengths : List ℕ) (chunk : ℕ) → StayLive old new before after lengths chunk }
{}

/// Each step of a seat of a pass over lengths, as the rule of the table sees it, is one event of the race machine.
pub fn steps_are_events()
    ensures start { (start : List ℕ) → StartIsEvent start }
    ensures raise { (start words : List ℕ) (views : List Worker) (id q i : ℕ) → RaiseIsEvent start words views id q i }
    ensures split { (start words : List ℕ) (views : List Worker) (id : ℕ) → SplitIsEvent start words views id }
    ensures join { (start words : List ℕ) (views : List Worker) (id other : ℕ) → JoinIsEvent start words views id other }
{}
