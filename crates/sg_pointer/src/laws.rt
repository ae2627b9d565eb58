//! Laws of passes and of races over ranges. The functions do nothing: what they ensure is the law, for whoever reasons about them.
ghost use Rattle.std.specs.Prelude.{ℕ, List};
ghost use Rattle.sg_words.specs.declared.race.Worker.{Worker};
ghost use Rattle.sg_words.specs.RaceMachine.{Setting, Race};
ghost use Rattle.sg_pointer.specs.declared.rule.Start.{Start};
ghost use Rattle.sg_pointer.specs.PointerLaws.{StartIsEvent, LookIsEvent, DrawIsEvent, TryIsEvent, SplitIsEvent, JoinIsEvent};
ghost use Rattle.sg_pointer.specs.RangeLaws.{LookKeeps, TryKeeps, DrawKeeps};
ghost use Rattle.sg_pointer.specs.RangeSettled.{EndsSettled};

/// Each step of a seat, as the rule of the table sees it, is one event of the race machine.
pub fn steps_are_events()
    ensures start { (start : Start) → StartIsEvent start }
    ensures look { (start : Start) (words : List ℕ) (views : List Worker) (id i : ℕ) → LookIsEvent start words views id i }
    ensures draw { (start : Start) (words : List ℕ) (views : List Worker) (id : ℕ) → DrawIsEvent start words views id }
    ensures exchange { (start : Start) (words : List ℕ) (views : List Worker) (id i t : ℕ) → TryIsEvent start words views id i t }
    ensures split { (start : Start) (words : List ℕ) (views : List Worker) (id : ℕ) → SplitIsEvent start words views id }
    ensures join { (start : Start) (words : List ℕ) (views : List Worker) (id other : ℕ) → JoinIsEvent start words views id other }
{}

/// Where the slots, or the counts, of a race are a range of the words of a larger table, each kind of step on them keeps the race invariant.
pub fn steps_keep_races()
    ensures look { (g : Setting) (s : Race) (id : ℕ) (v : Worker) (words : List ℕ) (from i : ℕ) → LookKeeps g s id v words from i }
    ensures exchange { (g : Setting) (s : Race) (id : ℕ) (v : Worker) (words : List ℕ) (from i t : ℕ) → TryKeeps g s id v words from i t }
    ensures draw { (g : Setting) (s : Race) (id : ℕ) (v : Worker) (words : List ℕ) (from l : ℕ) → DrawKeeps g s id v words from l }
{}

/// Where one worker has all shares, the slots of each node with a fresh stock are settled.
pub fn races_settle()
    ensures { (g : Setting) (s : Race) (v : Worker) (l first many : ℕ) → EndsSettled g s v l first many }
{}
