//! Laws of passes and of races over ranges. The functions do nothing: what they ensure is the law, for whoever reasons about them.
ghost use Rattle.std.specs.Prelude.{ℕ, List};
ghost use Rattle.sg_words.specs.declared.race.Worker.{Worker};
ghost use Rattle.sg_words.specs.RaceMachine.{Setting, Race};
ghost use Rattle.sg_mask.specs.MaskLaws.{StartIsEvent, MarkIsEvent, SplitIsEvent, JoinIsEvent};
ghost use Rattle.sg_mask.specs.RangeLaws.{MarkKeeps};

/// Each step of a seat, as the rule of the table sees it, is one event of the race machine.
pub fn steps_are_events()
    ensures start { (start : List ℕ) → StartIsEvent start }
    ensures mark { (start words : List ℕ) (views : List Worker) (id b : ℕ) → MarkIsEvent start words views id b }
    ensures split { (start words : List ℕ) (views : List Worker) (id : ℕ) → SplitIsEvent start words views id }
    ensures join { (start words : List ℕ) (views : List Worker) (id other : ℕ) → JoinIsEvent start words views id other }
{}

/// Where the masks of a race are a range of the words of a larger table, a step on them keeps the race invariant.
pub fn steps_keep_races()
    ensures { (g : Setting) (s : Race) (id : ℕ) (v : Worker) (words : List ℕ) (from b : ℕ) → MarkKeeps g s id v words from b }
{}
