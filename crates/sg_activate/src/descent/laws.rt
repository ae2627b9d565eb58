//! Laws of descents. The function does nothing: what it ensures is the law, for whoever reasons about descents.
ghost use Rattle.std.specs.Prelude.{ℕ, List};
ghost use Rattle.sg_words.specs.declared.race.Worker.{Worker};
ghost use Rattle.sg_activate.specs.declared.descent.rule.Start.{Start};
ghost use Rattle.sg_activate.specs.DescentLaws.{StartIsEvent, LookIsEvent, DrawIsEvent, TryIsEvent, MarkIsEvent, SplitIsEvent, JoinIsEvent};

/// Each step of a seat, as the rule of the table sees it, is one event of the race machine.
pub fn steps_are_events()
    ensures start { (start : Start) → StartIsEvent start }
    ensures look { (start : Start) (words : List ℕ) (views : List Worker) (id i : ℕ) →
        LookIsEvent start words views id i }
    ensures draw { (start : Start) (words : List ℕ) (views : List Worker) (id l : ℕ) →
        DrawIsEvent start words views id l }
    ensures exchange { (start : Start) (words : List ℕ) (views : List Worker) (id i t : ℕ) →
        TryIsEvent start words views id i t }
    ensures mark { (start : Start) (words : List ℕ) (views : List Worker) (id b : ℕ) →
        MarkIsEvent start words views id b }
    ensures split { (start : Start) (words : List ℕ) (views : List Worker) (id : ℕ) →
        SplitIsEvent start words views id }
    ensures join { (start : Start) (words : List ℕ) (views : List Worker) (id other : ℕ) →
        JoinIsEvent start words views id other }
{}
