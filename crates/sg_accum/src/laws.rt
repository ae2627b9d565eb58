//! Laws of parts of passes. The function does nothing: what it ensures is the law, for whoever reasons about passes.
ghost use Rattle.std.specs.Prelude.{ℕ, List};
ghost use Rattle.sg_words.specs.declared.race.Worker.{Worker};
ghost use Rattle.sg_accum.specs.declared.begin.Start.{Start};
ghost use Rattle.sg_accum.specs.AccLaws.{StartIsEvent, AddIsEvent, LeastIsEvent, MostIsEvent, SetBitsIsEvent, KeepBitsIsEvent, FlipBitsIsEvent, SplitIsEvent, JoinIsEvent};

/// Each step of a seat in a part, as the rule of the table of that part sees it, is one event of the race machine.
pub fn steps_are_events()
    ensures start { (start : Start) (words : List ℕ) → StartIsEvent start words }
    ensures add { (start : Start) (words : List ℕ) (views : List Worker) (id c x : ℕ) → AddIsEvent start words views id c x }
    ensures least { (start : Start) (words : List ℕ) (views : List Worker) (id c x : ℕ) → LeastIsEvent start words views id c x }
    ensures most { (start : Start) (words : List ℕ) (views : List Worker) (id c x : ℕ) → MostIsEvent start words views id c x }
    ensures set_bits { (start : Start) (words : List ℕ) (views : List Worker) (id c x : ℕ) → SetBitsIsEvent start words views id c x }
    ensures keep_bits { (start : Start) (words : List ℕ) (views : List Worker) (id c x : ℕ) → KeepBitsIsEvent start words views id c x }
    ensures flip_bits { (start : Start) (words : List ℕ) (views : List Worker) (id c x : ℕ) → FlipBitsIsEvent start words views id c x }
    ensures split { (start : Start) (words : List ℕ) (views : List Worker) (id : ℕ) → SplitIsEvent start words views id }
    ensures join { (start : Start) (words : List ℕ) (views : List Worker) (id other : ℕ) → JoinIsEvent start words views id other }
{}
