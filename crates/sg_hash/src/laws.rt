//! Laws of tables and of passes. The functions do nothing: what they ensure is the law.
ghost use Rattle.std.specs.Prelude.{ℕ, List};
ghost use Rattle.sg_words.specs.declared.race.Worker.{Worker};
ghost use Rattle.sg_hash.specs.declared.rule.Start.{Start};
ghost use Rattle.sg_hash.specs.HashLaws.{StartIsEvent, LookIsEvent, DrawIsEvent, TryIsEvent, FindIsEvent, PutIsEvent, SplitIsEvent, JoinIsEvent};
ghost use Rattle.sg_hash.specs.TableLaws.{StandsOnce, StartsEmpty};

/// In a table each key stands in one place alone, and words that are all 0 are one.
pub fn keys_stand_once()
    ensures once { (keys : List ℕ) → StandsOnce keys }
    ensures empty { (places : ℕ) → StartsEmpty places }
{}

/// Each step of a seat, as the rule of the table sees it, is one event of the race machine.
pub fn steps_are_events()
    ensures start { (start : Start) → StartIsEvent start }
    ensures look { (start : Start) (words : List ℕ) (views : List Worker) (id i : ℕ) → LookIsEvent start words views id i }
    ensures draw { (start : Start) (words : List ℕ) (views : List Worker) (id : ℕ) → DrawIsEvent start words views id }
    ensures exchange { (start : Start) (words : List ℕ) (views : List Worker) (id i t : ℕ) → TryIsEvent start words views id i t }
    ensures find { (start : Start) (words : List ℕ) (views : List Worker) (id p : ℕ) → FindIsEvent start words views id p }
    ensures put { (start : Start) (words : List ℕ) (views : List Worker) (id p k : ℕ) → PutIsEvent start words views id p k }
    ensures split { (start : Start) (words : List ℕ) (views : List Worker) (id : ℕ) → SplitIsEvent start words views id }
    ensures join { (start : Start) (words : List ℕ) (views : List Worker) (id other : ℕ) → JoinIsEvent start words views id other }
{}
