//! What follows from the clauses and the meaning of a run, each as the contract of a function that does nothing.

ghost use Rattle.sparsegrid.specs.Independence.{LayoutsDontMatterToCalls, LayoutsDontMatterToRuns, MeaningIsOfCommands};
ghost use Rattle.sparsegrid.specs.Laws.{FaultlessIsWhole, GeneratedIsText, ShownEndsAsRun};
ghost use Rattle.sparsegrid.specs.WorkedRun.{WorkedRun};

use sg_parser::laws::parsed_is_spelled;
use sg_session::laws::layouts_dont_matter;

/// Where neither count of faults rose and memory didn't run out, a run wrote the whole of what it means.
pub fn faultless_is_whole()
    ensures { FaultlessIsWhole }
{}

/// The generated program of a number means what a file with its text means, but that no file is asked for.
#[tactic(auto, using(crate::proofs::Unread::generated_is_text))]
pub fn generated_is_text()
    ensures { GeneratedIsText }
{}

/// A run in mode save, advise or journal has the status and the last state of the same run in mode run, and its last line where not all is
/// done.
#[tactic(auto, using(crate::proofs::EndsAlike::shown_ends_as_run))]
pub fn shown_ends_as_run()
    ensures { ShownEndsAsRun }
{}

/// Where nothing is refused, the commands of a run are performed one after the other, and the run means what they leave.
pub fn meaning_is_of_commands()
    ensures { MeaningIsOfCommands }
{}

/// Two runs whose programs differ in the nodes of their layouts alone, and that run neutral kernels alone, mean the same values after each
/// command and at the end, and the same images, if neither of them refuses anything.
pub fn layouts_dont_matter_to_runs()
    ensures { LayoutsDontMatterToRuns }
{
    // for the laws that they ensure
    parsed_is_spelled();
    meaning_is_of_commands();
    layouts_dont_matter();
}

/// Two calls of `run` over files that differ in the nodes of layouts alone, both of which end with status 0, leave sessions with the same
/// values, and write the same images, if they run neutral kernels alone.
pub fn layouts_dont_matter_to_calls()
    ensures { LayoutsDontMatterToCalls }
{
    // for the law that it ensures
    layouts_dont_matter_to_runs();
}

/// What a file with a kernel means, worked from its bytes to its text and its status; and what it means if the kernel writes outside.
#[tactic(auto, using(crate::proofs::WorkedRun::worked_run))]
pub fn worked_run()
    ensures { WorkedRun }
{}
