// The runs of a report, in the order of their places: the run that begins at a place, its labels,
// and the runs behind a place.
ghost use Rattle.std.specs.Prelude.{◌≡◌, ◌<◌, ◌*◌, ◌++◌, length, IfSome, IsTrue, OnOk, codes, filter, nat_lt, option_copied};
ghost use Rattle.std.specs.List.{join_by};
ghost use Rattle.golog_tree.specs.Ground.{IsCountable};
ghost use Rattle.golog_semantics.specs.Reports.{fits_label};
ghost use Rattle.golog_semantics.specs.Text.{label_text, run_at, run_text};
ghost use Rattle.golog_text.specs.Filled.{Takes, run_most};
ghost use Rattle.golog_text.specs.Named.{AreFrom, AreLabels};

use crate::line::Line;
use crate::names::add_action;
use golog_base::{List, NoMemory};
use golog_semantics::PlacedRun;
use golog_tree::{Agent, Label};

// Adds a step of a run.
fn add_label(text: &mut Line, agent: &Agent, label: Label) -> Result<(), NoMemory>
    requires countable { IsCountable agent.now }
    requires label { IsTrue (fits_label agent.now label) }
    ensures added { OnOk result (text.new ≡ text.old ++ label_text agent.now label) }
    ensures room { Takes 128 result text.old text.new }
{
    match label {
        Label::Quiet => text.extend(b"-"),
        Label::Do(action) => add_action(text, agent, action),
    }
}

// Adds the steps of a run.
fn add_labels(text: &mut Line, agent: &Agent, labels: &[Label]) -> Result<(), NoMemory>
    requires countable { IsCountable agent.now }
    requires labels { AreLabels agent.now labels.now }
    ensures added { OnOk result
        (text.new ≡ text.old ++ join_by (label_text agent.now) (codes "; ") labels.now) }
    ensures room { Takes (130 * length labels.now) result text.old text.new }
{
    let Some((first, others)) = labels.split_first() else {
        return Ok(());
    };
    add_label(text, agent, *first)?;
    for label in others {
        text.extend(b"; ")?;
        add_label(text, agent, *label)?;
    }
    Ok(())
}

// Adds the run that an entry begins, if it begins one.
pub(crate) fn add_run(
    text: &mut Line,
    agent: &Agent,
    run: Option<&List<Label>>,
) -> Result<(), NoMemory>
    requires countable { IsCountable agent.now }
    requires labels { IfSome (option_copied run) (AreLabels agent.now) }
    ensures added { OnOk result (text.new ≡ text.old ++ run_text agent.now (option_copied run.entry)) }
    ensures room { Takes (run_most (option_copied run.entry)) result text.old text.new }
{
    match run {
        Some(labels) => {
            text.extend(b" run ")?;
            add_labels(text, agent, labels.as_slice())
        }
        None => Ok(()),
    }
}

/// The run that begins at a place, of runs in the order of their places from it on.
pub fn run_here(runs: &[PlacedRun], place: usize) -> Option<&List<Label>>
    requires { AreFrom place runs.now }
    ensures { option_copied result ≡ run_at runs.now place }
{
    match runs.first() {
        Some(run) => {
            if run.place as usize == place {
                Some(&run.labels)
            } else {
                None
            }
        }
        None => None,
    }
}

/// The runs that begin behind a place, of runs in the order of their places from it on.
pub fn runs_behind(runs: &[PlacedRun], place: usize) -> &[PlacedRun]
    requires { AreFrom place runs.now }
    ensures { result.now ≡ filter (λ r. nat_lt place r.place) runs.now }
{
    match runs.split_first() {
        Some((first, others)) if first.place as usize == place => others,
        _ => runs,
    }
}
