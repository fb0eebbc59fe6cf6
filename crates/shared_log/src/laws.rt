//! What follows for the steps of a shared log, whichever core its words and its seats show. These functions do nothing:
//! where one is called, its clauses are known.
ghost use Rattle.std.specs.Prelude.{◌≡◌, ℕ, ◌≤◌, List, [], ◌∷◌};
ghost use mathlib.Core.Option.{some};
ghost use lib.ListN.{get_elem?};
ghost use Rattle.log_core.specs.declared.step.Step.{Step as StepValue};
ghost use Rattle.log_core.specs.Terms.{CoreTerms};
ghost use Rattle.log_core.specs.Chain.{link, IsNodeAt, end_at};
ghost use Rattle.log_core.specs.Core.{CoreValue, party, made_core, IsSound};
ghost use Rattle.log_core.specs.Growing.{behind};
ghost use Rattle.shared_log.specs.CoreLaws.{CoreLaws};
ghost use Rattle.shared_log.specs.Shown.{Shows};
ghost use Rattle.shared_log.specs.Steps.{StepLaw, DateLaw, MeetLaw, CopyLaw, PassLaw, MayLaw};
ghost use Rattle.shared_log.specs.declared.views.PassView.{PassView};
ghost use Rattle.shared_log.specs.declared.views.SeatView.{SeatView};
ghost use Rattle.shared_log.specs.declared.views.SeatView.TheVariants.{Pass, Opening};

/// The laws of the core, on which all others stand.
pub(super) fn core()
    ensures { CoreLaws }
{
    log_core::laws::steps();
    log_core::laws::nodes();
}

/// The steps of a pass.
pub fn steps()
    // A lawful step of whichever sound core is shown leaves a sound core, and this one is shown afterwards.
    ensures law { (step : StepValue) → StepLaw step }

    // What a pass may do, by what it knows, is lawful in whichever sound core is shown.
    ensures may { (step : StepValue) → MayLaw step }
{
    core();
}

/// Seats that are split and joined.
pub fn seats()
    // A date: the step is a note.
    ensures date { DateLaw }

    // A date that is met: the step is a join, and lawful.
    ensures meet { MeetLaw }

    // A copy of a date, and a new pass: no step, and the same core is shown.
    ensures copy { CopyLaw }
    ensures pass { PassLaw }
{
    core();
}

/// The cores that are shown.
pub fn cores()
    // The words of a new log, and its opening, show the core before any step.
    ensures made { (terms : CoreTerms) →
        IsSound (made_core terms) × Shows (made_core terms) (made_core terms).words (Opening 0 ∷ []) }

    // All cores that the same words and views show have one chain.
    ensures one { (a b : CoreValue) (words : List ℕ) (views : List SeatView) → IsSound a → IsSound b →
        a.terms ≡ b.terms → Shows a words views → Shows b words views → a.chain ≡ b.chain }

    // The node behind the tail that a pass loaded last, or else that tail, has all that there was then up to it.
    ensures front { (core : CoreValue) (words : List ℕ) (views : List SeatView) (seat : ℕ) (view : PassView) →
        IsSound core → Shows core words views → get_elem? views seat ≡ some (Pass view) →
        (place : ℕ) × IsNodeAt core.chain (behind view.last (link core.words view.last)) place
        × ((party core view.author).low ≤ end_at core.chain.history place) }
{
    log_core::laws::chains();
    log_core::laws::nodes();
}
