//! What follows for every call of the program from what a call is.
ghost use Rattle.std.specs.Prelude.{◌≡◌, ◌⊎◌, ◌↔◌, ℕ, List, Some, None};
ghost use Rattle.cubit_io.specs.Count.{Rose};
ghost use Rattle.cubit_io.specs.Pieces.{GrewBy};
ghost use Rattle.refresh_streams.specs.Reading.{Contents};
ghost use Rattle.cubit_cli.specs.Call.{IsCall};
ghost use Rattle.cubit_cli.specs.Reply.{IsDrillText, IsReply};
ghost use Rattle.cubit_cli.specs.Status.{status_of_trouble};
ghost use Rattle.cubit_cli.specs.Trouble.{Trouble, trouble_of};
ghost use Rattle.cubit_cli.specs.Words.{Asked, Drill as ADrill, DrillValue, command_of};
ghost use Rattle.cubit_cli.specs.World.{World};
ghost use Rattle.cubit_cli.specs.declared.status.Status.{Status};

/// Which statuses a call can have, by its words and by what the files are told to hold.
pub fn statuses()
    // Usage comes exactly where the words are no command.
    ensures usage { (words : List (List ℕ)) (before after : World) (status : Status) →
        IsCall words before after status →
        (status ≡ Status.Usage) ↔ (command_of words ≡ None) }

    // Where a file is in the way there is no answer.
    ensures trouble { (words : List (List ℕ)) (before after : World) (status : Status)
        (asked : Asked) (contents : Contents) (trouble : Trouble) →
        IsCall words before after status → command_of words ≡ Some asked →
        before.files.held ≡ Some contents → trouble_of asked contents ≡ Some trouble →
        (status ≡ status_of_trouble (Some trouble)) ⊎ ((status ≡ Status.FileFault) ⊎ (status ≡ Status.Memory)) }

    // Where neither the files nor the output failed, the files decide, unless memory runs out.
    ensures complete { (words : List (List ℕ)) (before after : World) (status : Status)
        (asked : Asked) (contents : Contents) →
        IsCall words before after status → command_of words ≡ Some asked →
        before.files.held ≡ Some contents →
        ¬ Rose before.files.faults after.files.faults → ¬ Rose before.out.faults after.out.faults →
        (status ≡ status_of_trouble (trouble_of asked contents)) ⊎ (status ≡ Status.Memory) }

    // Done says that the output took a text that the command may write.
    ensures written { (words : List (List ℕ)) (before after : World) (asked : Asked) (contents : Contents) →
        IsCall words before after Status.Done → command_of words ≡ Some asked →
        before.files.held ≡ Some contents →
        (text : List ℕ) × IsReply asked contents text × GrewBy before.out.taken after.out.taken text }

    // A drill reads no file.
    ensures drill { (words : List (List ℕ)) (before after : World) (status : Status) (drill : DrillValue) →
        IsCall words before after status → command_of words ≡ Some (ADrill drill) →
        (status ≡ Status.Done) ⊎ ((status ≡ Status.SinkFault) ⊎ (status ≡ Status.Memory)) }

    // So whatever the files tell, Done says that the output took the drill's text.
    ensures drilled { (words : List (List ℕ)) (before after : World) (drill : DrillValue) →
        IsCall words before after Status.Done → command_of words ≡ Some (ADrill drill) →
        (text : List ℕ) × IsDrillText drill text × GrewBy before.out.taken after.out.taken text }
{}
