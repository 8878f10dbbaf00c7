//! Which runs do what their words ask for.
ghost use Rattle.std.specs.Prelude.{◌≡◌, ℕ, List, None, Option, Some};
ghost use Rattle.sha2.specs.Sha256.{sha256};
ghost use Rattle.flow_outside.specs.Seen.{FilesSeen, SinkSeen};
ghost use Rattle.flow_types.specs.declared.parts.Parts.{Parts};
ghost use Rattle.scenario_maker.specs.Made.{made_parts};
ghost use Rattle.command_words.specs.declared.command.SearchLimits.{SearchLimits};
ghost use Rattle.command_words.specs.declared.command.View.{View};
ghost use Rattle.command_words.specs.Words.{Checked, Judged, Made, Planned, Tried, asked};
ghost use Rattle.flow_cli.specs.Answer.{Ends};
ghost use Rattle.flow_cli.specs.Complete.{EndsCertified, EndsDone, EndsPlanned, HoldsCertificate, HoldsDay, HoldsPlan, NothingFailed};
ghost use Rattle.flow_cli.specs.Making.{trial_budget};
ghost use Rattle.flow_cli.specs.Outside.{Change};
ghost use Rattle.flow_cli.specs.Words.{budget_of};
ghost use Rattle.flow_cli.specs.declared.answer.Ran.{Ran};

/// A run whose words make a command does what they ask for, where the files tell that the names
/// hold what it reads, and no call fails, as far as the counts tell; or it ends with `OutOfMemory`,
/// of which no clause says when it may come. The real files tell nothing of what they hold, so of
/// them it says what `make` and `trial` do. A run ends:
///
/// - `plan` on the text of a scenario with `Done`, `Infeasible` or `OpenGap`, and never with the
///   last where the nodes are enough (`planned`). With `--cert` it may end with `TooLong` too, but
///   only where the certificate of the record that it hands back is longer than one may be
///   (`certified`).
/// - `check` and `explain` on such a text and a certificate without a fault with `Done`
///   (`checked`), and `judge` on such a text and that of a plan which keeps every rule (`judged`).
/// - `make` with `Done` (`made`), and `trial` as `plan` does on the made day (`tried`), whose nodes
///   are never enough to rule `OpenGap` out.
pub fn runs_are_complete()
    ensures planned { (files : Change FilesSeen) (out : Change SinkSeen) (words : List (List ℕ))
        (ran : Ran) (name : List ℕ) (limits : SearchLimits) (parts : Parts)
        → Ends files out words ran → NothingFailed files out
        → asked words ≡ Some (Planned name limits None)
        → HoldsDay files.before.held name parts
        → EndsPlanned parts (budget_of limits) ran.status }
    ensures certified { (files : Change FilesSeen) (out : Change SinkSeen) (words : List (List ℕ))
        (ran : Ran) (name cert : List ℕ) (limits : SearchLimits) (parts : Parts)
        → Ends files out words ran → NothingFailed files out
        → asked words ≡ Some (Planned name limits (Some cert))
        → (day : HoldsDay files.before.held name parts)
        → EndsCertified parts (sha256 day.bytes) (budget_of limits) ran }
    ensures checked { (files : Change FilesSeen) (out : Change SinkSeen) (words : List (List ℕ))
        (ran : Ran) (name cert : List ℕ) (view : View) (parts : Parts)
        → Ends files out words ran → NothingFailed files out
        → asked words ≡ Some (Checked name cert view)
        → (day : HoldsDay files.before.held name parts)
        → HoldsCertificate files.before.held cert parts (sha256 day.bytes)
        → EndsDone ran.status }
    ensures judged { (files : Change FilesSeen) (out : Change SinkSeen) (words : List (List ℕ))
        (ran : Ran) (name plan : List ℕ) (parts : Parts)
        → Ends files out words ran → NothingFailed files out
        → asked words ≡ Some (Judged name plan)
        → HoldsDay files.before.held name parts → HoldsPlan files.before.held plan parts
        → EndsDone ran.status }
    ensures made { (files : Change FilesSeen) (out : Change SinkSeen) (words : List (List ℕ))
        (ran : Ran) (count : ℕ) → Ends files out words ran → NothingFailed files out
        → asked words ≡ Some (Made count) → EndsDone ran.status }
    ensures tried { (files : Change FilesSeen) (out : Change SinkSeen) (words : List (List ℕ))
        (ran : Ran) (count : ℕ) → Ends files out words ran → NothingFailed files out
        → asked words ≡ Some (Tried count)
        → EndsPlanned (made_parts count) trial_budget ran.status }
{}
