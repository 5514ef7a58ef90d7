//! What the definitions of requests promise: laws over them, in functions that do nothing.
ghost use Rattle.std.specs.Prelude.{◌≡◌, ◌≤◌, ◌<◌, ◌∷◌, [], ℕ, List, All, Contains, IfSome, Option, Some, true, length, find, bytes_eq};
ghost use Rattle.std.specs.Option.{option_and_then};
ghost use Rattle.queue_types.specs.declared.job.Job.{Job};
ghost use Rattle.queue_types.specs.Settings.{SettingValues, AreSettings};
ghost use Rattle.queue_types.specs.Uri.{path_of};
ghost use Rattle.queue_types.specs.Formats.{format_name, formats};
ghost use Rattle.queue_types.specs.declared.document.Format.{Format};
ghost use Rattle.ipp_reply.specs.Operations.{id, operation_of, operations};
ghost use Rattle.ipp_reply.specs.declared.operation.Operation.{Operation};
ghost use Rattle.ipp_reply.specs.JobReply.{name_of as job_reply_name, selected as selected_of_job, table as job_reply_table, values_of};
ghost use Rattle.ipp_reply.specs.PrinterReply.{name_of as printer_reply_name, selected as selected_of_printer, table as printer_reply_table};
ghost use Rattle.ipp_reply.specs.declared.job_reply.JobAttribute.{JobAttribute};
ghost use Rattle.ipp_reply.specs.declared.job_reply.JobAttribute.TheVariants.{JobUri};
ghost use Rattle.ipp_reply.specs.declared.printer_reply.PrinterAttribute.{PrinterAttribute};
ghost use Rattle.ipp_wire.specs.Message.{Message, Spells};
ghost use Rattle.ipp_ops.specs.Answer.{Answers, Asks, IsVerdictOn};
ghost use Rattle.ipp_ops.specs.Caller.{IsCallerOf};
ghost use Rattle.ipp_ops.specs.Validations.{AreAlike, bytes_asking, without_jobs};
ghost use Rattle.queue_core.specs.Runs.{after};
ghost use Rattle.queue_core.specs.World.{World};
ghost use Rattle.queue_core.specs.Limits.{IsEvent, IsPositive};
ghost use Rattle.queue_types.specs.Event.{Call, Event, ask, cancel_my_jobs, on_job};
ghost use Rattle.ipp_request.specs.Attributes.{job_group_name, job_group_table, knows, row, table};
ghost use Rattle.ipp_request.specs.Formats.{format_of};
ghost use Rattle.ipp_request.specs.Unsupported.{attribute_named};
ghost use Rattle.ipp_ops.specs.Checks.{checks};
ghost use Rattle.ipp_request.specs.Request.{IsJobPath, first_value, job_in};
ghost use Rattle.ipp_ops.specs.Verdict.{Verdict};
ghost use Rattle.ipp_request.specs.declared.attribute.OperationAttribute.{OperationAttribute};
ghost use Rattle.ipp_request.specs.declared.attribute.JobGroupAttribute.{JobGroupAttribute};
ghost use Rattle.ipp_ops.specs.declared.check.Check.{Check};

use ipp_request::names_with_languages;
use ipp_wire::one_spelling;

/// A request asks one thing: no bytes have two verdicts.
pub fn one_verdict()
    ensures { (b : List ℕ) (v w : Verdict) → IsVerdictOn b v → IsVerdictOn b w → v ≡ w }
{
    one_spelling();
}

/// What bytes ask of the machine, of which there are at most 16,777,216, is one event within the machine's limits, or nothing; and the queue
/// after bytes that were answered is the one after that event.
pub fn calls_are_events()
    ensures within { (b : List ℕ) (e : Option Event) → length b ≤ 16777216 → Asks b e → IfSome e IsEvent }
    ensures done { (now : ℕ) (w u : World) (b out : List ℕ) → Answers w now b u out → (e : Option Event) × Asks b e × (u ≡ after w now e) }
{}

/// What bytes ask of a job names it by a number that a job may have, from 1 to 2,147,483,647; and so does what they ask of several
/// of the caller's jobs. Where `ask` puts 0 for a number that is not there, a check has refused the request.
pub fn calls_name_jobs()
    ensures one_job { (b caller : List ℕ) (c : Call) → Asks b (Some (ask caller c)) → IfSome (on_job c) IsPositive }
    ensures own_jobs { (b caller numbers : List ℕ) → Asks b (Some (ask caller (cancel_my_jobs (Some numbers)))) → All IsPositive numbers }
{}

/// The caller is whom the first `requesting-user-name` of the first group names, which is the operation group: no later one, none of another
/// group and no other attribute says whose a request is. Where there is none, or its name is empty, the caller is `anonymous`.
pub fn callers_are_named_first()
    ensures { (b caller : List ℕ) (c : Call) → All (λ x. x < 256) b → Asks b (Some (ask caller c)) → IsCallerOf b caller }
{
    names_with_languages();
}

/// A Validate-Job is answered what the Print-Job would be in the same queue that has the same bytes but for the operation's number. Both are
/// refused with one status code and the same unsupported attributes, or both are about the same job of the same caller. The reply is that to
/// the Print-Job without its job group, and nothing changes.
pub fn validations_are_answered_as_prints()
    ensures asked { (major minor : ℕ) (rest : List ℕ) (print validate : Verdict)
        → IsVerdictOn (bytes_asking 0x0002 major minor rest) print → IsVerdictOn (bytes_asking 0x0004 major minor rest) validate → AreAlike print validate }
    ensures answered { (w printed validated : World) (now major minor : ℕ) (rest print validate : List ℕ)
        → Answers w now (bytes_asking 0x0002 major minor rest) printed print → Answers w now (bytes_asking 0x0004 major minor rest) validated validate
        → (m : Message) × Spells m print × Spells (without_jobs m) validate }
    ensures kept { (w validated : World) (now major minor : ℕ) (rest validate : List ℕ)
        → Answers w now (bytes_asking 0x0004 major minor rest) validated validate → validated ≡ w }
{
    one_spelling();
}

/// A path names a job exactly where it is the printer's, a slash and the job's number in decimal, which is
/// from 1 to 2,147,483,647. The path of the job-uri that a reply tells of a job names that job, with any
/// settings.
pub fn job_paths()
    ensures named { (path : List ℕ) (n : ℕ) → job_in path ≡ Some n → IsJobPath path n }
    ensures found { (path : List ℕ) (n : ℕ) → IsJobPath path n → job_in path ≡ Some n }
    ensures told { (s : SettingValues) (now : ℕ) (j : Job) → AreSettings s → IsPositive j.number
        → option_and_then (λ v. job_in (path_of v.bytes)) (first_value (values_of s.uri now j JobUri)) ≡ Some j.number }
{}

/// Each operation, each attribute of requests and of replies, each check and each document format stands in its table. What has an id or
/// a name there shares it with none: an operation is found by its id, an attribute of a request by its name where the operation knows it,
/// one of a job group and a document format by their names, and the name of an attribute of a reply selects that attribute alone.
pub fn whole_tables()
    ensures operations { (o : Operation) → Contains operations o }
    ensures operations_found { (o : Operation) → operation_of (id o) ≡ Some o }
    ensures attributes { (k : OperationAttribute) → Contains table k }
    ensures attributes_found { (o : Operation) (k : OperationAttribute) → knows o k ≡ true → attribute_named o (row k).name ≡ Some k }
    ensures job_attributes { (k : JobGroupAttribute) → Contains job_group_table k }
    ensures job_attributes_found { (k : JobGroupAttribute) → find (λ a. bytes_eq (job_group_name a) (job_group_name k)) job_group_table ≡ Some k }
    ensures job_replies { (a : JobAttribute) → Contains job_reply_table a }
    ensures job_replies_selected { (a : JobAttribute) → selected_of_job (job_reply_name a ∷ []) ≡ a ∷ [] }
    ensures printer_replies { (a : PrinterAttribute) → Contains printer_reply_table a }
    ensures printer_replies_selected { (a : PrinterAttribute) → selected_of_printer (printer_reply_name a ∷ []) ≡ a ∷ [] }
    ensures checks { (c : Check) → Contains checks c }
    ensures formats { (f : Format) → Contains formats f }
    ensures formats_found { (f : Format) → format_of (format_name f) ≡ Some f }
{}
