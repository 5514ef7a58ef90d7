//! What rows tell, as laws that no program calls: each is a contract on an empty body.
ghost use Rattle.std.specs.Prelude.{◌≡◌, length, map, Bool, Option};
ghost use Rattle.queue_types.specs.declared.event.Kind.{Kind};
ghost use Rattle.queue_types.specs.declared.job.Phase.{Phase};
ghost use Rattle.queue_types.specs.declared.job.Why.{Why};
ghost use Rattle.queue_core.specs.Sound.{IsSound};
ghost use Rattle.queue_core.specs.World.{World};
ghost use Rattle.queue_types.specs.declared.states.JobState.{JobState};
ghost use Rattle.queue_rows.specs.Codes.{phase_number, stopping_number, why_number, kind_number, flag_number, job_state_number};
ghost use Rattle.queue_rows.specs.Pieces.{length_in};
ghost use Rattle.queue_rows.specs.Rows.{rows_of, bytes_of};
ghost use Rattle.queue_rows.specs.Sound.{AreSoundRows};
ghost use Rattle.queue_rows.specs.Versions.{IsOf, Version};

/// Two sound queues with the same rows, in tables of whatever version, and the same bytes in their pieces, are one: the rows tell all of
/// a queue.
pub fn rows_tell_the_queue()
    ensures { (m n : Version) (v w : World) → IsSound v → IsSound w → IsOf m v → IsOf n w → rows_of m v ≡ rows_of n w → bytes_of v ≡ bytes_of w → v ≡ w }
{}

/// No two phases, with whoever stops the job, kinds of reports, states or truth values have the same numbers in their columns.
pub fn numbers_tell_names()
    ensures courses { (p q : Phase) (s t : Option Why) → phase_number p ≡ phase_number q → why_number p s ≡ why_number q t → stopping_number p s ≡ stopping_number q t → (p ≡ q) × (s ≡ t) }
    ensures kinds { (k l : Kind) → kind_number k ≡ kind_number l → k ≡ l }
    ensures states { (s t : JobState) → job_state_number s ≡ job_state_number t → s ≡ t }
    ensures flags { (a b : Bool) → flag_number a ≡ flag_number b → a ≡ b }
{}

/// The rows of a sound queue keep each clause over the rows, and the bytes of its pieces have the lengths
/// that the rows say.
pub fn sound_queues_have_sound_rows()
    ensures rows { (n : Version) (w : World) → IsSound w → IsOf n w → AreSoundRows (rows_of n w) }
    ensures lengths { (n : Version) (w : World) → map length (bytes_of w) ≡ map length_in (rows_of n w).pieces }
{}
