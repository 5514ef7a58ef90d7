//! How large the sums of an account are.
ghost use Rattle.std.specs.Prelude.{ℕ, ◌<◌, ◌^◌, List};
ghost use Rattle.queue_core.specs.Sound.{IsSound, reserved, printed};
ghost use Rattle.queue_core.specs.World.{World, granted};

/// The sums of an account are bounded: the pages granted to it, those set aside for its jobs and those printed of them
/// are each fewer than 2^58. It is granted at most 1,000,000,000 pages; there are at most 2,147,483,647 jobs, and each has
/// at most 100,000,000 pages set aside for it and as many printed.
pub fn sums_are_bounded()
    ensures granted { (w : World) (a : List ℕ) → IsSound w → granted a w < 2 ^ 58 }
    ensures reserved { (w : World) (a : List ℕ) → IsSound w → reserved a w < 2 ^ 58 }
    ensures printed { (w : World) (a : List ℕ) → IsSound w → printed a w < 2 ^ 58 }
{}
