//! Laws of what two files hold. The contract of a function that does nothing, which the layers above cite.
ghost use Rattle.std.specs.Prelude.{◌≡◌, ℕ, List};
ghost use Rattle.dk_model.specs.Recovered.{Recovered as Answer, Recovers};

/// Two files have one answer: a world, no store yet, or what is wrong with them, and where.
pub fn two_files_have_one_answer()
    ensures { (zero one : List ℕ) (a b : Answer) → Recovers zero one a → Recovers zero one b → a ≡ b }
{}
