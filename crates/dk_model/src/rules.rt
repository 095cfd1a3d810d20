//! What a game means.

/// A game's meaning: what each job does, said on the run in its midst, apart from any program. The
/// platform's part of a job goes before and after it. A game proves that its rules are lawful: each
/// step by the lemma of its operation, in `proofs/Operations` and `proofs/PlatformActs`.
pub trait Rules {
    ghost use Rattle.dk_types.specs.declared.job.Job.{Job};
    ghost use Rattle.dk_model.specs.Runs.{Act};
    ghost use Rattle.dk_model.specs.Lawful.{AreLawful};

    ghost rules: { Self → Job → Act (Unit {0}) };

    ghost lawful: { (game : Self) → AreLawful (rules game) };
}
