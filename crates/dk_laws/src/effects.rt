//! Net effects.
ghost use Rattle.dk_laws.specs.EffectsLaw.{EffectsLeadThere};

/// The effects between two worlds make the one into the other, but for the number of commits and
/// the largest run, wherever a task that stands in both differs at most in its due moment.
pub fn effects_lead_there()
    ensures { EffectsLeadThere }
{}
