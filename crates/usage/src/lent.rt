// Upstream's methods: a thread record that is lent and changed in place, each thin over the by-value function.
ghost use Rattle.std.specs.Prelude.{◌≡◌};
ghost use Rattle.usage.specs.Leaves.{enabled, disabled, accumulated};
ghost use Rattle.usage.specs.Says.{done, kept};

use crate::ThreadUsage;
use error::Refusal;

// A refusal leaves the lent record as it was.
#[tactic(auto, unfolding(crate::specs::Says::done, crate::specs::Says::kept))]
impl ThreadUsage {
    pub fn enable(&mut self) -> Result<(), Refusal>
        ensures { (result ≡ done (enabled self.old)) × (self.new ≡ kept self.old (enabled self.old)) }
    {
        *self = crate::enabled(*self)?;
        Ok(())
    }

    pub fn disable(&mut self) -> Result<(), Refusal>
        ensures { (result ≡ done (disabled self.old)) × (self.new ≡ kept self.old (disabled self.old)) }
    {
        *self = crate::disabled(*self)?;
        Ok(())
    }

    pub fn accumulate(&mut self, cycles: u32) -> Result<(), Refusal>
        ensures { (result ≡ done (accumulated self.old cycles)) × (self.new ≡ kept self.old (accumulated self.old cycles)) }
    {
        *self = crate::accumulated(*self, cycles)?;
        Ok(())
    }

    pub fn is_tracked(&self) -> bool
        ensures { result ≡ self.now.track_usage }
    {
        self.track_usage
    }
}
