ghost use Rattle.std.specs.Prelude.{◌≡◌};
ghost use Rattle.chooser.specs.Log.{logged};
ghost use Rattle.chooser.specs.Ruled.{Fresh, ruled};
ghost use Rattle.chooser.specs.Rules.{ruled_sound};

use crate::chooser::Chooser;
use crate::log::Log;
use crate::refusal::Refusal;
use crate::rule::Rule;

// A chooser that keeps the proposals in a log, and decides each stage by a rule.
#[derive(Drop)]
pub struct Ruled<R> {
    rule: R,
    log: Log,
}

impl<R: Rule> Ruled<R> {
    // A chooser by this rule, without proposals.
    pub fn by(rule: R) -> Self
        ensures same { result.rule ≡ rule }
        ensures fresh { Fresh (R.needs rule) (⟦<Ruled<R> as Chooser>⟧.meaning result) }
    {
        Ruled {
            rule,
            log: Log::new(),
        }
    }
}

impl<R: Rule> Chooser for Ruled<R> {
    ghost meaning = { λ x. ruled (R.needs x.rule) (R.picks x.rule) (logged x.log) };

    ghost sound = { λ x. ruled_sound (R.needs x.rule) (R.picks x.rule) (R.low x.rule) (R.high x.rule) (R.within x.rule) x.log };

    fn need(&self) -> u8 {
        self.rule.need()
    }

    fn count(&self, stage: u32) -> Result<usize, Refusal> {
        self.log.count(stage)
    }

    fn decision(&self, stage: u32) -> Result<Option<(u64, u64)>, Refusal> {
        let proposals = self.log.proposals(stage)?;
        let need = usize::from(self.rule.need());
        let Some(first) = proposals.get(..need) else {
            return Ok(None);
        };
        let place = self.rule.place(stage, first);
        Ok(first.get(place).map(|chosen| chosen.sets()))
    }

    fn propose(&mut self, stage: u32, node: u8, sets: (u64, u64)) -> Result<(), Refusal> {
        self.log.propose(stage, node, sets)
    }
}
