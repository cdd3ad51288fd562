// Samples of a call with a rate.
ghost use Rattle.std.specs.Prelude.{◌≡◌, ◌*◌, ◌≤◌, true, length, IfOk};
ghost use Rattle.limits.specs.Limits.{lowest_rate, highest_rate, buffer_s};
ghost use Rattle.limits.specs.Samples.{all_dbm, samples_cause};
ghost use Rattle.limits.specs.Answer.{cause_of};

use crate::Refusal;

// Samples to which the causes 1, 3 and 4 do not apply, with their rate.
#[derive(Clone, Copy)]
pub struct Samples<'a> {
    pub dbm: &'a [f32],
    pub rate: u32,
    pub ghost low: { lowest_rate ≤ rate },
    pub ghost high: { rate ≤ highest_rate },
    pub ghost short: { length dbm.now ≤ buffer_s * rate },
    pub ghost valid: { all_dbm dbm.now ≡ true },
}

impl<'a> Samples<'a> {
    // Tests them: the first cause that applies.
    #[tactic(auto, unfolding(crate::specs::Samples::samples_cause, crate::specs::Answer::cause_of))]
    pub fn new(dbm: &'a [f32], rate: u32) -> Result<Self, Refusal>
        ensures cause { cause_of result ≡ samples_cause dbm.now rate }
        ensures same { IfOk result (λ s. (s.dbm.now ≡ dbm.now) × (s.rate ≡ rate)) }
    {
        crate::check_rate(rate)?;
        if crate::BUFFER_S * (rate as usize) < dbm.len() {
            return Err(Refusal::Long);
        }
        if !crate::all_dbm(dbm) {
            return Err(Refusal::BadSample);
        }
        Ok(Samples { dbm, rate })
    }
}
