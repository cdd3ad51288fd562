// The calls on grips by C's convention, for the host's benchmark.
#![tactic(auto)]

ghost use Rattle.std.specs.Prelude.{◌≡◌, length};
ghost use Rattle.std.proofs.lemmas.List.Edits.{sets};
ghost use Rattle.limits.specs.Answer.{answer, leaves};
ghost use Rattle.grip.specs.OnAir.{air_numbers, air_cause};
ghost use Rattle.bench_grip.specs.Told.{Tells, count_of};

// The record number that grip::nearest_message answers, the highest number where there is none or it refuses.
#[unsafe(no_mangle)]
pub extern "C" fn bench_nearest_message(records: &[u8], grip: f64, within: f64) -> usize
    ensures { Tells records.now grip within result }
{
    match grip::nearest_message(records, grip, within) {
        Ok(Some(n)) => n,
        _ => usize::MAX,
    }
}

// How many numbers grip::on_air writes, 0 where it refuses.
#[unsafe(no_mangle)]
pub extern "C" fn bench_on_air(records: &[u8], instant: f64, numbers: &mut [u32]) -> usize
    ensures { (result ≡ count_of (answer (air_cause records.now instant (length numbers.old)) (length (air_numbers instant records.now))))
        × (numbers.new ≡ leaves (air_cause records.now instant (length numbers.old)) (sets numbers.old 0 (air_numbers instant records.now)) numbers.old) }
{
    grip::on_air(records, instant, numbers).unwrap_or(0)
}
