// The fleet report by C's convention, for the host's benchmark.
#![tactic(auto)]

ghost use Rattle.std.specs.Prelude.{◌≡◌, length};
ghost use Rattle.std.proofs.lemmas.List.Edits.{sets};
ghost use Rattle.limits.specs.Answer.{answer, leaves};
ghost use Rattle.fleet_sheet.specs.Fleet.{devices_of};
ghost use Rattle.fleet_sheet.specs.Report.{sheet, fleet_messages, fleet_cause};
ghost use Rattle.bench_fleet.specs.Rows.{rows_of};

// How many rows fleet_sheet::fleet_report writes, 0 where it refuses.
#[unsafe(no_mangle)]
pub extern "C" fn bench_fleet_report(records: &[u8], rows: &mut [i64]) -> usize
    ensures { (result ≡ rows_of (answer (fleet_cause records.now (length rows.old)) (length (devices_of (fleet_messages records.now)))))
        × (rows.new ≡ leaves (fleet_cause records.now (length rows.old)) (sets rows.old 0 (sheet (fleet_messages records.now))) rows.old) }
{
    fleet_sheet::fleet_report(records, rows).unwrap_or(0)
}
