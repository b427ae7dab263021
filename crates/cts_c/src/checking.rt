//! `cts_check`: whether a report, whoever made it, shows what it says.

ghost use Rattle.std.specs.Prelude.{◌≡◌, ◌≢◌, ◌⊎◌, ◌↔◌, Ok, Err, IfOk, IfErr};
ghost use Rattle.cts_c.specs.Vocabulary.{Problem, TellAll, IsJudged, IsShownReport, IsCheck, AreAllShort, AreRefused, FailsFor, IsFailure};

use crate::failure::Failure;
use crate::finding::Finding;
use crate::judged::Judged;
use crate::texts::{is_short, problem_of};
use cert_check::{Verdict, check};
use cts_base::NoMemory;
use cts_model::Problem;
use report_text::{ReportFault, read_report};
use std::alloc::Global;

/// Judges a report of the problem that a netlist, a delay table and a placement tell, and writes
/// what stands against it to `finding`. Gives the exit status of `cts check`.
#[unsafe(no_mangle)]
pub extern "C" fn cts_check(
    alloc: Global,
    bench: &[u8],
    tech: &[u8],
    pl: &[u8],
    report: &[u8],
    finding: &mut Finding,
) -> u32
    // 0 and 7: the texts tell a problem. Then the report shows what it says, which is so; or what
    // is found stands against it, and nothing that is judged before.
    ensures judged { (result ≡ 0) ⊎ (result ≡ 7)
        → IsCheck bench.now tech.now pl.now report.now result finding.new }

    // 0: exactly where they tell a problem and the report shows what it says, unless memory is
    // refused, which is 6.
    ensures shown { (problem : Problem) → AreAllShort bench.now tech.now pl.now
        → TellAll bench.now tech.now pl.now problem → IsShownReport problem report.now
        → (result ≡ 0) ⊎ (result ≡ 6) }

    // 3: exactly where one of the three is too long or has a fault.
    ensures refused { result ≡ 3 → AreRefused bench.now tech.now pl.now }
    ensures accepted { (problem : Problem) → AreAllShort bench.now tech.now pl.now
        → TellAll bench.now tech.now pl.now problem → result ≢ 3 }
    ensures long { (AreAllShort bench.now tech.now pl.now → ⊥) → IsFailure result }
    ensures nothing { IsFailure result → finding.new ≡ record { kind = 0; number = 0; place = 0 } }
    ensures statuses { ((result ≡ 0) ⊎ (result ≡ 7)) ⊎ IsFailure result }
{
    match check_texts(alloc, bench, tech, pl, report) {
        Ok(judged) => {
            *finding = judged.finding();
            judged.status()
        }
        Err(failure) => {
            *finding = Finding::NOTHING;
            failure.status()
        }
    }
}

// What a report comes to whose problem three texts tell.
fn check_texts(
    alloc: Global,
    bench: &[u8],
    tech: &[u8],
    pl: &[u8],
    report: &[u8],
) -> Result<Judged, Failure>
    ensures short { IfOk result (λ _. AreAllShort bench.now tech.now pl.now) }
    ensures judged { IfOk result (λ judged. (problem : Problem)
        × TellAll bench.now tech.now pl.now problem × IsJudged problem report.now judged) }
    ensures shown { (problem : Problem) → AreAllShort bench.now tech.now pl.now
        → TellAll bench.now tech.now pl.now problem → IsShownReport problem report.now
        → (result ≡ Ok Judged.Shown) ⊎ (result ≡ Err Failure.NoMemory) }
    ensures cause { IfErr result (FailsFor (AreRefused bench.now tech.now pl.now)) }
    ensures accepted { (problem : Problem) → AreAllShort bench.now tech.now pl.now
        → TellAll bench.now tech.now pl.now problem
        → IfErr result (λ failure. failure ≡ Failure.NoMemory) }
{
    let problem = problem_of(alloc, bench, tech, pl)?;
    Ok(judge(alloc, &problem, report)?)
}

// What the text of a report comes to.
fn judge(alloc: Global, problem: &Problem, text: &[u8]) -> Result<Judged, NoMemory>
    ensures judged { IfOk result (IsJudged problem.now text.now) }
    ensures shown { IfOk result
        (λ judged. (judged ≡ Judged.Shown) ↔ IsShownReport problem.now text.now) }
{
    if !is_short(text) {
        return Ok(Judged::TooLong);
    }
    let report = match read_report(alloc, text, &problem.circuit, &problem.tech) {
        Ok(report) => report,
        Err(ReportFault::NoMemory) => return Err(NoMemory),
        Err(fault) => return Ok(Judged::Faulty(fault)),
    };
    match check(alloc, problem, &report)? {
        Verdict::Shown => Ok(Judged::Shown),
        Verdict::Not(reason) => Ok(Judged::Against(reason)),
    }
}
