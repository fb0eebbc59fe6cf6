//! What is printed.
use crate::cases::Case;
use crate::session::Report;
use crate::times::{Timed, least_and_median};
use std::io;

/// Prints what each case answered in each state, and on standard error how long it took, if that is wanted.
pub(crate) fn tell<R: Print + Eprint>(
    rt: &R,
    cases: &[Case],
    report: &mut Report,
    tells_times: bool,
) -> io::Result<()> {
    if tells_times {
        eprintln!(rt;
            "build={}.{:09}",
            report.build.as_secs(),
            report.build.subsec_nanos()
        )?;
    }
    tell_state(rt, "base", cases, &mut report.at_base, tells_times)?;
    tell_state(rt, "unmerged", cases, &mut report.unmerged, tells_times)?;
    tell_state(rt, "merged", cases, &mut report.merged, tells_times)
}

fn tell_state<R: Print + Eprint>(
    rt: &R,
    state: &str,
    cases: &[Case],
    all: &mut Vec<Timed>,
    tells_times: bool,
) -> io::Result<()> {
    for (case, timed) in cases.iter().zip(all.iter_mut()) {
        println!(rt;
            "{state} {} count={} sum={}",
            case.name, timed.count, timed.sum
        )?;
        if tells_times {
            tell_times(rt, state, case.name, timed)?;
        }
    }
    Ok(())
}

fn tell_times<R: Eprint>(rt: &R, state: &str, name: &str, timed: &mut Timed) -> io::Result<()> {
    let (sum, sum_median) = least_and_median(&mut timed.sums);
    let (count, count_median) = least_and_median(&mut timed.counts);
    eprintln!(rt;
        "{state} {name} sum_ns={} sum_median_ns={} count_ns={} count_median_ns={}",
        sum.as_nanos(),
        sum_median.as_nanos(),
        count.as_nanos(),
        count_median.as_nanos()
    )
}
