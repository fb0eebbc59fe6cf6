use super::*;
use crate::{journal_text, reply_text};
use std::test::Fail;

// The text of a report, line by line.
fn written(alloc: Global, report: &Report) -> Result<Vec<u8>, Memory> {
    let mut text = Vec::new(alloc);
    for worker in 0..=255u8 {
        for n in 0..report.replies.len(worker) {
            if let Some(reply) = report.replies.get(worker, n) {
                text.extend_from_slice(&reply_text(alloc, worker, n + 1, reply)?)?;
            }
        }
    }
    text.extend_from_slice(&journal_text(alloc, &report.journal)?)?;
    Ok(text)
}

// Whether the text is that of the report it is read as; none where it is no report.
fn reads_back(alloc: Global, text: &[u8]) -> Result<Option<bool>, Memory> {
    match report_of(alloc, text)? {
        Some(report) => {
            let again = report_text(alloc, &report.replies, &report.journal)?;
            Ok(Some(again.as_slice() == text))
        }
        None => Ok(None),
    }
}

// A report of every form of line, with the least and the greatest numbers.
const WHOLE: &str = "\
    w0 1 placed at=0 row=0\n\
    w0 2 placed at=4294967295 row=4294967295\n\
    w0 3 duplicate front=0 row=4294967295\n\
    w0 4 missing front=4294967295\n\
    w0 5 table-full front=0\n\
    w0 6 log-full front=10\n\
    w0 7 drop deleted=2 1=p0 2=p1 3=m2 4=m2 5=f2 6=f4294967295 7=m0\n\
    w0 8 drop deleted=0 1=m2 2=m2 3=m2 4=m2 5=m2 6=m2 7=m2\n\
    w0 9 found front=3 row=4 tuple=1|0.00|0.00|0.00|A|F|1992-01-01\n\
    w0 10 found front=3 row=4 tuple=50|999999.99|0.10|0.08|R|O|1998-12-31\n\
    w0 11 absent front=0\n\
    w2 1 rows front=3 count=0 list=- patched=6\n\
    w2 2 rows front=3 count=1 list=0 patched=0\n\
    w2 3 rows front=3 count=4 list=3968,4294967295,0,7 patched=4294967295\n\
    w2 4 count front=0 count=4294967295 patched=1\n\
    w2 5 sum front=1 count=0 sum=0.0000 patched=0\n\
    w2 6 sum front=1 count=3 sum=1844674407370955.1615 patched=0\n\
    w2 7 q6 front=1 count=3 sum=6316.1736 patched=0\n\
    w255 1 merge merged=217 fresh=0 busy=4294967295\n\
    journal 4\n\
    0 w0 1.1 row=0 old=17|21168.23|0.04|0.02|N|O|1996-02-29 new=7|21168.23|0.04|0.02|N|O|1996-03-01\n\
    1 w255 4294967295.7 row=4294967295 old=- new=50|0.01|0.00|0.00|A|F|1995-12-31\n\
    2 w63 10.2 row=3967 old=50|10.00|0.10|0.08|R|F|1998-12-31 new=-\n\
    3 w1 10.2 row=3967 old=- new=-\n";

#[test]
fn every_form_of_line(rt: HostRuntime) -> Result<(), Fail> {
    let Some(report) = report_of(rt.alloc(), WHOLE.as_bytes())? else {
        return Err(Fail::from("no report"));
    };
    assert_eq!(rt; report.replies.workers(), 256);
    assert_eq!(rt; report.replies.len(0), 11);
    assert_eq!(rt; report.replies.len(1), 0);
    assert_eq!(rt; report.replies.len(2), 7);
    assert_eq!(rt; report.journal.len(), 4);
    assert_eq!(rt; written(rt.alloc(), &report)?.as_slice(), WHOLE.as_bytes());
    Ok(())
}

#[test]
fn reports_of_few_lines(rt: HostRuntime) -> Result<(), Fail> {
    for text in [
        "journal 0\n",
        "w0 1 placed at=0 row=0\njournal 0\n",
        "w1 1 placed at=0 row=0\njournal 0\n",
        "w255 1 absent front=0\njournal 1\n0 w0 1.1 row=0 old=- new=-\n",
        "w0 1 rows front=0 count=3 list=2,1,0 patched=9\njournal 0\n",
    ] {
        assert_eq!(rt;
            reads_back(rt.alloc(), text.as_bytes())?,
            Some(true),
            "of {text:?}"
        );
    }
    Ok(())
}

#[test]
fn what_is_no_report(rt: HostRuntime) -> Result<(), Fail> {
    for text in [
        "",
        "\n",
        "journal 0",
        "journal 0\r\n",
        "journal 00\n",
        "journal 1\n",
        "journal 0\n\n",
        "journal 0\n0 w0 1.1 row=0 old=- new=-\n",
        "journal 1\n0 w0 1.1 row=0 old=- new=-\n1 w0 1.1 row=0 old=- new=-\n",
        "journal 4294967296\n",
        "Journal 0\n",
        " journal 0\n",
        "w0 1 placed at=0 row=0\n",
        "w0 1 placed at=0 row=0journal 0\n",
    ] {
        assert_eq!(rt;
            reads_back(rt.alloc(), text.as_bytes())?,
            None,
            "of {text:?}"
        );
    }
    Ok(())
}

#[test]
fn what_is_no_reply(rt: HostRuntime) -> Result<(), Fail> {
    for line in [
        // workers and numbers
        "w0 0 absent front=0",
        "w0 2 absent front=0",
        "w0 01 absent front=0",
        "w00 1 absent front=0",
        "w256 1 absent front=0",
        "w 1 absent front=0",
        "w0  1 absent front=0",
        "w0 1  absent front=0",
        " w0 1 absent front=0",
        "w0 1 absent front=0 ",
        "w0 1 absent front=0\r",
        "w0 1 absent front=0\nw0 1 absent front=0",
        "w0 1 absent front=0\nw0 3 absent front=0",
        "w1 1 absent front=0\nw0 1 absent front=0",
        "w1 1 absent front=0\nw2 1 absent front=0\nw1 2 absent front=0",
        // forms
        "w0 1 ",
        "w0 1 p",
        "w0 1 absent",
        "w0 1 Absent front=0",
        "w0 1 placed at=0",
        "w0 1 placed row=0 at=0",
        "w0 1 missing front=4294967296",
        "w0 1 missing front=+1",
        "w0 1 missing front=",
        "w0 1 missing front=0 row=0",
        "w0 1 table-full front=012",
        "w0 1 log_full front=0",
        "w0 1 merge merged=1 busy=0 fresh=0",
        // drops
        "w0 1 drop deleted=1 1=p0 2=p1 3=m2 4=m2 5=m2 6=m2 7=m2",
        "w0 1 drop deleted=0 1=m2 2=m2 3=m2 4=m2 5=m2 6=m2",
        "w0 1 drop deleted=0 1=m2 2=m2 3=m2 4=m2 5=m2 6=m2 7=m2 8=m2",
        "w0 1 drop deleted=0 1=m2 2=m2 3=m2 4=m2 5=m2 7=m2 6=m2",
        "w0 1 drop deleted=0 1=m2 2=m2 3=m2 4=x2 5=m2 6=m2 7=m2",
        "w0 1 drop deleted=0 1=m2 2=m2 3=m2 4=m 5=m2 6=m2 7=m2",
        // lists
        "w0 1 rows front=3 count=0 list= patched=0",
        "w0 1 rows front=3 count=0 list=0 patched=0",
        "w0 1 rows front=3 count=1 list=- patched=0",
        "w0 1 rows front=3 count=1 list=1,2 patched=0",
        "w0 1 rows front=3 count=3 list=1,2 patched=0",
        "w0 1 rows front=3 count=2 list=1, 2 patched=0",
        "w0 1 rows front=3 count=2 list=1,,2 patched=0",
        "w0 1 rows front=3 count=2 list=1,02 patched=0",
        "w0 1 rows front=3 count=2 list=,1,2 patched=0",
        "w0 1 rows front=3 count=4294967295 list=1 patched=0",
        // sums
        "w0 1 sum front=1 count=0 sum=0.000 patched=0",
        "w0 1 sum front=1 count=0 sum=0.00000 patched=0",
        "w0 1 sum front=1 count=0 sum=00.0000 patched=0",
        "w0 1 sum front=1 count=0 sum=.0000 patched=0",
        "w0 1 sum front=1 count=0 sum=0 patched=0",
        "w0 1 sum front=1 count=0 sum=0,0000 patched=0",
        "w0 1 sum front=1 count=3 sum=1844674407370955.1616 patched=0",
        "w0 1 sum front=1 count=3 sum=18446744073709551615.0000 patched=0",
        "w0 1 q7 front=1 count=3 sum=0.0000 patched=0",
    ] {
        let text = format!(in rt.alloc(); "{line}\njournal 0\n")?;
        assert_eq!(rt;
            reads_back(rt.alloc(), text.as_bytes())?,
            None,
            "of {text:?}"
        );
    }
    Ok(())
}

#[test]
fn what_is_no_delta(rt: HostRuntime) -> Result<(), Fail> {
    for line in [
        "1 w0 1.1 row=0 old=- new=-",
        "00 w0 1.1 row=0 old=- new=-",
        "0 w256 1.1 row=0 old=- new=-",
        "0 w0 0.1 row=0 old=- new=-",
        "0 w0 1.0 row=0 old=- new=-",
        "0 w0 1.8 row=0 old=- new=-",
        "0 w0 1 row=0 old=- new=-",
        "0 w0 1.1 row=4294967296 old=- new=-",
        "0 w0 1.1 row=0 new=- old=-",
        "0 w0 1.1 row=0 old= new=-",
        "0 w0 1.1 row=0 old=-- new=-",
        "0 w0 1.1 row=0 old=-1|0.00|0.00|0.00|A|F|1992-01-01 new=-",
        "0 w0 1.1 row=0 old=- new=0|0.00|0.00|0.00|A|F|1992-01-01",
        "0 w0 1.1 row=0 old=- new=51|0.00|0.00|0.00|A|F|1992-01-01",
        "0 w0 1.1 row=0 old=- new=07|0.00|0.00|0.00|A|F|1992-01-01",
        "0 w0 1.1 row=0 old=- new=7|0.0|0.00|0.00|A|F|1992-01-01",
        "0 w0 1.1 row=0 old=- new=7|00.00|0.00|0.00|A|F|1992-01-01",
        "0 w0 1.1 row=0 old=- new=7|.00|0.00|0.00|A|F|1992-01-01",
        "0 w0 1.1 row=0 old=- new=7|1000000.00|0.00|0.00|A|F|1992-01-01",
        "0 w0 1.1 row=0 old=- new=7|0.00|0.11|0.00|A|F|1992-01-01",
        "0 w0 1.1 row=0 old=- new=7|0.00|0.00|0.09|A|F|1992-01-01",
        "0 w0 1.1 row=0 old=- new=7|0.00|0.00|1.00|A|F|1992-01-01",
        "0 w0 1.1 row=0 old=- new=7|0.00|0.00|0.00|B|F|1992-01-01",
        "0 w0 1.1 row=0 old=- new=7|0.00|0.00|0.00|a|F|1992-01-01",
        "0 w0 1.1 row=0 old=- new=7|0.00|0.00|0.00|A|P|1992-01-01",
        "0 w0 1.1 row=0 old=- new=7|0.00|0.00|0.00|A|F|1991-12-31",
        "0 w0 1.1 row=0 old=- new=7|0.00|0.00|0.00|A|F|1999-01-01",
        "0 w0 1.1 row=0 old=- new=7|0.00|0.00|0.00|A|F|1995-02-29",
        "0 w0 1.1 row=0 old=- new=7|0.00|0.00|0.00|A|F|1995-13-01",
        "0 w0 1.1 row=0 old=- new=7|0.00|0.00|0.00|A|F|1995-1-01",
        "0 w0 1.1 row=0 old=- new=7|0.00|0.00|0.00|A|F|1995-01-00",
        "0 w0 1.1 row=0 old=- new=7|0.00|0.00|0.00|A|F|1995/01/01",
        "0 w0 1.1 row=0 old=- new=7|0.00|0.00|0.00|A|F",
        "0 w0 1.1 row=0 old=- new=7|0.00|0.00|0.00|A|F|1995-01-01|",
    ] {
        let text = format!(in rt.alloc(); "journal 1\n{line}\n")?;
        assert_eq!(rt;
            reads_back(rt.alloc(), text.as_bytes())?,
            None,
            "of {text:?}"
        );
    }
    Ok(())
}

// No byte can be left out, doubled or changed but to another report's.
#[test]
fn every_byte_damaged(rt: HostRuntime) -> Result<(), Fail> {
    let whole = WHOLE.as_bytes();
    for at in 0..whole.len() {
        let (front, back) = whole.split_at(at);
        for other in [b"".as_slice(), b"0", b"1", b" ", b"w", b"\n"] {
            let mut changed = Vec::from_slice(rt.alloc(), front)?;
            changed.extend_from_slice(other)?;
            let mut doubled = changed.clone()?;
            changed.extend_from_slice(back.get(1..).unwrap_or(b""))?;
            doubled.extend_from_slice(back)?;
            assert!(rt; reads_back(rt.alloc(), changed.as_slice())? != Some(false));
            assert!(rt; reads_back(rt.alloc(), doubled.as_slice())? != Some(false));
        }
    }
    Ok(())
}

// A list of many numbers, and many lines.
#[test]
fn long_lines_and_many(rt: HostRuntime) -> Result<(), Fail> {
    let mut text = format!(in rt.alloc(); "w0 1 rows front=0 count=100000 list=0")?;
    for row in 1..100_000u32 {
        text.push_str(&format!(in rt.alloc(); ",{row}")?)?;
    }
    text.push_str(" patched=0\n")?;
    for number in 2..=2_000u32 {
        text.push_str(&format!(in rt.alloc(); "w0 {number} absent front=0\n")?)?;
    }
    text.push_str("journal 0\n")?;
    assert_eq!(rt; reads_back(rt.alloc(), text.as_bytes())?, Some(true));
    Ok(())
}
