//! Readers of replies.
ghost use Rattle.std.specs.Prelude.{◌≡◌, ◌<◌, ◌≤◌, ◌+◌, ◌*◌, ℕ, List, ◌∷◌, ◌++◌, length, Some, IfOk, IfSome, IfNone};
ghost use Rattle.std.specs.List.{AllByRecursion};
ghost use Rattle.query_report.specs.declared.reply.DropLine.{DropLine as ALine};
ghost use Rattle.query_report.specs.Decimal.{decimal4_text};
ghost use Rattle.query_report.specs.Field.{field, two_fields};
ghost use Rattle.query_report.specs.declared.reader.reply.Form.TheVariants as form;
ghost use Rattle.query_report.specs.Form.{form_at, ReadsForm};
ghost use Rattle.query_report.specs.Reading.{Reads, Anything, EndsNumber, IsNumber, IsLabel};
ghost use Rattle.query_report.specs.Reply.{drop_letter, drop_number, drop_text, drop_reply, list_text, sum_text, reply_bytes};
ghost use Rattle.query_report.specs.Report.{IsDropLine, IsReply, IsSum, IsAnswer};

use super::Reader;
use crate::reply::deleted_count;
use crate::{DropLine, Memory, Reply};
use cubit_base::RowList;
use std::alloc::Global;

// The forms of replies.
#[derive(Clone, Copy)]
enum Form {
    Placed,
    Duplicate,
    Missing,
    TableFull,
    LogFull,
    DropLines,
    Found,
    Absent,
    Rows,
    Count,
    Sum,
    Q6,
    Merge,
}

impl<'a> Reader<'a> {
    /// A reply.
    pub(super) fn reply(&mut self, alloc: Global) -> Result<Reply, Memory>
        ensures { IfOk result (λ reply. Reads reply_bytes IsReply EndsNumber self.old reply self.new) }
    {
        match self.form() {
            Form::Placed => Ok(self.placed()),
            Form::Duplicate => Ok(self.duplicate()),
            Form::Missing => {
                let front = self.field(b"missing front=");
                Ok(Reply::Missing { front })
            }
            Form::TableFull => {
                let front = self.field(b"table-full front=");
                Ok(Reply::TableFull { front })
            }
            Form::LogFull => {
                let front = self.field(b"log-full front=");
                Ok(Reply::LogFull { front })
            }
            Form::DropLines => Ok(Reply::DropLines(self.drop_lines())),
            Form::Found => Ok(self.found()),
            Form::Absent => {
                let front = self.field(b"absent front=");
                Ok(Reply::Absent { front })
            }
            Form::Rows => self.rows(alloc),
            Form::Count => Ok(self.count()),
            Form::Sum => Ok(self.sum()),
            Form::Q6 => Ok(self.q6()),
            Form::Merge => Ok(self.merge()),
        }
    }

    // The form of the reply that stands at the front, if one does.
    #[inline(always)]
    fn form(&self) -> Form
        ensures { (first second : ℕ) (rest : List ℕ) → self.now ≡ Some (first ∷ second ∷ rest)
            → result ≡ form_at first second }
    {
        match self.rest {
            [first, second, ..] => form_at(*first, *second),
            _ => Form::Merge,
        }
    }

    #[inline(always)]
    fn two(&mut self, label: &[u8], next: &[u8]) -> (u32, u32)
        requires { IsLabel next.now }
        ensures { Reads (λ n. two_fields label.now n.0 next.now n.1) (λ n. IsNumber n.0 × IsNumber n.1) EndsNumber
            self.old result self.new }
    {
        let first = self.field(label);
        let second = self.field(next);
        (first, second)
    }

    #[inline(always)]
    fn three(&mut self, label: &[u8], next: &[u8], last: &[u8]) -> (u32, u32, u32)
        requires next { IsLabel next.now }
        requires last { IsLabel last.now }
        ensures { Reads (λ n. two_fields label.now n.0 next.now n.1 ++ field last.now n.2)
            (λ n. IsNumber n.0 × IsNumber n.1 × IsNumber n.2) EndsNumber self.old result self.new }
    {
        let (first, second) = self.two(label, next);
        let third = self.field(last);
        (first, second, third)
    }

    #[inline(always)]
    fn placed(&mut self) -> Reply
        ensures { ReadsForm form.Placed self.old result self.new }
    {
        let (place, row) = self.two(b"placed at=", b" row=");
        Reply::Placed { place, row }
    }

    #[inline(always)]
    fn duplicate(&mut self) -> Reply
        ensures { ReadsForm form.Duplicate self.old result self.new }
    {
        let (front, row) = self.two(b"duplicate front=", b" row=");
        Reply::Duplicate { front, row }
    }

    #[inline(always)]
    fn found(&mut self) -> Reply
        ensures { ReadsForm form.Found self.old result self.new }
    {
        let (front, row) = self.two(b"found front=", b" row=");
        self.label(b" tuple=");
        let tuple = self.tuple();
        Reply::Found { front, row, tuple }
    }

    #[inline(always)]
    fn count(&mut self) -> Reply
        ensures { ReadsForm form.Count self.old result self.new }
    {
        let (front, count, patched) = self.three(b"count front=", b" count=", b" patched=");
        Reply::Count {
            front,
            count,
            patched,
        }
    }

    #[inline(always)]
    fn sum(&mut self) -> Reply
        ensures { ReadsForm form.Sum self.old result self.new }
    {
        let (front, count, sum, patched) = self.answer(b"sum front=");
        Reply::Sum {
            front,
            count,
            sum,
            patched,
        }
    }

    #[inline(always)]
    fn q6(&mut self) -> Reply
        ensures { ReadsForm form.Q6 self.old result self.new }
    {
        let (front, count, sum, patched) = self.answer(b"q6 front=");
        Reply::Q6 {
            front,
            count,
            sum,
            patched,
        }
    }

    #[inline(always)]
    fn merge(&mut self) -> Reply
        ensures { ReadsForm form.Merge self.old result self.new }
    {
        let (merged, fresh, busy) = self.three(b"merge merged=", b" fresh=", b" busy=");
        Reply::Merge {
            merged,
            fresh,
            busy,
        }
    }

    // A front, a count, a sum, and how many deltas were looked at.
    #[inline(always)]
    fn answer(&mut self, label: &[u8]) -> (u32, u32, u64, u32)
        ensures { Reads (λ s. sum_text label.now s.0 s.1 s.2 s.3) IsAnswer EndsNumber self.old result self.new }
    {
        let (front, count) = self.two(label, b" count=");
        self.label(b" sum=");
        let sum = self.decimal4();
        let patched = self.field(b" patched=");
        (front, count, sum, patched)
    }

    // Units of 0.0001.
    #[inline(always)]
    fn decimal4(&mut self) -> u64
        ensures { Reads decimal4_text IsSum Anything self.old result self.new }
    {
        let whole = self.number();
        self.label(b".");
        let high = self.pair();
        let low = self.pair();
        match units_of(whole, u64::from(high) * 100 + u64::from(low)) {
            Some(units) => units,
            None => {
                self.expect(false);
                0
            }
        }
    }

    fn drop_lines(&mut self) -> [DropLine; 7]
        ensures { Reads drop_reply (λ lines. (length lines ≡ 7) × AllByRecursion IsDropLine lines) EndsNumber
            self.old result self.new }
    {
        let deleted = self.field(b"drop deleted=");
        let lines = [
            self.drop_line(b" 1="),
            self.drop_line(b" 2="),
            self.drop_line(b" 3="),
            self.drop_line(b" 4="),
            self.drop_line(b" 5="),
            self.drop_line(b" 6="),
            self.drop_line(b" 7="),
        ];
        self.expect(deleted == deleted_count(&lines));
        lines
    }

    fn drop_line(&mut self, label: &[u8]) -> DropLine
        ensures { Reads (λ line. label.now ++ drop_text line) IsDropLine EndsNumber self.old result self.new }
    {
        self.label(label);
        let letter = self.byte();
        let number = self.field(b"");
        match drop_line_of(letter, number) {
            Some(line) => line,
            None => {
                self.expect(false);
                DropLine::Placed(0)
            }
        }
    }

    #[inline(always)]
    fn rows(&mut self, alloc: Global) -> Result<Reply, Memory>
        ensures { IfOk result (λ reply. ReadsForm form.Rows self.old reply self.new) }
    {
        let (front, count) = self.two(b"rows front=", b" count=");
        let list = self.list(alloc, count)?;
        let patched = self.field(b" patched=");
        Ok(Reply::Rows {
            front,
            list,
            patched,
        })
    }

    // A list of so many numbers.
    fn list(&mut self, alloc: Global, count: u32) -> Result<RowList, Memory>
        ensures reads { IfOk result (λ list. Reads list_text (λ list. (length list ≡ count)
            × AllByRecursion IsNumber list) EndsNumber self.old list self.new) }
        ensures count { IfOk result (λ list. (rest : List ℕ) → self.new ≡ Some rest → length list ≡ count) }
    {
        let mut list = RowList::new(alloc);
        if count == 0 {
            self.label(b" list=-");
            return Ok(list);
        }
        list.push(self.field(b" list="))?;
        for _ in 1..count {
            if self.has_failed() {
                return Ok(list);
            }
            list.push(self.field(b","))?;
        }
        Ok(list)
    }
}

#[inline(always)]
fn form_at(first: u8, second: u8) -> Form
    ensures { result ≡ form_at first second }
{
    match (first, second) {
        (b'p', _) => Form::Placed,
        (b't', _) => Form::TableFull,
        (b'l', _) => Form::LogFull,
        (b'f', _) => Form::Found,
        (b'a', _) => Form::Absent,
        (b'r', _) => Form::Rows,
        (b'c', _) => Form::Count,
        (b's', _) => Form::Sum,
        (b'q', _) => Form::Q6,
        (b'd', b'u') => Form::Duplicate,
        (b'd', _) => Form::DropLines,
        (_, b'i') => Form::Missing,
        _ => Form::Merge,
    }
}

// So many whole units and parts of 0.0001.
#[inline(always)]
fn units_of(whole: u64, part: u64) -> Option<u64>
    requires { part < 10_000 }
    ensures some { IfSome result (λ units. units ≡ whole * 10_000 + part) }
    ensures none { IfNone result (18_446_744_073_709_551_616 ≤ whole * 10_000 + part) }
{
    whole.checked_mul(10_000)?.checked_add(part)
}

// What became of a line, by the letter and the number that say it.
#[inline(always)]
fn drop_line_of(letter: u8, number: u32) -> Option<DropLine>
    ensures some { IfSome result (λ line. (drop_letter line ≡ letter) × (drop_number line ≡ number)) }
    ensures only { (line : ALine) → drop_letter line ≡ letter → drop_number line ≡ number → result ≡ Some line }
{
    match letter {
        b'p' => Some(DropLine::Placed(number)),
        b'm' => Some(DropLine::Missing(number)),
        b'f' => Some(DropLine::LogFull(number)),
        _ => None,
    }
}
