//! The text of evidence about a log: printed, read and refused.

use log_text::read_log;
use std::alloc::Global;
use std::test::Fail;
use traces_for_tests::expect_equal;
use value_evidence::{LogEvidence, ValueEnd, ValueEvidence, ValueRefutationLine, ValueStep};
use value_texts::{
    EventName, ValuePrintRefusal, ValueTextFault, ValueTextRefusal, names_of, print_log_evidence,
    print_value_evidence, read_log_evidence,
};

/// Its events are the store of line 2, the swap of line 5, the swap of line 3 and the load of line 6.
const LOG: &str = "model pso\n0 st 0 1\n1 sw 9 0 1\n0 mb\n0 sw 9 1 2\n1 ld 0 1\n";

static STEPS: [ValueStep; 7] = [
    ValueStep::Read { load: 2, source: 5 },
    ValueStep::Read { load: 4, source: 0 },
    ValueStep::In { from: 1, load: 6 },
    ValueStep::Out { load: 4, to: 3 },
    ValueStep::Over {
        from: 5,
        to: 3,
        load: 6,
    },
    ValueStep::SwapAfter { swap: 4, to: 3 },
    ValueStep::SwapBefore { from: 5, swap: 2 },
];

const LINES: &str =
    "read 5 3'\nread 3 init\nin 2 6\nout 3 5'\nover 3' 5' 6\nafter 3 5'\nbefore 3' 5\n";

/// How the evidence ends, and its last line.
struct Ending {
    end: ValueEnd,
    line: &'static str,
}

static ENDINGS: [Ending; 2] = [
    Ending {
        end: ValueEnd::NoSource(6),
        line: "nosource 6\n",
    },
    Ending {
        end: ValueEnd::Cycle(5),
        line: "cycle 3'\n",
    },
];

/// Lines with cases, which are those of no refutation: a text may have any lines.
static CASES: [ValueRefutationLine; 8] = [
    ValueRefutationLine::ReadCase { load: 2, source: 5 },
    ValueRefutationLine::Step(ValueStep::Read { load: 4, source: 0 }),
    ValueRefutationLine::End(ValueEnd::NoSource(6)),
    ValueRefutationLine::Else,
    ValueRefutationLine::ReadCase { load: 2, source: 0 },
    ValueRefutationLine::BeforeCase {
        first: 1,
        second: 6,
    },
    ValueRefutationLine::End(ValueEnd::Cycle(5)),
    ValueRefutationLine::Else,
];

const CASE_LINES: &str =
    "case-read 5 3'\nread 3 init\nnosource 6\nelse\ncase-read 5 init\ncase-before 2 6\ncycle 3'\nelse\n";

/// The events, and an order of them that is none of memory's: a text may have any.
static ORDER: [usize; 6] = [1, 6, 4, 5, 2, 3];

const ORDER_LINE: &str = "order 2 6 3 3' 5 5'\n";

/// Texts, the line at which each is refused, and why.
static REFUSED: [(&str, usize, ValueTextRefusal); 32] = [
    // no line end, and too few tokens, too many, two spaces, another word, and no token at all
    ("in 2 6\ncycle 2", 2, ValueTextRefusal::BadLine),
    ("in 2 6\nin 2\ncycle 2\n", 2, ValueTextRefusal::BadLine),
    ("in 2 6 6\n", 1, ValueTextRefusal::BadLine),
    ("before 2  6\n", 1, ValueTextRefusal::BadLine),
    ("come 2 6\n", 1, ValueTextRefusal::BadLine),
    ("cycle 2\n\n", 2, ValueTextRefusal::BadLine),
    // the same of cases
    ("case-read 5\n", 1, ValueTextRefusal::BadLine),
    ("case-before 2 6 6\n", 1, ValueTextRefusal::BadLine),
    ("case 2 6\n", 1, ValueTextRefusal::BadLine),
    ("else 2\n", 1, ValueTextRefusal::BadLine),
    ("else \n", 1, ValueTextRefusal::BadLine),
    ("case-before 2 6\nelse", 2, ValueTextRefusal::BadLine),
    // an order after another line, which names no event besides; and one without its line end
    ("in 2 6\norder 2 6\n", 2, ValueTextRefusal::BadLine),
    ("else\norder 4\n", 2, ValueTextRefusal::BadLine),
    ("order 2 6", 1, ValueTextRefusal::BadLine),
    // the line of a barrier, a zero before a number, the store of no swap, no source, 2^64 + 2, and a line after the log
    ("in 4 6\n", 1, ValueTextRefusal::NoEvent),
    ("in 02 6\n", 1, ValueTextRefusal::NoEvent),
    ("in 2' 6\n", 1, ValueTextRefusal::NoEvent),
    ("in init 6\n", 1, ValueTextRefusal::NoEvent),
    ("in 18446744073709551618 6\n", 1, ValueTextRefusal::NoEvent),
    ("in 2 6\ncycle 7\n", 2, ValueTextRefusal::NoEvent),
    // the same of cases
    ("case-read init 2\n", 1, ValueTextRefusal::NoEvent),
    ("case-read 5 4\n", 1, ValueTextRefusal::NoEvent),
    ("case-before 2 init\n", 1, ValueTextRefusal::NoEvent),
    ("else\ncase-before 7 2\n", 2, ValueTextRefusal::NoEvent),
    // and of an order
    ("order 2 4\n", 1, ValueTextRefusal::NoEvent),
    ("order init\n", 1, ValueTextRefusal::NoEvent),
    ("order \n", 1, ValueTextRefusal::NoEvent),
    // something after an order
    ("order 2 6\n\n", 2, ValueTextRefusal::AfterEnd),
    ("order\nelse\n", 2, ValueTextRefusal::AfterEnd),
    ("order 2\norder 2\n", 2, ValueTextRefusal::AfterEnd),
    ("order 2\nx", 2, ValueTextRefusal::AfterEnd),
];

/// The names of the log's events; none where its text spells none.
fn names(alloc: Global) -> Result<Vec<EventName>, Fail> {
    match read_log(alloc, LOG.as_bytes(), false) {
        Ok(log) => Ok(names_of(alloc, &log)?),
        Err(_) => Ok(Vec::new(alloc)),
    }
}

/// Evidence of these steps that ends so.
fn evidence_of(alloc: Global, steps: &[ValueStep], end: ValueEnd) -> Result<ValueEvidence, Fail> {
    let steps = Vec::from_slice(alloc, steps)?;
    Ok(ValueEvidence { steps, end })
}

/// The refutation of these lines.
fn refutation(alloc: Global, lines: &[ValueRefutationLine]) -> Result<LogEvidence, Fail> {
    Ok(LogEvidence::Refutation(Vec::from_slice(alloc, lines)?))
}

/// The order of these events.
fn order(alloc: Global, numbers: &[usize]) -> Result<LogEvidence, Fail> {
    Ok(LogEvidence::Order(Vec::from_slice(alloc, numbers)?))
}

/// What was read has these lines.
fn expect_lines(
    number: usize,
    read: &Result<LogEvidence, ValueTextFault>,
    lines: &[ValueRefutationLine],
) -> Result<(), Fail> {
    match read {
        Ok(LogEvidence::Refutation(found)) => expect_equal(number, found.as_slice(), lines),
        Ok(LogEvidence::Order(_)) => expect_equal(number, "an order", "a refutation"),
        Err(fault) => expect_equal(number, Some(*fault), None),
    }
}

/// What was read is an order of these events.
fn expect_order(
    number: usize,
    read: &Result<LogEvidence, ValueTextFault>,
    numbers: &[usize],
) -> Result<(), Fail> {
    match read {
        Ok(LogEvidence::Order(found)) => expect_equal(number, found.as_slice(), numbers),
        Ok(LogEvidence::Refutation(_)) => expect_equal(number, "a refutation", "an order"),
        Err(fault) => expect_equal(number, Some(*fault), None),
    }
}

/// The evidence is printed as this text.
fn expect_text(
    alloc: Global,
    number: usize,
    evidence: &LogEvidence,
    expected: &str,
) -> Result<(), Fail> {
    let names = names(alloc)?;
    let mut text = String::new(alloc);
    let printed = print_log_evidence(&mut text, &names, evidence);
    expect_equal(number, printed, Ok(()))?;
    expect_equal(number, text.as_str(), expected)
}

#[test]
fn evidence_by_values_is_printed(rt: HostRuntime) -> Result<(), Fail> {
    let names = names(rt.alloc())?;
    for (number, ending) in ENDINGS.iter().enumerate() {
        let evidence = evidence_of(rt.alloc(), &STEPS, ending.end)?;
        let mut text = String::new(rt.alloc());
        let printed = print_value_evidence(&mut text, &names, &evidence);
        let whole = format!(in rt.alloc(); "{LINES}{}", ending.line)?;
        expect_equal(number, printed, Ok(()))?;
        expect_equal(number, text.as_str(), whole.as_str())?;
    }
    Ok(())
}

#[test]
fn evidence_by_values_is_read(rt: HostRuntime) -> Result<(), Fail> {
    let names = names(rt.alloc())?;
    for (number, ending) in ENDINGS.iter().enumerate() {
        let text = format!(in rt.alloc(); "{LINES}{}", ending.line)?;
        let mut lines = Vec::new(rt.alloc());
        for step in &STEPS {
            lines.push(ValueRefutationLine::Step(*step))?;
        }
        lines.push(ValueRefutationLine::End(ending.end))?;
        let read = read_log_evidence(rt.alloc(), &names, text.as_bytes());
        expect_lines(number, &read, &lines)?;
    }
    Ok(())
}

#[test]
fn lines_with_cases_are_printed_and_read(rt: HostRuntime) -> Result<(), Fail> {
    let names = names(rt.alloc())?;
    let none: [ValueRefutationLine; 0] = [];
    expect_text(rt.alloc(), 0, &refutation(rt.alloc(), &CASES)?, CASE_LINES)?;
    expect_text(rt.alloc(), 1, &refutation(rt.alloc(), &none)?, "")?;
    let read = read_log_evidence(rt.alloc(), &names, CASE_LINES.as_bytes());
    expect_lines(2, &read, &CASES)?;
    let read = read_log_evidence(rt.alloc(), &names, b"".as_slice());
    expect_lines(3, &read, &none)
}

#[test]
fn orders_are_printed_and_read(rt: HostRuntime) -> Result<(), Fail> {
    let names = names(rt.alloc())?;
    expect_text(rt.alloc(), 0, &order(rt.alloc(), &ORDER)?, ORDER_LINE)?;
    expect_text(rt.alloc(), 1, &order(rt.alloc(), &[])?, "order\n")?;
    let read = read_log_evidence(rt.alloc(), &names, ORDER_LINE.as_bytes());
    expect_order(2, &read, &ORDER)?;
    let read = read_log_evidence(rt.alloc(), &names, b"order\n".as_slice());
    expect_order(3, &read, &[])
}

#[test]
fn texts_of_evidence_by_values_are_refused(rt: HostRuntime) -> Result<(), Fail> {
    let names = names(rt.alloc())?;
    for (number, case) in REFUSED.iter().enumerate() {
        let (text, line, why) = *case;
        let fault = read_log_evidence(rt.alloc(), &names, text.as_bytes()).err();
        expect_equal(number, fault, Some(ValueTextFault { line, why }))?;
    }
    Ok(())
}

#[test]
fn numbers_of_no_event_have_no_text(rt: HostRuntime) -> Result<(), Fail> {
    let names = names(rt.alloc())?;
    for number in [0, 7] {
        let evidence = evidence_of(rt.alloc(), &[], ValueEnd::Cycle(number))?;
        let mut text = String::new(rt.alloc());
        let printed = print_value_evidence(&mut text, &names, &evidence);
        expect_equal(number, printed, Err(ValuePrintRefusal::NoEvent))?;
        let printed = print_log_evidence(&mut text, &names, &order(rt.alloc(), &[1, number])?);
        expect_equal(number, printed, Err(ValuePrintRefusal::NoEvent))?;
        let case = ValueRefutationLine::BeforeCase {
            first: 1,
            second: number,
        };
        let printed = print_log_evidence(&mut text, &names, &refutation(rt.alloc(), &[case])?);
        expect_equal(number, printed, Err(ValuePrintRefusal::NoEvent))?;
    }
    Ok(())
}
