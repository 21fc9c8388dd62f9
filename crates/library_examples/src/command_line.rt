use axe_io::{Budgets, OutPlace};
use axe_words::{Job, NumberWord, WordsError, read_words};
use clap::error::ErrorKind;
use std::alloc::{AllocError, Global};
use std::process::Abort;
use std::test::Fail;

/// What is wanted of an answer.
#[derive(Clone, Copy)]
enum Wanted {
    /// A job in which this option has this number.
    Number(NumberWord, u64),
    /// A job with as many sizes, of which the last is this.
    Sizes(usize, u32),
    /// A job with this place.
    Out(OutPlace),
    /// A job with this descriptor.
    Desc(&'static str),
    /// A job of this class, with nothing but defaults.
    Class(&'static str),
    Unknown(&'static str),
    Refused(ErrorKind),
    BadNumber(NumberWord),
    BadSizes(u64),
    BadOut,
}

/// Words and what is wanted of them. `~` stands for an empty word.
type Row = (&'static str, Wanted);

const UNKNOWN: Wanted = Wanted::Refused(ErrorKind::UnknownArgument);

const CONFLICT: Wanted = Wanted::Refused(ErrorKind::ArgumentConflict);

const NO_VALUE: Wanted = Wanted::Refused(ErrorKind::InvalidValue);

const MISSING: Wanted = Wanted::Refused(ErrorKind::MissingRequiredArgument);

const CASES_16: Wanted = Wanted::Number(NumberWord::Cases, 16);

/// What `clap` makes of words: the forms of options, and each kind of refusal.
static FORMS: [Row; 34] = [
    ("prove a m s f", Wanted::Class("a")),
    ("prove a m s f --cases=16", CASES_16),
    ("prove --cases 16 a m s f", CASES_16),
    ("prove a m --cases 16 s f", CASES_16),
    ("prove a m s f --cases 16 --cases 17", CONFLICT),
    ("prove -- a m s f", Wanted::Class("a")),
    ("prove --cases 16 a m s -- --cases", CASES_16),
    ("prove -- --out m s f", Wanted::Class("--out")),
    ("prove a -m s f", UNKNOWN),
    ("prove a m s f -5", UNKNOWN),
    ("prove a m s f --help", UNKNOWN),
    ("prove a m s f -h", UNKNOWN),
    ("prove a m s f --version", UNKNOWN),
    ("prove a m s f -", UNKNOWN),
    ("prove a m s f g", UNKNOWN),
    ("prove a m s f --case 3", UNKNOWN),
    ("prove a m s f --Cases 3", UNKNOWN),
    ("prove - m s f", Wanted::Class("-")),
    ("prove a m s f --cases -5", UNKNOWN),
    ("prove a m s f --cases --sizes", NO_VALUE),
    ("prove a m s f --cases --case", UNKNOWN),
    (
        "prove a m s f --cases=-5",
        Wanted::BadNumber(NumberWord::Cases),
    ),
    ("prove a m s f --cases", NO_VALUE),
    ("prove a m s f --cases --", NO_VALUE),
    (
        "prove a m s f --cases=",
        Wanted::BadNumber(NumberWord::Cases),
    ),
    (
        "prove a m s f --cases ~",
        Wanted::BadNumber(NumberWord::Cases),
    ),
    ("prove ~ m s f", Wanted::Class("")),
    ("prove a", MISSING),
    ("prove a m s", MISSING),
    ("prove", MISSING),
    ("prove a m s f --desc (I)I", Wanted::Desc("(I)I")),
    ("prove a m s f --desc=", Wanted::Desc("")),
    ("trial 1", Wanted::Unknown("trial")),
    ("~", Wanted::Unknown("")),
];

/// Each option at its least and its greatest, and just outside of them.
static RANGES: [Row; 50] = [
    (
        "prove a m s f --steps 1",
        Wanted::Number(NumberWord::Steps, 1),
    ),
    (
        "prove a m s f --steps 2000000",
        Wanted::Number(NumberWord::Steps, 2_000_000),
    ),
    (
        "prove a m s f --steps 0",
        Wanted::BadNumber(NumberWord::Steps),
    ),
    (
        "prove a m s f --steps 2000001",
        Wanted::BadNumber(NumberWord::Steps),
    ),
    (
        "prove a m s f --paths 1",
        Wanted::Number(NumberWord::Paths, 1),
    ),
    (
        "prove a m s f --paths 1024",
        Wanted::Number(NumberWord::Paths, 1_024),
    ),
    (
        "prove a m s f --paths 0",
        Wanted::BadNumber(NumberWord::Paths),
    ),
    (
        "prove a m s f --paths 1025",
        Wanted::BadNumber(NumberWord::Paths),
    ),
    (
        "prove a m s f --frames 1",
        Wanted::Number(NumberWord::Frames, 1),
    ),
    (
        "prove a m s f --frames 256",
        Wanted::Number(NumberWord::Frames, 256),
    ),
    (
        "prove a m s f --frames 0",
        Wanted::BadNumber(NumberWord::Frames),
    ),
    (
        "prove a m s f --frames 257",
        Wanted::BadNumber(NumberWord::Frames),
    ),
    (
        "prove a m s f --elements 1",
        Wanted::Number(NumberWord::Elements, 1),
    ),
    (
        "prove a m s f --elements 262144",
        Wanted::Number(NumberWord::Elements, 262_144),
    ),
    (
        "prove a m s f --elements 0",
        Wanted::BadNumber(NumberWord::Elements),
    ),
    (
        "prove a m s f --elements 262145",
        Wanted::BadNumber(NumberWord::Elements),
    ),
    (
        "prove a m s f --depth 1",
        Wanted::Number(NumberWord::Depth, 1),
    ),
    (
        "prove a m s f --depth 2000",
        Wanted::Number(NumberWord::Depth, 2_000),
    ),
    (
        "prove a m s f --depth 0",
        Wanted::BadNumber(NumberWord::Depth),
    ),
    (
        "prove a m s f --depth 2001",
        Wanted::BadNumber(NumberWord::Depth),
    ),
    (
        "prove a m s f --work 1",
        Wanted::Number(NumberWord::Work, 1),
    ),
    (
        "prove a m s f --work 5000000",
        Wanted::Number(NumberWord::Work, 5_000_000),
    ),
    (
        "prove a m s f --work 0",
        Wanted::BadNumber(NumberWord::Work),
    ),
    (
        "prove a m s f --work 5000001",
        Wanted::BadNumber(NumberWord::Work),
    ),
    (
        "prove a m s f --nodes 1",
        Wanted::Number(NumberWord::Nodes, 1),
    ),
    (
        "prove a m s f --nodes 2000000",
        Wanted::Number(NumberWord::Nodes, 2_000_000),
    ),
    (
        "prove a m s f --nodes 0",
        Wanted::BadNumber(NumberWord::Nodes),
    ),
    (
        "prove a m s f --nodes 2000001",
        Wanted::BadNumber(NumberWord::Nodes),
    ),
    (
        "prove a m s f --lines 1",
        Wanted::Number(NumberWord::Lines, 1),
    ),
    (
        "prove a m s f --lines 1000000",
        Wanted::Number(NumberWord::Lines, 1_000_000),
    ),
    (
        "prove a m s f --lines 0",
        Wanted::BadNumber(NumberWord::Lines),
    ),
    (
        "prove a m s f --lines 1000001",
        Wanted::BadNumber(NumberWord::Lines),
    ),
    (
        "prove a m s f --total 1",
        Wanted::Number(NumberWord::Total, 1),
    ),
    (
        "prove a m s f --total 100000000",
        Wanted::Number(NumberWord::Total, 100_000_000),
    ),
    (
        "prove a m s f --total 0",
        Wanted::BadNumber(NumberWord::Total),
    ),
    (
        "prove a m s f --total 100000001",
        Wanted::BadNumber(NumberWord::Total),
    ),
    (
        "prove a m s f --cases 0",
        Wanted::Number(NumberWord::Cases, 0),
    ),
    (
        "prove a m s f --cases 20",
        Wanted::Number(NumberWord::Cases, 20),
    ),
    (
        "prove a m s f --cases 21",
        Wanted::BadNumber(NumberWord::Cases),
    ),
    (
        "prove a m s f --vectors 1",
        Wanted::Number(NumberWord::Vectors, 1),
    ),
    (
        "prove a m s f --vectors 256",
        Wanted::Number(NumberWord::Vectors, 256),
    ),
    (
        "prove a m s f --vectors 0",
        Wanted::BadNumber(NumberWord::Vectors),
    ),
    (
        "prove a m s f --vectors 257",
        Wanted::BadNumber(NumberWord::Vectors),
    ),
    (
        "prove a m s f --workers 1",
        Wanted::Number(NumberWord::Workers, 1),
    ),
    (
        "prove a m s f --workers 16",
        Wanted::Number(NumberWord::Workers, 16),
    ),
    (
        "prove a m s f --workers 0",
        Wanted::BadNumber(NumberWord::Workers),
    ),
    (
        "prove a m s f --workers 17",
        Wanted::BadNumber(NumberWord::Workers),
    ),
    (
        "prove a m s f --seed 0",
        Wanted::Number(NumberWord::Seed, 0),
    ),
    (
        "prove a m s f --seed 18446744073709551615",
        Wanted::Number(NumberWord::Seed, 18_446_744_073_709_551_615),
    ),
    (
        "prove a m s f --seed 18446744073709551616",
        Wanted::BadNumber(NumberWord::Seed),
    ),
];

/// Numbers, sizes and places, and which refusal comes first where several hold.
static VALUES: [Row; 39] = [
    (
        "prove a m s f --steps 000000000000000000000005",
        Wanted::Number(NumberWord::Steps, 5),
    ),
    (
        "prove a m s f --seed 00000000000000000000018446744073709551615",
        Wanted::Number(NumberWord::Seed, u64::MAX),
    ),
    (
        "prove a m s f --seed 99999999999999999999",
        Wanted::BadNumber(NumberWord::Seed),
    ),
    (
        "prove a m s f --seed 10000000000000000000",
        Wanted::Number(NumberWord::Seed, 10_000_000_000_000_000_000),
    ),
    (
        "prove a m s f --cases +5",
        Wanted::BadNumber(NumberWord::Cases),
    ),
    (
        "prove a m s f --cases 5x",
        Wanted::BadNumber(NumberWord::Cases),
    ),
    (
        "prove a m s f --cases 0x5",
        Wanted::BadNumber(NumberWord::Cases),
    ),
    (
        "prove a m s f --cases ٥",
        Wanted::BadNumber(NumberWord::Cases),
    ),
    (
        "prove a m s f --seed x --paths 0 --steps 0",
        Wanted::BadNumber(NumberWord::Steps),
    ),
    (
        "prove a m s f --seed x --workers 0",
        Wanted::BadNumber(NumberWord::Workers),
    ),
    (
        "prove a m s f --out x --sizes x --seed x",
        Wanted::BadNumber(NumberWord::Seed),
    ),
    ("prove a m s f --out x --sizes x", Wanted::BadSizes(0)),
    ("prove a m s f --steps 0 --x", UNKNOWN),
    ("prove a m s f --steps 0 --steps 1", CONFLICT),
    ("prove a m s f --sizes 1,2,3", Wanted::Sizes(3, 3)),
    ("prove a m s f --sizes 0", Wanted::Sizes(1, 0)),
    ("prove a m s f --sizes=", Wanted::BadSizes(0)),
    ("prove a m s f --sizes ,1", Wanted::BadSizes(0)),
    ("prove a m s f --sizes 1,", Wanted::BadSizes(1)),
    ("prove a m s f --sizes 1,,2", Wanted::BadSizes(1)),
    ("prove a m s f --sizes 4096", Wanted::Sizes(1, 4_096)),
    ("prove a m s f --sizes 4097", Wanted::BadSizes(0)),
    ("prove a m s f --sizes 1,2,+3", Wanted::BadSizes(2)),
    ("prove a m s f --sizes 0004,0", Wanted::Sizes(2, 0)),
    (
        "prove a m s f --sizes 4096,4096,4096,4096",
        Wanted::Sizes(4, 4_096),
    ),
    (
        "prove a m s f --sizes 4096,4096,4096,4096,0",
        Wanted::Sizes(5, 0),
    ),
    (
        "prove a m s f --sizes 4096,4096,4096,4096,1",
        Wanted::BadSizes(4),
    ),
    (
        "prove a m s f --sizes 4096,4096,4096,4000,97,1",
        Wanted::BadSizes(4),
    ),
    (
        "prove a m s f --sizes 99999999999999999999",
        Wanted::BadSizes(0),
    ),
    (
        "prove a m s f --out return",
        Wanted::Out(OutPlace::Returned),
    ),
    ("prove a m s f --out 0", Wanted::Out(OutPlace::Param(0))),
    ("prove a m s f --out 007", Wanted::Out(OutPlace::Param(7))),
    (
        "prove a m s f --out 65535",
        Wanted::Out(OutPlace::Param(65_535)),
    ),
    ("prove a m s f --out 65536", Wanted::BadOut),
    ("prove a m s f --out=-1", Wanted::BadOut),
    ("prove a m s f --out -1", UNKNOWN),
    ("prove a m s f --out=", Wanted::BadOut),
    ("prove a m s f --out Return", Wanted::BadOut),
    ("prove a m s f --out returns", Wanted::BadOut),
];

/// The words of a line, which are parted by spaces.
fn words_of(alloc: Global, line: &str) -> Result<Vec<String>, AllocError> {
    let mut words = Vec::new(alloc);
    for word in line.split_whitespace() {
        let text = if word == "~" { "" } else { word };
        words.push(String::from_str(alloc, text)?)?;
    }
    Ok(words)
}

/// The number of an option.
fn number_of(budgets: &Budgets, option: NumberWord) -> u64 {
    match option {
        NumberWord::Steps => budgets.steps,
        NumberWord::Paths => budgets.paths as u64,
        NumberWord::Frames => budgets.frames as u64,
        NumberWord::Elements => budgets.elements,
        NumberWord::Depth => budgets.depth as u64,
        NumberWord::Work => budgets.work,
        NumberWord::Nodes => budgets.nodes as u64,
        NumberWord::Lines => budgets.lines,
        NumberWord::Total => budgets.total,
        NumberWord::Cases => budgets.cases as u64,
        NumberWord::Vectors => budgets.vectors as u64,
        NumberWord::Workers => budgets.workers as u64,
        NumberWord::Seed => budgets.seed,
    }
}

/// Whether a job is the one that is wanted.
fn is_job(job: &Job, wanted: Wanted) -> bool {
    let Job::Prove {
        class,
        method,
        spec,
        function,
        desc,
        sizes,
        out,
        budgets,
    } = job;
    match wanted {
        Wanted::Number(option, number) => number_of(budgets, option) == number,
        Wanted::Sizes(count, last) => {
            sizes.len() == count && sizes.last().copied() == Some(last)
        }
        Wanted::Out(place) => *out == place,
        Wanted::Desc(text) => match desc {
            Some(desc) => desc.as_str() == text,
            None => false,
        },
        Wanted::Class(text) => {
            class.as_str() == text
                && method.as_str() == "m"
                && spec.as_str() == "s"
                && function.as_str() == "f"
                && desc.is_none()
                && sizes.is_empty()
                && *out == OutPlace::Returned
                && *budgets == Budgets::defaults()
        }
        _ => false,
    }
}

/// Whether a refusal is the one that is wanted.
fn is_refusal(error: &WordsError, wanted: Wanted) -> bool {
    match (error, wanted) {
        (WordsError::Unknown { word }, Wanted::Unknown(text)) => word.as_str() == text,
        (WordsError::Refused { kind }, Wanted::Refused(other)) => *kind == other,
        (WordsError::BadNumber { option }, Wanted::BadNumber(other)) => *option == other,
        (WordsError::BadSizes { at }, Wanted::BadSizes(place)) => *at == place,
        (WordsError::BadOut, Wanted::BadOut) => true,
        _ => false,
    }
}

/// Reads each line, and compares its answer.
fn compare(rt: &impl Abort, alloc: Global, rows: &[Row]) -> Result<(), AllocError> {
    for (line, wanted) in rows {
        let words = words_of(alloc, line)?;
        let is_wanted = match read_words(alloc, words.as_slice()) {
            Ok(job) => is_job(&job, *wanted),
            Err(error) => is_refusal(&error, *wanted),
        };
        assert!(rt; is_wanted, "{line}");
    }
    Ok(())
}

#[test]
fn forms_of_words(rt: HostRuntime) -> Result<(), Fail> {
    compare(&rt, rt.alloc(), FORMS.as_slice())?;
    Ok(())
}

#[test]
fn ranges_of_numbers(rt: HostRuntime) -> Result<(), Fail> {
    compare(&rt, rt.alloc(), RANGES.as_slice())?;
    Ok(())
}

#[test]
fn values_and_their_order(rt: HostRuntime) -> Result<(), Fail> {
    compare(&rt, rt.alloc(), VALUES.as_slice())?;
    Ok(())
}

#[test]
fn no_words_and_bad_sizes(rt: HostRuntime) -> Result<(), Fail> {
    let none = words_of(rt.alloc(), "")?;
    let Err(error) = read_words(rt.alloc(), none.as_slice()) else {
        panic!(rt; "no words make a job")
    };
    assert!(rt; is_refusal(&error, Wanted::Unknown("")));
    let sizes = words_of(rt.alloc(), "prove a m s f --sizes 4097")?;
    let Err(error) = read_words(rt.alloc(), sizes.as_slice()) else {
        panic!(rt; "4097 is a size")
    };
    assert!(rt; is_refusal(&error, Wanted::BadSizes(0)));
    Ok(())
}
