//! Listings, line by line: every code and layer, every refusal, and every kind of bad line.
use super::*;
use listings::listing::Listing;
use listings::partial::PartialLine;

/// A line, and the line that answers it, without its line feed.
type Row = (&'static str, &'static str);

const G23: [Row; 14] = [
    ("W ae3", "OK 0 1 0"),
    ("W f", "OK 1 402 201200"),
    ("R 1 0", "NO 6"),
    ("R 2 0", "NO 6"),
    ("R 999 0", "NO 6"),
    ("W 800000", "NO 2"),
    ("R 7 800000", "NO 2"),
    ("W fffffffffff", "NO 2"),
    ("W 7fffff", "OK 2 fff 0"),
    ("W 00000000ae3", "OK 3 1 0"),
    ("C", "CLEAR"),
    ("C", "CLEAR"),
    ("R 0 0", "NO 6"),
    ("W 7", "OK 0 0 7"),
];

const Q31: [Row; 9] = [
    ("W f", "GAP 0"),
    ("W 40006308", "OK 1 1 40008001"),
    ("W f", "GAP 2"),
    ("R 2 f", "GAP 2"),
    ("R 002 40006308", "OK 2 1 40008001"),
    ("R 2 0", "NO 6"),
    ("R 0 0", "OK 0 0 0"),
    ("W 80000000", "NO 2"),
    ("W 7fffffff", "OK 3 ffff 0"),
];

const Q41: [Row; 9] = [
    ("W 1b4e54", "OK 0 1 f"),
    ("W 700001", "OK 1 0 700001"),
    ("W 1f", "OK 2 112 11220000"),
    ("W 20000000000", "NO 2"),
    ("W 3f", "GAP 3"),
    ("R 3 ff", "GAP 3"),
    ("R 3 1b4e5b", "OK 3 1 0"),
    ("R 3 0", "NO 6"),
    ("W 1ffffffffff", "OK 4 1fffff 0"),
];

const G23_PARITY: [Row; 5] = [
    ("W 1e", "GAP 0"),
    ("W 1f", "OK 1 402 402400"),
    ("W 15c7", "OK 2 1 0"),
    ("R 0 15c6", "OK 0 1 1"),
    ("W 1000000", "NO 2"),
];

const Q31_PARITY: [Row; 9] = [
    ("W 1c613", "OK 0 1 0"),
    ("W 100000000", "NO 2"),
    ("C", "CLEAR"),
    ("W f", "GAP 0"),
    ("W 1c612", "OK 1 1 1"),
    ("R 0 1c613", "OK 0 1 0"),
    ("R 0 0", "NO 6"),
    ("W 7", "OK 2 0 7"),
    ("W ffffffff", "OK 3 ffff 0"),
];

const Q41_PARITY: [Row; 9] = [
    ("W 369cb7", "OK 0 1 0"),
    ("W 40000000000", "NO 2"),
    ("C", "CLEAR"),
    ("W 3e", "GAP 0"),
    ("W 369cb6", "OK 1 1 1"),
    ("R 0 369cb7", "OK 0 1 0"),
    ("R 0 0", "NO 6"),
    ("W 1e", "OK 2 0 1e"),
    ("W 3ffffffffff", "OK 3 1fffff 0"),
];

/// Lines that stand for no command.
const BAD: [&str; 40] = [
    "",
    " ",
    "W",
    "W ",
    "W  1",
    " W 1",
    "W 1 ",
    "W 1 1",
    "W A",
    "W g",
    "W 0x1",
    "W +1",
    "W -1",
    "W 123456789012",
    "W 000000000000",
    "W 1\r",
    "W\t1",
    "W1",
    "w 1",
    "X",
    "C ",
    "CC",
    "c",
    "R",
    "R 1",
    "R 1 ",
    "R  1 0",
    "R 1  0",
    "R 0001 0",
    "R a 0",
    "R 1 0 ",
    "R 1 G",
    "\0",
    "R 1 123456789012",
    "R 1 0 0",
    "R -1 0",
    "R 1\t0",
    "W 1\n",
    "C\n",
    "W 1\0",
];

/// First lines that name no code.
const BAD_HEADINGS: [&str; 16] = [
    "", "G2", "G233", "G23 ", " G23", "g23", "G23+", "G23+p", "G23+P+P", "+P", "Q42", "G23\r",
    "G23 +P", "G23+P\r", "G23-P", "G23\n",
];

/// The answer to a line, with its line feed, and the rest of the buffer as it was.
fn says(listing: &mut Listing, line: &[u8], answer: &str) -> Result<(), Fail> {
    let mut buffer = [b'#'; 40];
    let count = listing.line(line, &mut buffer)?;
    check_eq((1..=40).contains(&count), true)?;
    check_eq(&buffer[0..count - 1], answer.as_bytes())?;
    check_eq(buffer[count - 1], b'\n')?;
    // a check for each byte
    for byte in &buffer[count..] {
        check_eq(*byte, b'#')?;
    }
    Ok(())
}

fn dialogue(heading: &str, rows: &[Row]) -> Result<(), Fail> {
    let mut listing = Listing::open(heading.as_bytes())?;
    for (line, answer) in rows {
        says(&mut listing, line.as_bytes(), answer)?;
    }
    Ok(())
}

#[test]
fn codes_and_layers(rt: HostRuntime) -> Result<(), Fail> {
    dialogue("G23", &G23)?;
    dialogue("Q31", &Q31)?;
    dialogue("Q41", &Q41)?;
    dialogue("G23+P", &G23_PARITY)?;
    dialogue("Q31+P", &Q31_PARITY)?;
    dialogue("Q41+P", &Q41_PARITY)
}

#[test]
fn bad_lines(rt: HostRuntime) -> Result<(), Fail> {
    let mut listing = Listing::open(b"G23")?;
    for line in BAD {
        says(&mut listing, line.as_bytes(), "NO 13")?;
    }
    says(&mut listing, b"W \xff", "NO 13")?;
    says(&mut listing, b"W 0", "OK 0 0 0")
}

#[test]
fn bad_headings(rt: HostRuntime) {
    for line in BAD_HEADINGS {
        let refused = Listing::open(line.as_bytes()).err();
        assert_eq!(rt; refused, Some(at(Cause::BadLine, 0)));
    }
}

fn hears(listing: &mut Listing, line: &[u8]) -> Result<(), Fail> {
    let mut buffer = [0; 32];
    let _ = listing.line(line, &mut buffer)?;
    Ok(())
}

/// 256 places, and one more.
#[test]
fn full_listing(rt: HostRuntime) -> Result<(), Fail> {
    let mut listing = Listing::open(b"G23")?;
    for _ in 0..255 {
        hears(&mut listing, b"W ae3")?;
    }
    says(&mut listing, b"W ae3", "OK 255 1 0")?;
    says(&mut listing, b"W ae3", "NO 5")?;
    says(&mut listing, b"R 256 0", "NO 6")?;
    says(&mut listing, b"C", "CLEAR")?;
    says(&mut listing, b"W ae3", "OK 0 1 0")
}

/// A buffer of 31 bytes is refused before the line is looked at, and nothing is heard.
#[test]
fn short_buffer(rt: HostRuntime) -> Result<(), Fail> {
    let mut listing = Listing::open(b"G23")?;
    let mut buffer = [b'#'; 31];
    let short = Fault {
        layer: Layer::Table,
        ..Fault::new(Cause::TooShort)
    };
    assert_eq!(rt; listing.line(b"W ae3", &mut buffer), Err(short));
    assert_eq!(rt; listing.line(b"?", &mut buffer), Err(short));
    assert!(rt; buffer == [b'#'; 31]);
    says(&mut listing, b"W ae3", "OK 0 1 0")
}

/// Of a long line only the front is kept, which is bad as the line is.
#[test]
fn long_line(rt: HostRuntime) -> Result<(), Fail> {
    let mut line = PartialLine::new();
    assert!(rt; line.is_empty());
    for byte in b"W 000000000000000001".iter() {
        line.push(*byte);
    }
    assert!(rt; line.line() == b"W 0000000000000000".as_slice());
    let mut listing = Listing::open(b"Q41")?;
    says(&mut listing, line.line(), "NO 13")
}
