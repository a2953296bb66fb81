//! Records: a table cut at every place, and spoiled in every field.
use super::*;
use records::layout::Kind;
use records::lookup::time_of;
use records::reader::Reader;

/// A record of kind 9, travel times of two floors (4.1 s and 6.3 s), and the door time of one (5.5 s).
const TABLE: [u8; 19] = [1, 0, 9, 0, 7, 4, 0, 1, 0, 41, 0, 63, 0, 2, 0, 2, 0, 55, 0];

/// What a lookup answers: a time, that it is absent, or the place of the record that it refuses.
type Time = Result<Option<u16>, usize>;

/// The first `size` bytes of the table, with one byte replaced: how many records are read, the sum of the bytes of their
/// payloads, where the reader is refused, the travel times to floors 0 and 1, and the door time of floor 0.
#[derive(Clone, Copy)]
struct Row {
    size: usize,
    at: usize,
    byte: u8,
    records: usize,
    sum: u32,
    fault: Option<usize>,
    lowest: Time,
    travel: Time,
    door: Time,
}

const ROWS: [Row; 44] = [
    // cut at every place; the byte at 0 is as it was
    Row {
        size: 0,
        at: 0,
        byte: 1,
        records: 0,
        sum: 0,
        fault: None,
        lowest: Ok(None),
        travel: Ok(None),
        door: Ok(None),
    },
    Row {
        size: 1,
        at: 0,
        byte: 1,
        records: 0,
        sum: 0,
        fault: Some(0),
        lowest: Err(0),
        travel: Err(0),
        door: Err(0),
    },
    Row {
        size: 2,
        at: 0,
        byte: 1,
        records: 0,
        sum: 0,
        fault: Some(0),
        lowest: Err(0),
        travel: Err(0),
        door: Err(0),
    },
    Row {
        size: 3,
        at: 0,
        byte: 1,
        records: 0,
        sum: 0,
        fault: Some(0),
        lowest: Err(0),
        travel: Err(0),
        door: Err(0),
    },
    Row {
        size: 4,
        at: 0,
        byte: 1,
        records: 0,
        sum: 0,
        fault: Some(0),
        lowest: Err(0),
        travel: Err(0),
        door: Err(0),
    },
    Row {
        size: 5,
        at: 0,
        byte: 1,
        records: 1,
        sum: 7,
        fault: None,
        lowest: Ok(None),
        travel: Ok(None),
        door: Ok(None),
    },
    Row {
        size: 6,
        at: 0,
        byte: 1,
        records: 1,
        sum: 7,
        fault: Some(5),
        lowest: Err(5),
        travel: Err(5),
        door: Err(5),
    },
    Row {
        size: 7,
        at: 0,
        byte: 1,
        records: 1,
        sum: 7,
        fault: Some(5),
        lowest: Err(5),
        travel: Err(5),
        door: Err(5),
    },
    Row {
        size: 8,
        at: 0,
        byte: 1,
        records: 1,
        sum: 7,
        fault: Some(5),
        lowest: Err(5),
        travel: Err(5),
        door: Err(5),
    },
    Row {
        size: 9,
        at: 0,
        byte: 1,
        records: 1,
        sum: 7,
        fault: Some(5),
        lowest: Err(5),
        travel: Err(5),
        door: Err(5),
    },
    Row {
        size: 10,
        at: 0,
        byte: 1,
        records: 1,
        sum: 7,
        fault: Some(5),
        lowest: Err(5),
        travel: Err(5),
        door: Err(5),
    },
    Row {
        size: 11,
        at: 0,
        byte: 1,
        records: 1,
        sum: 7,
        fault: Some(5),
        lowest: Err(5),
        travel: Err(5),
        door: Err(5),
    },
    Row {
        size: 12,
        at: 0,
        byte: 1,
        records: 1,
        sum: 7,
        fault: Some(5),
        lowest: Err(5),
        travel: Err(5),
        door: Err(5),
    },
    Row {
        size: 13,
        at: 0,
        byte: 1,
        records: 2,
        sum: 111,
        fault: None,
        lowest: Ok(Some(41)),
        travel: Ok(Some(63)),
        door: Ok(None),
    },
    Row {
        size: 14,
        at: 0,
        byte: 1,
        records: 2,
        sum: 111,
        fault: Some(13),
        lowest: Ok(Some(41)),
        travel: Ok(Some(63)),
        door: Err(13),
    },
    Row {
        size: 15,
        at: 0,
        byte: 1,
        records: 2,
        sum: 111,
        fault: Some(13),
        lowest: Ok(Some(41)),
        travel: Ok(Some(63)),
        door: Err(13),
    },
    Row {
        size: 16,
        at: 0,
        byte: 1,
        records: 2,
        sum: 111,
        fault: Some(13),
        lowest: Ok(Some(41)),
        travel: Ok(Some(63)),
        door: Err(13),
    },
    Row {
        size: 17,
        at: 0,
        byte: 1,
        records: 2,
        sum: 111,
        fault: Some(13),
        lowest: Ok(Some(41)),
        travel: Ok(Some(63)),
        door: Err(13),
    },
    Row {
        size: 18,
        at: 0,
        byte: 1,
        records: 2,
        sum: 111,
        fault: Some(13),
        lowest: Ok(Some(41)),
        travel: Ok(Some(63)),
        door: Err(13),
    },
    Row {
        size: 19,
        at: 0,
        byte: 1,
        records: 3,
        sum: 166,
        fault: None,
        lowest: Ok(Some(41)),
        travel: Ok(Some(63)),
        door: Ok(Some(55)),
    },
    // the first record: its length, its kind, its payload
    Row {
        size: 19,
        at: 0,
        byte: 0,
        records: 1,
        sum: 0,
        fault: Some(4),
        lowest: Err(4),
        travel: Err(4),
        door: Err(4),
    },
    Row {
        size: 19,
        at: 1,
        byte: 1,
        records: 0,
        sum: 0,
        fault: Some(0),
        lowest: Err(0),
        travel: Err(0),
        door: Err(0),
    },
    Row {
        size: 19,
        at: 2,
        byte: 1,
        records: 0,
        sum: 0,
        fault: Some(0),
        lowest: Err(0),
        travel: Err(0),
        door: Err(0),
    },
    Row {
        size: 19,
        at: 2,
        byte: 2,
        records: 0,
        sum: 0,
        fault: Some(0),
        lowest: Err(0),
        travel: Err(0),
        door: Err(0),
    },
    Row {
        size: 19,
        at: 3,
        byte: 1,
        records: 3,
        sum: 166,
        fault: None,
        lowest: Ok(Some(41)),
        travel: Ok(Some(63)),
        door: Ok(Some(55)),
    },
    Row {
        size: 19,
        at: 4,
        byte: 8,
        records: 3,
        sum: 167,
        fault: None,
        lowest: Ok(Some(41)),
        travel: Ok(Some(63)),
        door: Ok(Some(55)),
    },
    // the travel record: its length, its kind, its entries
    Row {
        size: 19,
        at: 5,
        byte: 2,
        records: 2,
        sum: 48,
        fault: Some(11),
        lowest: Ok(Some(41)),
        travel: Ok(None),
        door: Err(11),
    },
    Row {
        size: 19,
        at: 5,
        byte: 3,
        records: 1,
        sum: 7,
        fault: Some(5),
        lowest: Err(5),
        travel: Err(5),
        door: Err(5),
    },
    Row {
        size: 19,
        at: 6,
        byte: 1,
        records: 1,
        sum: 7,
        fault: Some(5),
        lowest: Err(5),
        travel: Err(5),
        door: Err(5),
    },
    Row {
        size: 19,
        at: 7,
        byte: 2,
        records: 3,
        sum: 166,
        fault: None,
        lowest: Ok(None),
        travel: Ok(None),
        door: Ok(Some(41)),
    },
    Row {
        size: 19,
        at: 7,
        byte: 3,
        records: 3,
        sum: 166,
        fault: None,
        lowest: Ok(None),
        travel: Ok(None),
        door: Ok(Some(55)),
    },
    Row {
        size: 19,
        at: 8,
        byte: 1,
        records: 3,
        sum: 166,
        fault: None,
        lowest: Ok(None),
        travel: Ok(None),
        door: Ok(Some(55)),
    },
    Row {
        size: 19,
        at: 9,
        byte: 42,
        records: 3,
        sum: 167,
        fault: None,
        lowest: Ok(Some(42)),
        travel: Ok(Some(63)),
        door: Ok(Some(55)),
    },
    Row {
        size: 19,
        at: 10,
        byte: 1,
        records: 3,
        sum: 167,
        fault: None,
        lowest: Ok(Some(297)),
        travel: Ok(Some(63)),
        door: Ok(Some(55)),
    },
    Row {
        size: 19,
        at: 11,
        byte: 64,
        records: 3,
        sum: 167,
        fault: None,
        lowest: Ok(Some(41)),
        travel: Ok(Some(64)),
        door: Ok(Some(55)),
    },
    Row {
        size: 19,
        at: 12,
        byte: 1,
        records: 3,
        sum: 167,
        fault: None,
        lowest: Ok(Some(41)),
        travel: Ok(Some(319)),
        door: Ok(Some(55)),
    },
    // the door record: its length, its kind, its entry
    Row {
        size: 19,
        at: 13,
        byte: 0,
        records: 3,
        sum: 111,
        fault: Some(17),
        lowest: Ok(Some(41)),
        travel: Ok(Some(63)),
        door: Ok(None),
    },
    Row {
        size: 19,
        at: 13,
        byte: 1,
        records: 2,
        sum: 111,
        fault: Some(13),
        lowest: Ok(Some(41)),
        travel: Ok(Some(63)),
        door: Err(13),
    },
    Row {
        size: 19,
        at: 13,
        byte: 3,
        records: 2,
        sum: 111,
        fault: Some(13),
        lowest: Ok(Some(41)),
        travel: Ok(Some(63)),
        door: Err(13),
    },
    Row {
        size: 19,
        at: 14,
        byte: 1,
        records: 2,
        sum: 111,
        fault: Some(13),
        lowest: Ok(Some(41)),
        travel: Ok(Some(63)),
        door: Err(13),
    },
    Row {
        size: 19,
        at: 15,
        byte: 1,
        records: 3,
        sum: 166,
        fault: None,
        lowest: Ok(Some(41)),
        travel: Ok(Some(63)),
        door: Ok(None),
    },
    Row {
        size: 19,
        at: 16,
        byte: 1,
        records: 3,
        sum: 166,
        fault: None,
        lowest: Ok(Some(41)),
        travel: Ok(Some(63)),
        door: Ok(None),
    },
    Row {
        size: 19,
        at: 17,
        byte: 56,
        records: 3,
        sum: 167,
        fault: None,
        lowest: Ok(Some(41)),
        travel: Ok(Some(63)),
        door: Ok(Some(56)),
    },
    Row {
        size: 19,
        at: 18,
        byte: 1,
        records: 3,
        sum: 167,
        fault: None,
        lowest: Ok(Some(41)),
        travel: Ok(Some(63)),
        door: Ok(Some(311)),
    },
];

/// Reads to the end or to a refusal: how many records came before it, and the sum of the bytes of their payloads.
fn read_all(bytes: &[u8]) -> (usize, u32, Option<Fault>) {
    // A reader is no iterator, and refuses without end: the loop is bounded by the bytes, of which a record takes four.
    let mut reader = Reader::new(bytes);
    let mut sum: u32 = 0;
    for count in 0..=bytes.len() {
        match reader.next() {
            Ok(Some(record)) => sum = record
                .payload
                .iter()
                .fold(sum, |sum, byte| sum.wrapping_add(u32::from(*byte))),
            Ok(None) => return (count, sum, None),
            // Asked once more, it is to refuse alike.
            Err(fault) => return (
                count,
                sum,
                reader.next().err().filter(|again| *again == fault),
            ),
        }
    }
    (0, 0, None)
}

/// The answer of a lookup.
fn answer(time: Time) -> Result<Option<u16>, Fault> {
    time.map_err(|place| at(Cause::BadRecord, place))
}

fn row_holds(row: Row) -> Result<(), Fail> {
    let mut bytes = TABLE;
    *bytes.get_mut(row.at).ok_or("no byte there")? = row.byte;
    let table = bytes.get(..row.size).ok_or("no table so long")?;
    let (count, sum, refused) = read_all(table);
    check_eq(count, row.records)?;
    check_eq(sum, row.sum)?;
    check_eq(refused, row.fault.map(|place| at(Cause::BadRecord, place)))?;
    check_eq(time_of(table, Kind::Travel, 0), answer(row.lowest))?;
    check_eq(time_of(table, Kind::Travel, 1), answer(row.travel))?;
    check_eq(time_of(table, Kind::Door, 0), answer(row.door))
}

#[test]
fn cut_and_spoiled() -> Result<(), Fail> {
    for row in ROWS {
        row_holds(row)?;
    }
    Ok(())
}

/// Kind, place and payload, the same refusal twice, nothing twice behind the last record, and floors past the last entry.
#[test]
fn handed_out(rt: HostRuntime) -> Result<(), Fail> {
    let mut reader = Reader::new(&TABLE[0..18]);
    let first = reader.next()?.ok_or("no record")?;
    assert_eq!(rt; first.kind, Kind::Other(9));
    assert_eq!(rt; first.place, 0);
    assert!(rt; first.payload == [7].as_slice());
    let second = reader.next()?.ok_or("no record")?;
    assert_eq!(rt; second.kind, Kind::Travel);
    assert_eq!(rt; second.place, 5);
    assert!(rt; second.payload == [41, 0, 63, 0].as_slice());
    assert!(rt; reader.next().err() == Some(at(Cause::BadRecord, 13)));
    assert!(rt; reader.next().err() == Some(at(Cause::BadRecord, 13)));
    let mut whole = Reader::new(&TABLE);
    assert!(rt; whole.next()?.is_some());
    assert!(rt; whole.next()?.is_some());
    let third = whole.next()?.ok_or("no record")?;
    assert_eq!(rt; third.kind, Kind::Door);
    assert_eq!(rt; third.place, 13);
    assert!(rt; third.payload == [55, 0].as_slice());
    assert!(rt; whole.next()?.is_none());
    assert!(rt; whole.next()?.is_none());
    assert_eq!(rt; time_of(&TABLE, Kind::Travel, 2), Ok(None));
    assert_eq!(rt; time_of(&TABLE, Kind::Travel, u32::MAX), Ok(None));
    assert_eq!(rt; time_of(&TABLE, Kind::Door, 1), Ok(None));
    Ok(())
}
