use crate::reader::{check as checked, next};
use crate::record::{ReadFault, Record};
use std::test::Fail;

// One record of each kind, in the order of the kinds: the site's three, and the day's four.
const SITE: &[u8; 9] = b"\x01\x03\x02\x01\x02\x03\x02\x01\x04";

const DAY: &[u8; 19] =
    b"\x04\x09\x34\x12\x00\x00\x05\x78\x56\x34\x12\x06\x01\x00\x00\x00\x07\x10\x27";

#[test]
fn reads_the_site(rt: HostRuntime) -> Result<(), Fail> {
    let (record, rest) = next(SITE)?;
    assert_eq!(rt; record, Record::Nodes { count: 3 });
    let (record, rest) = next(rest)?;
    assert_eq!(rt; record, Record::Edge { from: 1, to: 2 });
    let (record, rest) = next(rest)?;
    assert_eq!(rt;
        record,
        Record::Tree {
            child: 2,
            parent: 1,
            slots: 4,
        }
    );
    assert!(rt; rest.is_empty());
    Ok(())
}

#[test]
fn reads_the_day(rt: HostRuntime) -> Result<(), Fail> {
    let (record, rest) = next(DAY)?;
    assert_eq!(rt;
        record,
        Record::Query {
            priority: 9,
            period: 0x1234,
            deadline: 0,
        }
    );
    let (record, rest) = next(rest)?;
    assert_eq!(rt;
        record,
        Record::Release {
            number: 0x1234_5678,
        }
    );
    let (record, rest) = next(rest)?;
    assert_eq!(rt; record, Record::Close { number: 1 });
    let (record, rest) = checked(rest)?.read();
    assert_eq!(rt; record, Record::Run { slots: 10000 });
    assert!(rt; rest.is_empty());
    Ok(())
}

#[test]
fn refuses(rt: HostRuntime) {
    assert_eq!(rt; next(&[0, 1]), Err(ReadFault::UnknownKind));
    assert_eq!(rt; next(&[8]), Err(ReadFault::UnknownKind));
    assert_eq!(rt; next(b"\x04\x09\x34\x12\x00"), Err(ReadFault::CutShort));
    assert_eq!(rt; next(&[]), Err(ReadFault::CutShort));
    assert_eq!(rt; ReadFault::UnknownKind.code(), 31);
    assert_eq!(rt; ReadFault::CutShort.code(), 32);
}
