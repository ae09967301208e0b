//! Worked examples of the text form, in a crate of their own, since a crate with tests is proved twice.
#![tactic(auto)]

#[cfg(test)]
mod tests {
    use dayfile::record::Record;
    use daytext::encoder::encode;
    use daytext::fault::LineFault;
    use daytext::parser::parse;
    use daytext::printer::print;
    use std::test::Fail;

    // A query whose period has two bytes that differ.
    const QUERY: Record = Record::Query {
        priority: 5,
        period: 600,
        deadline: 300,
    };

    #[test]
    fn encodes(rt: HostRuntime) {
        assert_eq!(rt;
            encode(QUERY).as_slice(),
            [4, 5, 0x58, 0x02, 0x2c, 0x01].as_slice()
        );
        assert_eq!(rt;
            encode(Record::Edge { from: 1, to: 2 }).as_slice(),
            [2, 1, 2].as_slice()
        );
    }

    #[test]
    fn prints(rt: HostRuntime) {
        assert_eq!(rt; print(QUERY).as_str(), "query 5 600 300");
        assert_eq!(rt; print(Record::Close { number: 0 }).as_str(), "close 0");
    }

    #[test]
    fn parses(rt: HostRuntime) {
        assert_eq!(rt; parse(b"query 5 600 300"), Ok(Some(QUERY)));
        assert_eq!(rt;
            parse(b"\t edge  1\t002 # heard"),
            Ok(Some(Record::Edge { from: 1, to: 2 }))
        );
        assert_eq!(rt;
            parse(b"run 65535\r"),
            Ok(Some(Record::Run { slots: 65535 }))
        );
        assert_eq!(rt; parse(b"  # run 1"), Ok(None));
        assert_eq!(rt; parse(b""), Ok(None));
    }

    #[test]
    fn refuses(rt: HostRuntime) -> Result<(), Fail> {
        assert_eq!(rt; parse(b"hop 1 0"), Err(LineFault::UnknownWord));
        assert_eq!(rt; parse(b"tree 1 0 # 1"), Err(LineFault::MissingNumber));
        assert_eq!(rt; parse(b"nodes +3"), Err(LineFault::NotANumber));
        assert_eq!(rt; parse(b"nodes 256"), Err(LineFault::TooLarge));
        assert_eq!(rt; parse(b"release 4294967296"), Err(LineFault::TooLarge));
        assert_eq!(rt; parse(b"nodes 3 4"), Err(LineFault::TooMuch));
        assert_eq!(rt; LineFault::TooMuch.message(), "too much on the line");
        let message = format!(in rt.alloc(); "{}", LineFault::TooMuch)?;
        assert_eq!(rt; message.as_str(), "too much on the line");
        Ok(())
    }
}
