use dayfile::record::Record;
use daytext::encoder::encode;
use std::alloc::AllocError;

/// Puts the bytes of one record at the end.
pub fn add_record(bytes: &mut Vec<u8>, record: Record) -> Result<(), AllocError> {
    bytes.extend_from_slice(encode(record).as_slice())
}

pub fn add_records(bytes: &mut Vec<u8>, records: &[Record]) -> Result<(), AllocError> {
    for record in records {
        add_record(bytes, *record)?;
    }
    Ok(())
}
