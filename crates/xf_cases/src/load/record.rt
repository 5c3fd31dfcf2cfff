//! Records one at a time.
use csv::ByteRecord;
use std::test::Fail;
use xf_load::RecordReader;

static RECORDS: [&[&[u8]]; 4] = [
    &[b"a", b"b,\"\nc"],
    &[b"", b""],
    &[b"1"],
    &[b"2", b"3", b"4"],
];

#[test]
fn reads_records_one_at_a_time(rt: HostRuntime) -> Result<(), Fail> {
    let bytes = b"\xEF\xBB\xBFa,\"b,\"\"\nc\"\r\n\r\n,\n1\r2,3,4";
    let mut reader = RecordReader::new(rt.alloc(), bytes)?;
    let mut record = ByteRecord::new(rt.alloc());
    for fields in &RECORDS {
        assert!(rt; reader.read(&mut record)?);
        assert_eq!(rt; record.len(), fields.len());
        for (place, field) in fields.iter().enumerate() {
            assert!(rt; record.get(place) == Some(*field));
        }
    }
    assert!(rt; !reader.read(&mut record)?);
    assert!(rt; !reader.read(&mut record)?);
    Ok(())
}
