//! What a person is told, by the status.
use super::*;
use std::io::ErrorKind;
use std::test::Fail;
use xf_outside::FetchCause;

#[test]
fn tells_the_file_and_the_cause(rt: HostRuntime) -> Result<(), Fail> {
    let alloc = rt.alloc();
    let folder = FetchCause::Failed(io::Error::from(ErrorKind::IsADirectory));
    let table = [
        (Status::DoneWithRefusals, false, FetchCause::Absent, ""),
        (
            Status::BoardRefused,
            false,
            FetchCause::Absent,
            "xf: b.csv: board refused; standard output says why\n",
        ),
        (Status::BoardRefused, true, FetchCause::Absent, ""),
        (
            Status::ReadFault,
            true,
            folder,
            "xf: cannot read \"my s.txt\": is a directory\n",
        ),
        (
            Status::WriteFault,
            true,
            FetchCause::Absent,
            "xf: cannot write: broken pipe\n",
        ),
        (
            Status::Absent,
            false,
            FetchCause::Absent,
            "xf: \"my s.txt\": no such file\n",
        ),
        (
            Status::TooLong,
            false,
            FetchCause::TooLong { limit: 9 },
            "xf: \"my s.txt\": more than 9 bytes\n",
        ),
    ];
    let put = Some(io::Error::from(ErrorKind::BrokenPipe));
    for (status, is_seen, cause, want) in table {
        let name = Some(String::from_str(alloc, "my s.txt")?);
        let fetch = FetchFailure { name, cause };
        let text = message(alloc, status, is_seen, "b.csv", Some(&fetch), put)?;
        assert!(rt;
            text.as_slice() == want.as_bytes(),
            "{status:?}, seen {is_seen}"
        );
    }
    Ok(())
}
